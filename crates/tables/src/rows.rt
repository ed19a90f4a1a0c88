// The transaction rows, in a table that the caller lends. Scans stop at the first unused row.
ghost use Rattle.std.specs.Prelude.{◌≡◌, map, [], length, set, replicate};
ghost use Rattle.terms.specs.Words.{stamp};
ghost use Rattle.rules.specs.Lists.{keep, padded};
ghost use Rattle.rules.specs.State.{is_active, row_of};
ghost use Rattle.rules.specs.Raw.{used_rows, zero_row};
ghost use Rattle.bridge.specs.Whole.{used_of, other_row};

use graph::ROWS;
use lists::{first_index, keep};
use terms::{Moment, Row, TxnNo};

// A table with no used row.
pub fn no_rows() -> [Row; ROWS]
    ensures { result ≡ replicate ROWS zero_row }
{
    [Row::default(); ROWS]
}

// How many rows are used.
pub fn used(rows: &[Row]) -> usize
    ensures { result ≡ length (used_rows rows.now) }
{
    first_index(rows, |r| r.number == TxnNo(0))
}

// The row with the number t, or the free row. No Option, as in the definition `row_of`.
pub fn row_of(rows: &[Row], t: TxnNo) -> Row
    ensures { result ≡ row_of (used_rows rows.now) t.0 }
{
    rows.iter()
        .take_while(|r| r.number != TxnNo(0))
        .find(|r| r.number == t)
        .copied()
        .unwrap_or_default()
}

// Is t the number of an active transaction?
pub fn is_active(rows: &[Row], t: TxnNo) -> bool
    ensures { result ≡ is_active (used_of rows.now [] [] []) t.0 }
{
    rows.iter()
        .take_while(|r| r.number != TxnNo(0)) // Number 0 is no transaction's.
        .any(|r| r.number == t && r.active())
}

// Puts r after the used rows, if there is place.
pub fn add(rows: &mut [Row], r: Row)
    ensures { rows.new ≡ set rows.old (length (used_rows rows.old)) r }
{
    let at = used(rows);
    if at < rows.len() {
        rows[at] = r;
    }
}

// Takes t's row out: those after it move up, and a free row comes last.
pub fn remove(rows: &mut [Row], t: TxnNo)
    ensures { rows.new ≡ padded (length rows.old) zero_row (keep (other_row t.0) rows.old) }
{
    keep(rows, Row::default(), |r| r.number != t);
}

// Commits t's row at a moment.
pub fn commit(rows: &mut [Row], t: TxnNo, m: Moment)
    ensures { rows.new ≡ map (stamp t.0 m.0) rows.old }
{
    for row in rows.iter_mut() {
        if row.number == t {
            *row = row.commit_at(m);
        }
    }
}
