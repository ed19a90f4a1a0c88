// Versions: which one of an item is visible before a moment, and who is beaten. Each is found in passes over the records, which stop at
// the first unused one. The tables are parameters of their own, as in `scheduler`.
ghost use Rattle.std.specs.Prelude.{◌≡◌, map, [], ◌<◌, length};
ghost use Rattle.rules.specs.Versions.{version_at};
ghost use Rattle.rules.specs.Deps.{beaten};
ghost use Rattle.rules.specs.Raw.{unpack, used_rows, used_recs};
ghost use Rattle.laws.proofs.Rows.{Known};
ghost use Rattle.bridge.specs.Whole.{used_of};
ghost use Rattle.tables.specs.Best.{best_of, none, version_in};
ghost use Rattle.tables.specs.Marks.{Marked};

use super::rows::row_of;
use packed::{ITEMS, is_write, item_of, txn_of, word_of};
use terms::{ItemNo, Moment, Row, TxnNo, Version};

// The version by the write of item i whose transaction has the latest commit before a moment.
fn latest_write(rows: &[Row], recs: &[u64], i: ItemNo, before: Moment) -> Option<Version>
    ensures { result ≡ version_in (best_of (used_rows rows.now) i.0 before.0 (map unpack (used_recs recs.now)) none) }
{
    let mut latest = Moment(0);
    let mut found = None;
    for p in recs {
        if *p == 0 {
            return found;
        }
        if is_write(*p) && item_of(*p) == i {
            let writer = txn_of(*p);
            let commit = row_of(rows, writer).commit;
            if latest < commit && commit < before {
                latest = commit;
                found = Some(Version {
                    writer,
                    value: word_of(*p),
                });
            }
        }
    }
    found
}

// The version of item i with the latest commit before a moment; if there is none, the one in the value tables.
pub fn visible(
    values: &[u32],
    writers: &[u32],
    rows: &[Row],
    recs: &[u64],
    i: ItemNo,
    before: Moment,
) -> Version
    requires { Known (used_of rows.now recs.now values.now writers.now) × (i.0 < length values.now) × (i.0 < length writers.now) }
    ensures { result ≡ version_at (used_of rows.now recs.now values.now writers.now) i.0 before.0 }
{
    let at = i.0 as usize;
    latest_write(rows, recs, i, before).unwrap_or(Version {
        writer: TxnNo(writers[at]),
        value: values[at],
    })
}

// Which items t wrote.
fn wrote_items(recs: &[u64], t: TxnNo) -> [bool; ITEMS]
    ensures { Marked result recs.now t.0 }
{
    let mut marks = [false; ITEMS];
    for p in recs {
        if *p == 0 {
            return marks;
        }
        if txn_of(*p) == t && is_write(*p) {
            marks[item_of(*p).0 as usize] = true;
        }
    }
    marks
}

// Is t beaten: did a transaction that committed after t's start write an item that t wrote?
pub fn beaten(rows: &[Row], recs: &[u64], t: TxnNo) -> bool
    ensures { result ≡ beaten (used_of rows.now recs.now [] []) t.0 }
{
    let mine = wrote_items(recs, t);
    let start = row_of(rows, t).start;
    recs.iter().take_while(|p| **p != 0).any(|p| {
        is_write(*p) && mine[item_of(*p).0 as usize] && start < row_of(rows, txn_of(*p)).commit
    })
}
