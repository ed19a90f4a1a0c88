// Rows that go lose their row and their records, and their latest versions pass into the value tables. The tables are parameters of their own, as in
// `scheduler`.
#![tactic(auto)]

ghost use Rattle.std.specs.Prelude.{◌≡◌, ◌<◌, length, eqb, position};
ghost use Rattle.std.specs.Option.{ForSome};
ghost use Rattle.rules.specs.Lists.{keep, padded};
ghost use Rattle.rules.specs.Raw.{used_recs, zero_row};
ghost use Rattle.terms.specs.Words.{num};
ghost use Rattle.graph.specs.Sets.{member};
ghost use Rattle.taking.specs.Leaving.{leaving, gone_at, stays};
ghost use Rattle.taking.specs.Passing.{Passed};

use edges::ITEMS;
use graph::{ROWS, Set};
use packed::{is_write, item_of, txn_of, word_of};
use terms::{Moment, Row, TxnNo};

// Where the row with the number t stands.
pub fn place(rows: &[Row; ROWS], t: TxnNo) -> Option<usize>
    ensures place { result ≡ position (λ r. eqb (num r) t.0) rows.now }
    ensures small { ForSome result (λ at. at < length rows.now) }
{
    rows.iter().position(|r| r.number == t)
}

// The same, if the row goes.
#[tactic(auto, using(crate::proofs::Places::found_gone, crate::proofs::Places::found_stays, crate::proofs::Places::missing))]
fn place_gone(rows: &[Row; ROWS], gone: Set, t: TxnNo) -> Option<usize>
    ensures place { result ≡ gone_at gone rows.now t.0 }
    ensures small { ForSome result (λ at. at < length rows.now) }
{
    place(rows, t).filter(|at| graph::has(gone, *at))
}

// Tells of one record after the other whether its row goes. The records of one transaction stand together, so the last answer is kept.
#[derive(Clone, Copy)]
struct Leaving<'a> {
    rows: &'a [Row; ROWS],
    gone: Set,
    last: TxnNo,
    at: Option<usize>,
    ghost known: { at ≡ gone_at gone rows.now last.0 },
    ghost small: { ForSome at (λ i. i < length rows.now) },
}

impl<'a> Leaving<'a> {
    fn new(rows: &'a [Row; ROWS], gone: Set) -> Leaving<'a>
        ensures rows { result.rows.now ≡ rows.now }
        ensures gone { result.gone ≡ gone }
    {
        let last = TxnNo(0);
        let at = place_gone(rows, gone, last);
        Leaving {
            rows,
            gone,
            last,
            at,
        }
    }

    // The place of t's row, if it goes.
    fn place(&mut self, t: TxnNo) -> Option<usize>
        ensures place { result ≡ gone_at self.old.gone self.old.rows.now t.0 }
        ensures small { ForSome result (λ at. at < length self.old.rows.now) }
        ensures rows { self.new.rows.now ≡ self.old.rows.now }
        ensures gone { self.new.gone ≡ self.old.gone }
    {
        if t != self.last {
            self.at = place_gone(self.rows, self.gone, t);
            self.last = t;
        }
        self.at
    }
}

// The rows without those at the places of a set, moved up.
pub fn rows_without(rows: &mut [Row; ROWS], gone: Set)
    ensures { rows.new ≡ padded ROWS zero_row (leaving (member gone) 0 rows.old) }
{
    let mut kept = 0;
    // By places: it writes the table that it reads. Not `lists::keep`, since the test goes by the place.
    for at in 0..ROWS {
        if !graph::has(gone, at) {
            rows[kept] = rows[at];
            kept += 1;
        }
    }
    rows[kept..].fill(Row::default());
}

// The records without those of the rows that go, moved up.
pub fn recs_without(recs: &mut [u64], rows: &[Row; ROWS], gone: Set)
    ensures { recs.new ≡ padded (length recs.old) 0 (keep (stays gone rows.now) (used_recs recs.old)) }
{
    let mut leaving = Leaving::new(rows, gone);
    let mut kept = 0;
    // By places: it writes the table that it reads. Not `lists::keep`, since the test changes with each record.
    for at in 0..recs.len() {
        let p = recs[at];
        if p == 0 {
            break;
        }
        if leaving.place(txn_of(p)).is_none() {
            recs[kept] = p;
            kept += 1;
        }
    }
    recs[kept..].fill(0);
}

// Passes the latest version of each item that rows that go wrote into the value tables.
pub fn pass_on(
    values: &mut [u32; ITEMS],
    writers: &mut [u32; ITEMS],
    rows: &[Row; ROWS],
    recs: &[u64],
    gone: Set,
)
    ensures { Passed gone rows.now recs.now values.old writers.old values.new writers.new }
{
    // Mostly no row goes, and then no record is read.
    if gone == 0 {
        return;
    }
    let mut leaving = Leaving::new(rows, gone);
    let mut best = [Moment(0); ITEMS];
    for &p in recs {
        if p == 0 {
            break;
        }
        let t = txn_of(p);
        if let Some(at) = leaving.place(t) {
            let i = item_of(p).0 as usize;
            let commit = rows[at].commit;
            if is_write(p) && best[i] < commit {
                best[i] = commit;
                values[i] = word_of(p);
                writers[i] = t.0;
            }
        }
    }
}
