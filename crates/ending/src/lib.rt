// How a transaction ends: whether its commit closes a ring, what is left of it, and what is spent then. The tables are parameters of their own, as in
// `scheduler`.
#![tactic(auto)]

ghost use Rattle.std.specs.Prelude.{◌≡◌, length};
ghost use Rattle.edges.specs.Told.{EdgesTold};
ghost use Rattle.ending.specs.Told.{Ended, Tidied, ring_at};

use edges::{ITEMS, edges, spent};
use graph::{ROWS, Set, ring};
use tables::records::remove_of;
use tables::rows::remove;
use taking::{pass_on, place, recs_without, rows_without};
use terms::{Row, TxnNo};

// Does a ring pass through the row with the number t?
#[tactic(auto, using(crate::proofs::Places::ring_found, crate::proofs::Places::ring_missing))]
pub fn has_ring(g: &[Set; ROWS], rows: &[Row; ROWS], t: TxnNo) -> bool
    ensures { result ≡ ring_at ROWS g.now rows.now t.0 }
{
    place(rows, t).is_some_and(|at| ring(g, at))
}

// Takes the spent ones out, by the edges between the committed rows.
pub fn tidy(
    g: &[Set; ROWS],
    values: &mut [u32; ITEMS],
    writers: &mut [u32; ITEMS],
    rows: &mut [Row; ROWS],
    recs: &mut [u64],
)
    requires { EdgesTold ROWS rows.old recs.old g.now }
    ensures { Tidied ROWS (length recs.old) values.old writers.old rows.old recs.old values.new writers.new rows.new recs.new }
{
    let gone = spent(rows, g);
    if gone == 0 {
        return;
    }
    pass_on(values, writers, rows, recs, gone);
    recs_without(recs, rows, gone);
    rows_without(rows, gone);
}

// Takes all of t out, and then the spent ones.
pub fn end(
    values: &mut [u32; ITEMS],
    writers: &mut [u32; ITEMS],
    rows: &mut [Row; ROWS],
    recs: &mut [u64],
    t: TxnNo,
)
    ensures { Ended ROWS (length recs.old) t.0 values.old writers.old rows.old recs.old values.new writers.new rows.new recs.new }
{
    remove(rows, t);
    remove_of(recs, t);
    let g = edges(rows, recs);
    tidy(&g, values, writers, rows, recs);
}
