// The edges between committed rows, as a set of rows for each row. The rows stand by ascending number and start, the records by transaction.
// A place is a plain index below ROWS, as in `graph`; commits by place are plain numbers, 0 where none is kept.
#![tactic(auto)]

ghost use Rattle.std.specs.Prelude.{◌≡◌, not, ◌&&◌, ◌||◌, ℕ, ◌<◌, ◌≤◌, eqb, ltb, length, get_or};
ghost use Rattle.lists.specs.Tables.{first_index};
ghost use Rattle.graph.specs.Sets.{member};
ghost use Rattle.edges.specs.Blocks.{used_count, foreign};
ghost use Rattle.edges.specs.Times.{placed, since};
ghost use Rattle.edges.specs.Drawn.{Met, Linked, Drawn};
ghost use Rattle.edges.specs.Told.{EdgesTold, SpentTold};
ghost use Rattle.edges.specs.Spent.{limit_of};

use graph::{ROWS, Set};
use lists::first_index;
pub use packed::ITEMS;
use packed::{is_write, item_of, txn_of};
use terms::{Moment, Row, TxnNo};

// Two sets of rows for each: those that read it, and those that wrote it. In one table, since two would be one more parameter with
// the same index.
const SETS: usize = ITEMS + ITEMS;

// How many records of t stand at the front.
fn count(part: &[u64], t: TxnNo) -> usize
    ensures is { result ≡ first_index (foreign t.0) part.now }
    ensures most { result ≤ length part.now }
{
    first_index(part, |p| txn_of(*p) != t)
}

// What a row meets: how many records it has, the rows that wrote what it touched, and those that touched what it wrote. Itself is in neither set.
#[derive(Clone, Copy)]
struct Others {
    count: usize,
    touched: Set,
    by: Set,
}

// What is met, without the row itself. A function, since `meet` ends in two places.
fn met(count: usize, touched: Set, by: Set, at: usize) -> Others
    requires { at < ROWS }
    ensures count { result.count ≡ count }
    ensures touched { (j : ℕ) → member result.touched j ≡ (member touched j && not (eqb at j)) }
    ensures by { (j : ℕ) → member result.by j ≡ (member by j && not (eqb at j)) }
{
    let own = graph::with(0, at);
    Others {
        count,
        touched: graph::without(touched, own),
        by: graph::without(by, own),
    }
}

// Meets the rows that are in the index by item, with the records of t at the front, and marks these for the row at a place.
fn meet(tab: &mut [Set; SETS], part: &[u64], t: TxnNo, at: usize) -> Others
    requires { at < ROWS }
    ensures met { Met ITEMS at t.0 part.now tab.old tab.new result.count result.touched result.by }
    ensures most { result.count ≤ length part.now }
{
    let mut read = 0;
    let mut by = 0;
    let mut wrote = 0;
    for (k, &p) in part.iter().enumerate() {
        if txn_of(p) != t {
            return met(k, read | wrote, by | wrote, at);
        }
        let i = item_of(p).0 as usize;
        let w = ITEMS + i;
        if is_write(p) {
            by |= tab[i];
            wrote |= tab[w];
            tab[w] = graph::with(tab[w], at);
        } else {
            read |= tab[w];
            tab[i] = graph::with(tab[i], at);
        }
    }
    met(part.len(), read | wrote, by | wrote, at)
}

// Joins to `before` the rows of a set that ended before a moment.
pub fn past(ends: &[u32; ROWS], touched: Set, before: Set, m: u32) -> Set
    ensures { (j : ℕ) → member result j ≡ (member before j || (member touched j && ltb (get_or ends.now j 0) m)) }
{
    let mut all = before;
    for j in graph::rows(graph::without(touched, before)) {
        if ends[j] < m {
            all = graph::with(all, j);
        }
    }
    all
}

// Draws an edge to i from each row of a set.
fn link(g: &mut [Set; ROWS], from: Set, i: usize)
    requires { i < ROWS }
    ensures { Linked from i g.old g.new }
{
    for j in graph::rows(from) {
        g[j] = graph::with(g[j], i);
    }
}

// Draws the edges between i and the rows that it meets: to those that wrote what it touched and go on after its start; from the others of them, and
// from those that touched what it wrote.
fn draw(g: &mut [Set; ROWS], touched: Set, by: Set, before: Set, i: usize)
    requires { i < ROWS }
    ensures { Drawn touched by before i g.old g.new }
{
    g[i] = graph::without(touched, before);
    link(g, by | (touched & before), i);
}

// The edges between committed rows: bit j of the set at i is set where an edge leads from the row at i to the row at j. Row after row, each meets
// the committed ones before it; only what it meets is compared by its moments.
pub fn edges(rows: &[Row; ROWS], recs: &[u64]) -> [Set; ROWS]
    ensures { EdgesTold ROWS rows.now recs.now result }
{
    let mut tab = [0; SETS];
    // The commits by place, and not the rows: `past` asks for one for each row.
    let mut ends = [0; ROWS];
    let mut g = [0; ROWS];
    let mut before = 0;
    let mut rest = recs;
    for (i, r) in rows.iter().enumerate() {
        if r.number == TxnNo(0) {
            return g;
        }
        if r.active() {
            rest = &rest[count(rest, r.number)..];
        } else {
            ends[i] = r.commit.0;
            let m = meet(&mut tab, rest, r.number, i);
            rest = &rest[m.count..];
            before = past(&ends, m.touched, before, r.start.0);
            draw(&mut g, m.touched, m.by, before, i);
        }
    }
    g
}

// The used rows whose commit is not before a moment; from moment 1 on, all that are committed.
fn late(rows: &[Row; ROWS], m: Moment) -> Set
    ensures { (j : ℕ) → member result j ≡ placed (since m.0) rows.now (used_count rows.now) j }
{
    let mut s = 0;
    for (i, r) in rows.iter().enumerate() {
        if r.number == TxnNo(0) {
            return s;
        }
        if m <= r.commit {
            s = graph::with(s, i);
        }
    }
    s
}

// The start of the first active row, or else a moment past all. No Option: `limit_of` is that moment, and the caller compares with it.
fn limit(rows: &[Row; ROWS]) -> Moment
    ensures { result.0 ≡ limit_of 4294967295 rows.now }
{
    for r in rows {
        if r.number == TxnNo(0) {
            break;
        }
        if r.active() {
            return r.start;
        }
    }
    Moment(u32::MAX)
}

// The spent rows, by the edges between committed rows: those that no row which is not old leads to.
pub fn spent(rows: &[Row; ROWS], g: &[Set; ROWS]) -> Set
    ensures { SpentTold rows.now g.now result }
{
    let m = limit(rows);
    let young = late(rows, m);
    graph::without(late(rows, Moment(1)), graph::reach(g, young))
}
