// The calls on tables that are known to be sound: each does what the rules say, with no test for answer 1. Each table is a parameter of its own, so
// that a caller lends by `&` what a call only reads. `scheduler` has the same calls with the test: one function for both would take the test as a
// parameter, and its contract would be no shorter than the two. The head is lent as three numbers, and values and writers as two tables: so the rules
// have them.
#![tactic(auto)]

ghost use Rattle.std.specs.Prelude.{◌≡◌, ◌<◌, ◌≤◌, true, false, [], length, get_or, MatchResult};
ghost use Rattle.rules.specs.Machine.{openable};
ghost use Rattle.rules.specs.Public.{abort_on, begin_on, commit_on, fitting, latest_on, open_on, read_on, write_on};
ghost use Rattle.rules.specs.State.{is_active};
ghost use Rattle.terms.specs.declared.Refusal.TheVariants.{NotActive, UnknownItem};
ghost use Rattle.bridge.specs.Whole.{used_of};
ghost use Rattle.calls.specs.Lent.{raw, Sound};

use edges::{ITEMS, edges};
use ending::{end, has_ring, tidy};
use graph::ROWS;
use lists::clear_from;
use packed::{RECS, pack};
use tables::records::{change, has_rec, insert, word_in};
use tables::rows::{add, commit as commit_row, is_active, row_of, used};
use tables::versions::{beaten, visible};
use terms::{Answer, ItemNo, Moment, READ, Rec, Refusal, Row, TxnNo, WRITE};

pub mod board;

// Is the count 1 to 256, and are there as many starting values?
#[tactic(auto, unfolding(rules::specs::Machine::openable))]
fn is_openable(count: u32, start: &[u32]) -> bool
    ensures { result ≡ openable count start.now }
{
    1 <= count && count as usize <= ITEMS && start.len() == count as usize
}

// Have the tables the board's lengths? `sound` looks at the same five, but an opening has no soundness to test, and this crate does not rest on it.
#[tactic(auto, unfolding(rules::specs::Public::fitting))]
fn is_fitting(head: &[u32], values: &[u32], writers: &[u32], rows: &[Row], recs: &[u64]) -> bool
    ensures { result ≡ fitting 32 256 (raw head.now values.now writers.now rows.now recs.now) }
{
    head.len() == 3
        && values.len() == ITEMS
        && writers.len() == ITEMS
        && rows.len() == ROWS
        && recs.len() == RECS
}

// Opens with starting values, whatever stood in the tables. It needs no sound tables.
pub fn open(
    count: u32,
    start: &[u32],
    head: &mut [u32],
    values: &mut [u32],
    writers: &mut [u32],
    rows: &mut [Row],
    recs: &mut [u64],
) -> Answer
    ensures { (result, raw head.new values.new writers.new rows.new recs.new)
        ≡ open_on 32 256 count start.now (raw head.old values.old writers.old rows.old recs.old) }
{
    if !is_openable(count, start) || !is_fitting(head, values, writers, rows, recs) {
        return Err(Refusal::BadOpening);
    }
    head.copy_from_slice(&[count, 1, 1]);
    let (used, free) = values.split_at_mut(start.len());
    used.copy_from_slice(start);
    clear_from(free, 0, 0);
    clear_from(writers, 0, 0);
    clear_from(rows, 0, Row::default());
    clear_from(recs, 0, 0);
    Ok(0)
}

// Refuses an item that is not below the count.
fn check_item(head: &[u32], i: ItemNo) -> Result<(), Refusal>
    requires { 0 < length head.now }
    ensures { MatchResult result (λ _. i.0 < get_or head.now 0 0) (λ e. (e ≡ UnknownItem) × (get_or head.now 0 0 ≤ i.0)) }
{
    if head[0] <= i.0 {
        return Err(Refusal::UnknownItem);
    }
    Ok(())
}

// Refuses a number that is not an active transaction's.
fn check_active(rows: &[Row], t: TxnNo) -> Result<(), Refusal>
    ensures { MatchResult result (λ _. is_active (used_of rows.now [] [] []) t.0 ≡ true) (λ e. (e ≡ NotActive) × (is_active (used_of rows.now [] [] []) t.0 ≡ false)) }
{
    if !is_active(rows, t) {
        return Err(Refusal::NotActive);
    }
    Ok(())
}

pub fn begin(
    head: &mut [u32],
    values: &[u32],
    writers: &[u32],
    rows: &mut [Row],
    recs: &[u64],
) -> Answer
    requires { Sound (raw head.old values.now writers.now rows.old recs.now) }
    ensures { (result, raw head.new values.now writers.now rows.new recs.now)
        ≡ begin_on 32 256 (raw head.old values.now writers.now rows.old recs.now) }
{
    let number = head[1];
    let moment = head[2];
    if number == 65536 {
        return Err(Refusal::NumbersUsedUp);
    }
    if used(rows) == ROWS {
        return Err(Refusal::RowsFull);
    }
    add(rows, Row::new(number, moment, 0));
    head[1] = number + 1;
    head[2] = moment + 1;
    Ok(number)
}

pub fn read(
    head: &[u32],
    values: &[u32],
    writers: &[u32],
    rows: &[Row],
    recs: &mut [u64],
    t: TxnNo,
    i: ItemNo,
) -> Answer
    requires { Sound (raw head.now values.now writers.now rows.now recs.old) }
    ensures { (result, raw head.now values.now writers.now rows.now recs.new)
        ≡ read_on 32 256 t i (raw head.now values.now writers.now rows.now recs.old) }
{
    check_item(head, i)?;
    check_active(rows, t)?;
    if has_rec(recs, t, i, WRITE) {
        return Ok(word_in(recs, t, i, WRITE));
    }
    let row = row_of(rows, t);
    let seen = visible(values, writers, rows, recs, i, row.start);
    if has_rec(recs, t, i, READ) {
        return Ok(seen.value);
    }
    if recs[RECS - 1] != 0 {
        return Err(Refusal::RecordsFull);
    }
    let p = pack(Rec::read(t, i, seen.writer));
    insert(recs, p);
    Ok(seen.value)
}

pub fn write(
    head: &[u32],
    values: &[u32],
    writers: &[u32],
    rows: &[Row],
    recs: &mut [u64],
    t: TxnNo,
    i: ItemNo,
    v: u32,
) -> Answer
    requires { Sound (raw head.now values.now writers.now rows.now recs.old) }
    ensures { (result, raw head.now values.now writers.now rows.now recs.new)
        ≡ write_on 32 256 t i v (raw head.now values.now writers.now rows.now recs.old) }
{
    check_item(head, i)?;
    check_active(rows, t)?;
    let p = pack(Rec::write(t, i, v));
    if has_rec(recs, t, i, WRITE) {
        change(recs, p);
        return Ok(0);
    }
    if recs[RECS - 1] != 0 {
        return Err(Refusal::RecordsFull);
    }
    insert(recs, p);
    Ok(0)
}

pub fn latest(
    head: &[u32],
    values: &[u32],
    writers: &[u32],
    rows: &[Row],
    recs: &[u64],
    i: ItemNo,
) -> Answer
    requires { Sound (raw head.now values.now writers.now rows.now recs.now) }
    ensures { (result, raw head.now values.now writers.now rows.now recs.now)
        ≡ latest_on 32 256 i (raw head.now values.now writers.now rows.now recs.now) }
{
    check_item(head, i)?;
    let v = visible(values, writers, rows, recs, i, Moment(head[2]));
    Ok(v.value)
}

pub fn commit(
    head: &mut [u32],
    values: &mut [u32],
    writers: &mut [u32],
    rows: &mut [Row],
    recs: &mut [u64],
    t: TxnNo,
) -> Answer
    requires { Sound (raw head.old values.old writers.old rows.old recs.old) }
    ensures { (result, raw head.new values.new writers.new rows.new recs.new)
        ≡ commit_on 32 256 t (raw head.old values.old writers.old rows.old recs.old) }
{
    check_active(rows, t)?;
    let values = values.as_mut_array::<ITEMS>().unwrap();
    let writers = writers.as_mut_array::<ITEMS>().unwrap();
    let rows = rows.as_mut_array::<ROWS>().unwrap();
    if beaten(rows, recs, t) {
        end(values, writers, rows, recs, t);
        return Err(Refusal::Beaten);
    }
    let moment = head[2];
    let mut next = *rows;
    commit_row(&mut next, t, Moment(moment));
    let g = edges(&next, recs);
    if has_ring(&g, &next, t) {
        end(values, writers, rows, recs, t);
        return Err(Refusal::ClosesRing);
    }
    *rows = next;
    head[2] = moment + 1;
    tidy(&g, values, writers, rows, recs);
    Ok(moment)
}

pub fn abort(
    head: &[u32],
    values: &mut [u32],
    writers: &mut [u32],
    rows: &mut [Row],
    recs: &mut [u64],
    t: TxnNo,
) -> Answer
    requires { Sound (raw head.now values.old writers.old rows.old recs.old) }
    ensures { (result, raw head.now values.new writers.new rows.new recs.new)
        ≡ abort_on 32 256 t (raw head.now values.old writers.old rows.old recs.old) }
{
    check_active(rows, t)?;
    let values = values.as_mut_array::<ITEMS>().unwrap();
    let writers = writers.as_mut_array::<ITEMS>().unwrap();
    let rows = rows.as_mut_array::<ROWS>().unwrap();
    end(values, writers, rows, recs, t);
    Ok(0)
}
