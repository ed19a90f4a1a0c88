// The seven calls on lent tables. The tables may be of any length and hold anything: those that are not sound are answered 1 and left as they are;
// open answers 9 where a length is wrong, and does not look at what stood there. Each table is a parameter of its own, so that a caller lends by `&`
// what a call only reads. `calls` has the same calls without the test, and says why.
#![tactic(auto)]

ghost use Rattle.std.specs.Prelude.{◌≡◌, true, false, MatchResult};
ghost use Rattle.rules.specs.Public.{abort_on, begin_on, commit_on, latest_on, open_on, read_on, write_on};
ghost use Rattle.rules.specs.Raw.{sound_raw};
ghost use Rattle.terms.specs.declared.Refusal.TheVariants.{UnsoundTables};
ghost use Rattle.calls.specs.Lent.{raw};

use sound::sound;
use terms::{Answer, ItemNo, Refusal, Row, TxnNo};

pub mod board;
pub mod rows;

// Refuses tables that are not sound.
fn check(
    head: &[u32],
    values: &[u32],
    writers: &[u32],
    rows: &[Row],
    recs: &[u64],
) -> Result<(), Refusal>
    ensures { MatchResult result (λ _. sound_raw 32 256 (raw head.now values.now writers.now rows.now recs.now) ≡ true)
        (λ e. (e ≡ UnsoundTables) × (sound_raw 32 256 (raw head.now values.now writers.now rows.now recs.now) ≡ false)) }
{
    if !sound(head, values, writers, rows, recs) {
        return Err(Refusal::UnsoundTables);
    }
    Ok(())
}

pub fn open(
    count: u32,
    start: &[u32],
    head: &mut [u32],
    values: &mut [u32],
    writers: &mut [u32],
    rows: &mut [Row],
    recs: &mut [u64],
) -> Answer
    ensures { (result, raw head.new values.new writers.new rows.new recs.new)
        ≡ open_on 32 256 count start.now (raw head.old values.old writers.old rows.old recs.old) }
{
    calls::open(count, start, head, values, writers, rows, recs)
}

pub fn begin(
    head: &mut [u32],
    values: &[u32],
    writers: &[u32],
    rows: &mut [Row],
    recs: &[u64],
) -> Answer
    ensures { (result, raw head.new values.now writers.now rows.new recs.now)
        ≡ begin_on 32 256 (raw head.old values.now writers.now rows.old recs.now) }
{
    check(head, values, writers, rows, recs)?;
    calls::begin(head, values, writers, rows, recs)
}

pub fn read(
    head: &[u32],
    values: &[u32],
    writers: &[u32],
    rows: &[Row],
    recs: &mut [u64],
    t: TxnNo,
    i: ItemNo,
) -> Answer
    ensures { (result, raw head.now values.now writers.now rows.now recs.new)
        ≡ read_on 32 256 t i (raw head.now values.now writers.now rows.now recs.old) }
{
    check(head, values, writers, rows, recs)?;
    calls::read(head, values, writers, rows, recs, t, i)
}

pub fn write(
    head: &[u32],
    values: &[u32],
    writers: &[u32],
    rows: &[Row],
    recs: &mut [u64],
    t: TxnNo,
    i: ItemNo,
    v: u32,
) -> Answer
    ensures { (result, raw head.now values.now writers.now rows.now recs.new)
        ≡ write_on 32 256 t i v (raw head.now values.now writers.now rows.now recs.old) }
{
    check(head, values, writers, rows, recs)?;
    calls::write(head, values, writers, rows, recs, t, i, v)
}

pub fn commit(
    head: &mut [u32],
    values: &mut [u32],
    writers: &mut [u32],
    rows: &mut [Row],
    recs: &mut [u64],
    t: TxnNo,
) -> Answer
    ensures { (result, raw head.new values.new writers.new rows.new recs.new)
        ≡ commit_on 32 256 t (raw head.old values.old writers.old rows.old recs.old) }
{
    check(head, values, writers, rows, recs)?;
    calls::commit(head, values, writers, rows, recs, t)
}

pub fn abort(
    head: &[u32],
    values: &mut [u32],
    writers: &mut [u32],
    rows: &mut [Row],
    recs: &mut [u64],
    t: TxnNo,
) -> Answer
    ensures { (result, raw head.now values.new writers.new rows.new recs.new)
        ≡ abort_on 32 256 t (raw head.now values.old writers.old rows.old recs.old) }
{
    check(head, values, writers, rows, recs)?;
    calls::abort(head, values, writers, rows, recs, t)
}

pub fn latest(
    head: &[u32],
    values: &[u32],
    writers: &[u32],
    rows: &[Row],
    recs: &[u64],
    i: ItemNo,
) -> Answer
    ensures { (result, raw head.now values.now writers.now rows.now recs.now)
        ≡ latest_on 32 256 i (raw head.now values.now writers.now rows.now recs.now) }
{
    check(head, values, writers, rows, recs)?;
    calls::latest(head, values, writers, rows, recs, i)
}
