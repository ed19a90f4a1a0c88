// The seven calls on tables that the caller owns together. They are functions and no methods, since `Board` is of `calls`, where the same calls ask for
// sound tables.
ghost use Rattle.std.specs.Prelude.{◌≡◌};
ghost use Rattle.rules.specs.Public.{abort_on, begin_on, commit_on, latest_on, open_on, read_on, write_on};
ghost use Rattle.calls.specs.Lent.{raw_on};

pub use calls::board::Board;
use terms::{Answer, ItemNo, TxnNo};

pub fn open(b: &mut Board, count: u32, start: &[u32]) -> Answer
    ensures { (result, raw_on b.new) ≡ open_on 32 256 count start.now (raw_on b.old) }
{
    crate::open(
        count,
        start,
        &mut b.head,
        &mut b.values,
        &mut b.writers,
        &mut b.rows,
        &mut b.recs,
    )
}

pub fn begin(b: &mut Board) -> Answer
    ensures { (result, raw_on b.new) ≡ begin_on 32 256 (raw_on b.old) }
{
    crate::begin(&mut b.head, &b.values, &b.writers, &mut b.rows, &b.recs)
}

pub fn read(b: &mut Board, t: TxnNo, i: ItemNo) -> Answer
    ensures { (result, raw_on b.new) ≡ read_on 32 256 t i (raw_on b.old) }
{
    crate::read(&b.head, &b.values, &b.writers, &b.rows, &mut b.recs, t, i)
}

pub fn write(b: &mut Board, t: TxnNo, i: ItemNo, v: u32) -> Answer
    ensures { (result, raw_on b.new) ≡ write_on 32 256 t i v (raw_on b.old) }
{
    crate::write(
        &b.head,
        &b.values,
        &b.writers,
        &b.rows,
        &mut b.recs,
        t,
        i,
        v,
    )
}

pub fn commit(b: &mut Board, t: TxnNo) -> Answer
    ensures { (result, raw_on b.new) ≡ commit_on 32 256 t (raw_on b.old) }
{
    crate::commit(
        &mut b.head,
        &mut b.values,
        &mut b.writers,
        &mut b.rows,
        &mut b.recs,
        t,
    )
}

pub fn abort(b: &mut Board, t: TxnNo) -> Answer
    ensures { (result, raw_on b.new) ≡ abort_on 32 256 t (raw_on b.old) }
{
    crate::abort(
        &b.head,
        &mut b.values,
        &mut b.writers,
        &mut b.rows,
        &mut b.recs,
        t,
    )
}

pub fn latest(b: &Board, i: ItemNo) -> Answer
    ensures { (result, raw_on b.now) ≡ latest_on 32 256 i (raw_on b.now) }
{
    crate::latest(&b.head, &b.values, &b.writers, &b.rows, &b.recs, i)
}
