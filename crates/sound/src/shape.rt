// Lengths and zeros: how many rows and records are used, and whether nothing stands behind them.
ghost use Rattle.std.specs.Prelude.{◌≡◌, true, ◌≤◌, get_or, length};
ghost use Rattle.rules.specs.Lists.{all};
ghost use Rattle.lists.specs.Tables.{first_index};
ghost use Rattle.sound.specs.Shape.{is_zero, no_row, raw, shaped};

use edges::ITEMS;
use graph::ROWS;
use lists::first_index;
use packed::RECS;
use terms::Row;

// How many records are used.
pub fn used_recs(recs: &[u64]) -> usize
    ensures is { result ≡ first_index is_zero recs.now }
    ensures bound { result ≤ length recs.now }
{
    first_index(recs, |p| *p == 0)
}

// Are all entries zero? All are looked at, with no way out: the compiler then takes several at a time.
fn is_clear<T: Copy + PartialEq>(part: &[T], zero: T) -> bool
    ensures { result ≡ all (λ x. T.eq x zero) part.now }
{
    part.iter().fold(true, |clear, x| clear & (*x == zero))
}

// Have the tables their lengths, and zeros behind the items, the rows and the records? `calls::is_fitting` looks at the same lengths, and says why.
// `used` and `filed` are passed, since the caller needs them too.
#[tactic(auto, using(crate::proofs::Shapes::first_most), unfolding(crate::specs::Shape::shaped))]
pub fn has_shape(
    head: &[u32],
    values: &[u32],
    writers: &[u32],
    rows: &[Row],
    recs: &[u64],
    used: usize,
    filed: usize,
) -> bool
    requires { (used ≡ first_index no_row rows.now) × (filed ≡ first_index is_zero recs.now) }
    ensures is { result ≡ shaped ITEMS ROWS RECS used filed (raw head.now values.now writers.now rows.now recs.now) }
    ensures lengths { result ≡ true → (length head.now ≡ 3) × (get_or head.now 0 0 ≤ ITEMS) × (length writers.now ≡ ITEMS) × (length rows.now ≡ ROWS) × (length recs.now ≡ RECS) }
{
    if head.len() != 3
        || values.len() != ITEMS
        || writers.len() != ITEMS
        || rows.len() != ROWS
        || recs.len() != RECS
        || ITEMS < head[0] as usize
    {
        return false;
    }
    let count = head[0] as usize;
    if !is_clear(&values[count..], 0) || !is_clear(&writers[count..], 0) {
        return false;
    }
    is_clear(&rows[used..], Row::default()) && is_clear(&recs[filed..], 0)
}
