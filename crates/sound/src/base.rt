// The writers in the value tables: below the next number, and of no row. Writers are lent as plain numbers, and compared as such.
// What the rows have to be stands in each clause, as `lib.rt` says.
ghost use Rattle.std.specs.Prelude.{◌≡◌, true, map, ℕ, ◌<◌, ltb};
ghost use Rattle.terms.specs.Words.{num};
ghost use Rattle.rules.specs.Lists.{all};
ghost use Rattle.sound.specs.Base.{based_on, fair};
ghost use Rattle.sound.specs.Rows.{ascends};

use terms::Row;

// Is the writer below the next number, and no used row's?
fn is_fair(next: u32, used: &[Row], w: u32) -> bool
    requires { ascends used.now ≡ true }
    ensures { result ≡ fair next (map num used.now) w }
{
    w < next && used.binary_search_by_key(&w, |r| r.number.0).is_err()
}

// A number below which no writer is the next number or above it, nor one of the used rows': the lowest of these.
fn lowest(next: u32, used: &[Row]) -> u32
    requires { ascends used.now ≡ true }
    ensures { (w : ℕ) → w < result → fair next (map num used.now) w ≡ true }
{
    used.first().map_or(next, |r| next.min(r.number.0))
}

// Are all below low? All are looked at, with no way out: the compiler then takes several at a time.
fn are_below(part: &[u32], low: u32) -> bool
    ensures { result ≡ all (λ w. ltb w low) part.now }
{
    part.iter().fold(true, |below, w| below & (*w < low))
}

#[tactic(auto, unfolding(crate::specs::Base::based_on))]
pub fn has_base(next: u32, used: &[Row], writers: &[u32]) -> bool
    requires { ascends used.now ≡ true }
    ensures { result ≡ based_on next (map num used.now) writers.now }
{
    if are_below(writers, lowest(next, used)) {
        return true;
    }
    // Tried with `all`: the proof did not close.
    for w in writers {
        if !is_fair(next, used, *w) {
            return false;
        }
    }
    true
}
