// The head: count, next number and next moment are in range.
ghost use Rattle.std.specs.Prelude.{◌≡◌, ◌≤◌, [], length};
ghost use Rattle.terms.specs.Words.{committed};
ghost use Rattle.rules.specs.Lists.{keep};
ghost use Rattle.rules.specs.Sound.{headed};
ghost use Rattle.sound.specs.Parts.{held};

use terms::Row;

// How many of the used rows are committed.
fn commits(used: &[Row]) -> usize
    ensures is { result ≡ length (keep committed used.now) }
    ensures most { result ≤ length used.now }
{
    used.iter().filter(|r| !r.active()).count()
}

#[tactic(auto, using(crate::proofs::HeadTests::head_is))]
pub fn has_head(count: u32, next: u32, moment: u32, used: &[Row]) -> bool
    ensures { result ≡ headed (held count next moment [] [] used.now []) }
{
    let ended = commits(used);
    // `as` here and below, since there is no From between usize and u64.
    let going_on = (used.len() - ended) as u64;
    let next = u64::from(next);
    let moment = u64::from(moment);
    1 <= count
        && count <= 256
        && 1 <= next
        && next <= 65536
        && next + ended as u64 <= moment
        && moment + 1 + going_on <= 2 * next
}
