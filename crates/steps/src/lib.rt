// Steps read from the bytes of a step file, and answers written as bytes.
#![tactic(auto)]

ghost use Rattle.std.specs.Prelude.{◌≡◌, ◌+◌, ◌≤◌, ◌<◌, length, MatchOption};
ghost use Rattle.steps.specs.Decoding.{answers_of, decoded, field, kind_of, step_of, steps_of, whole};
ghost use Rattle.steps.specs.Answers.{answer_at};

use terms::{Given, ItemNo, Step, TxnNo};

// The number in two bytes.
#[tactic(auto, using(crate::proofs::Numbers::two_bytes))]
fn two(part: &[u8], at: usize) -> u32
    requires { at + 2 ≤ length part.now }
    ensures { result ≡ field at 2 part.now }
{
    u32::from(u16::from_le_bytes([part[at], part[at + 1]]))
}

// The number in four bytes.
#[tactic(auto, using(crate::proofs::Numbers::four_bytes))]
pub fn four(part: &[u8], at: usize) -> u32
    requires { at + 4 ≤ length part.now }
    ensures { result ≡ field at 4 part.now }
{
    u32::from_le_bytes([part[at], part[at + 1], part[at + 2], part[at + 3]])
}

// The length n, if the part has as many bytes. `step_length` calls it in each arm, and not once behind the match: the compiler would then look the length up
// in a table, each step would wait for the one before, and counting the answers of a file would take nearly twice as long.
fn fits(part: &[u8], n: usize) -> Option<usize>
    ensures { MatchOption result (length part.now < n) (λ m. (m ≡ n) × (n ≤ length part.now)) }
{
    if part.len() < n {
        return None;
    }
    Some(n)
}

// How long the step at the front of a part is, if its kind is known and its body is not cut. The kinds have no enum of their own: it would have the
// names of `Step` again.
#[tactic(auto, unfolding(crate::specs::Decoding::whole, crate::specs::Decoding::length_of))]
fn step_length(part: &[u8]) -> Option<usize>
    ensures { MatchOption result (whole part.now ≡ 0) (λ n. (n ≡ whole part.now) × (0 < n) × (n ≤ length part.now)) }
{
    match *part.first()? {
        0 | 4 | 5 | 6 => fits(part, 3),
        1 => fits(part, 1),
        2 => fits(part, 5),
        3 => fits(part, 9),
        _ => None,
    }
}

// The step that stands whole at the front. The kind is matched as a number, as in `step_length`.
#[tactic(auto, using(crate::proofs::Bodies::room, crate::proofs::Bodies::last_kind), unfolding(crate::specs::Decoding::length_of, crate::specs::Decoding::step_of))]
fn step_of(part: &[u8]) -> Step
    requires { 0 < whole part.now }
    ensures { result ≡ step_of (kind_of part.now) part.now }
{
    match part[0] {
        0 => Step::Open(two(part, 1)),
        1 => Step::Begin,
        2 => Step::Read(TxnNo(two(part, 1)), ItemNo(two(part, 3))),
        3 => Step::Write(TxnNo(two(part, 1)), ItemNo(two(part, 3)), four(part, 5)),
        4 => Step::Commit(TxnNo(two(part, 1))),
        5 => Step::Abort(TxnNo(two(part, 1))),
        _ => Step::Latest(ItemNo(two(part, 1))),
    }
}

// The step at the front of a part that starts at its kind byte, and its length; none where it is bad. An empty part, which no run asks about, has none.
#[tactic(auto, using(crate::proofs::Bodies::decoded_good, crate::proofs::Bodies::decoded_bad))]
pub fn decode(part: &[u8]) -> Option<(Step, usize)>
    ensures { result ≡ decoded part.now }
{
    let n = step_length(part)?;
    Some((step_of(part), n))
}

// How many answers a file gives, a 10 included, found without running it.
pub fn count(file: &[u8]) -> usize
    ensures { result ≡ answers_of (steps_of file.now) }
{
    let mut rest = file;
    let mut n = 0;
    // No `for`: a step is as long as its kind says.
    while let Some(k) = step_length(rest) {
        rest = &rest[k..];
        n += 1;
    }
    if rest.is_empty() { n } else { n + 1 }
}

// Writes an answer's five bytes at a place of a buffer that is lent, in fixed memory, as `four` reads at one. The number is narrowed by `as`: the clause says that it fits.
#[tactic(auto, using(crate::proofs::Puts::number_and_value))]
pub fn put_answer(out: &mut [u8], at: usize, g: Given)
    requires { (at + 5 ≤ length out.old) × (g.number < 256) }
    ensures { out.new ≡ answer_at at g out.old }
{
    out[at] = g.number as u8;
    out[at + 1..at + 5].copy_from_slice(&g.value.to_le_bytes());
}
