// Sets of rows as one word, and what is reached in a table of such sets.
#![tactic(auto)]

ghost use Rattle.std.specs.Prelude.{◌≡◌, ◌≤◌, ◌<◌, ◌^◌};
ghost use Rattle.std.specs.Int.Bits.{bit_or};
ghost use Rattle.std.specs.Iterator.{at_most};
ghost use Rattle.graph.specs.Sets.{member, edges, apart, outside};
ghost use Rattle.graph.specs.Reach.{reachable, ringed};
ghost use Rattle.graph.specs.Visit.{free, Visited};
ghost use Rattle.graph.specs.Rows.{OneOf, Takes};

// As many rows as a set has bits.
pub const ROWS: usize = 32;

// A set of rows: row i is in it where the bit i is set.
pub type Set = u32;

// Whether i is in the set. A place is a plain index with `i < ROWS`: a type for it would be made and taken apart at each use.
pub fn has(s: Set, i: usize) -> bool
    requires { i < ROWS }
    ensures { result ≡ member s i }
{
    (s >> i) % 2 == 1
}

// The set with i in it.
pub fn with(s: Set, i: usize) -> Set
    requires { i < ROWS }
    ensures { result ≡ bit_or s (2 ^ i) }
{
    s | (1 << i)
}

// What is in a and not in b.
pub fn without(a: Set, b: Set) -> Set
    ensures { result ≡ outside ROWS a b }
{
    a & !b
}

// Whether the two sets share nothing.
pub fn are_apart(a: Set, b: Set) -> bool
    ensures { result ≡ apart ROWS a b }
{
    a & b == 0
}

// The set's lowest row, if it has one.
pub fn first(s: Set) -> Option<usize>
    ensures { OneOf ROWS s result }
{
    if s == 0 {
        return None;
    }
    Some(s.trailing_zeros() as usize)
}

// Goes through the rows of a set, the lowest first. Inside are those that are left.
#[derive(Clone, Copy, Drop)]
pub struct RowsLeft(Set);

pub fn rows(s: Set) -> RowsLeft
    ensures { result.0 ≡ s }
{
    RowsLeft(s)
}

impl Iterator for RowsLeft {
    ghost use Rattle.graph.specs.declared.TheConstants.{ROWS};

    type Item = usize;

    ghost next_gives = { λ s i t. Takes ROWS s.0 i t.0 };

    ghost remaining = { λ s. at_most s.0 };

    fn next(&mut self) -> Option<usize> {
        let i = first(self.0)?;
        self.0 = without(self.0, with(0, i));
        Some(i)
    }
}

// The set seen, with the rows of from and what is reached from those that were not in it. Each row that is not in it is entered at most once,
// and the depth left is at least the number of these rows.
// A turn asks anew which rows of from are left, since the calls before it may have marked some.
fn visit(g: &[Set; ROWS], from: Set, seen: Set, left: usize) -> Set
    requires { free ROWS (member seen) ≤ left }
    ensures { Visited (edges g.now) (member from) (member seen) (member result) }
{
    let mut s = seen;
    while let Some(i) = first(without(from, s)) {
        s = visit(g, g[i], with(s, i), left - 1);
    }
    s
}

// What is reached from the seeds, themselves with it.
pub fn reach(g: &[Set; ROWS], seeds: Set) -> Set
    ensures { member result ≡ reachable ROWS (edges g.now) (member seeds) }
{
    visit(g, seeds, 0, ROWS)
}

// Whether a ring passes through the row t.
pub fn ring(g: &[Set; ROWS], t: usize) -> bool
    requires { t < ROWS }
    ensures { result ≡ ringed ROWS (edges g.now) t }
{
    has(reach(g, g[t]), t)
}
