// The rows: ascending numbers and starts, in range; distinct moments; each commit after its own start. Next number and next moment are the head's plain
// numbers, and are compared as such.
ghost use Rattle.std.specs.Prelude.{◌≡◌, true, ◌&&◌, [], ℕ};
ghost use Rattle.terms.specs.Words.{num, start};
ghost use Rattle.rules.specs.Lists.{all, pairs};
ghost use Rattle.rules.specs.Sound.{numbered, timed};
ghost use Rattle.sound.specs.Parts.{held};
ghost use Rattle.sound.specs.Rows.{apart_from, ascends, ends_well, fine_from, fine_row};

use terms::Row;

// Is the row active, or its commit after its start and before the moment?
#[tactic(auto, unfolding(crate::specs::Rows::ends_well))]
fn ends_well(r: Row, moment: u32) -> bool
    ensures { result ≡ ends_well moment r }
{
    r.active() || (r.start < r.commit && r.commit.0 < moment)
}

// Is the row in range, and behind the row before it?
#[tactic(auto, unfolding(crate::specs::Rows::fine_row))]
fn is_fine(r: Row, before: Row, next: u32, moment: u32) -> bool
    ensures { result ≡ fine_row next moment (num before) (start before) r }
{
    before.number < r.number
        && r.number.0 < next
        && before.start < r.start
        && r.start.0 < moment
        && ends_well(r, moment)
}

// Are the used rows in range and in order?
#[tactic(auto, unfolding(crate::specs::Rows::fine_from))]
fn are_fine(used: &[Row], next: u32, moment: u32) -> bool
    ensures { result ≡ fine_from next moment 0 0 used.now }
{
    let mut before = Row::default();
    for row in used {
        if !is_fine(*row, before, next, moment) {
            return false;
        }
        before = *row;
    }
    true
}

// Is a active, or its commit no moment of b's?
#[tactic(auto, unfolding(crate::specs::Rows::apart_from))]
fn is_apart(a: Row, b: Row) -> bool
    ensures { result ≡ apart_from a b }
{
    a.active() || (a.commit != b.commit && a.commit != b.start)
}

// Is a's commit no moment of the rows behind it? From the first on that started after it, all moments are after it.
fn is_apart_from(a: Row, later: &[Row]) -> bool
    requires { (next : ℕ) × (moment : ℕ) × (n : ℕ) × (b : ℕ) × (fine_from next moment n b later.now ≡ true) }
    ensures { result ≡ all (apart_from a) later.now }
{
    for b in later {
        if a.commit < b.start {
            return true;
        }
        if !is_apart(a, *b) {
            return false;
        }
    }
    true
}

// Is no commit a moment of a later row's?
fn are_apart(used: &[Row]) -> bool
    requires { (next : ℕ) × (moment : ℕ) × (fine_from next moment 0 0 used.now ≡ true) }
    ensures { result ≡ pairs apart_from used.now }
{
    for (i, a) in used.iter().enumerate() {
        if !is_apart_from(*a, &used[i + 1..]) {
            return false;
        }
    }
    true
}

pub fn has_rows(used: &[Row], next: u32, moment: u32) -> bool
    ensures { result ≡ (ascends used.now && (numbered (held 0 next moment [] [] used.now []) && timed (held 0 next moment [] [] used.now []))) }
{
    are_fine(used, next, moment) && are_apart(used)
}
