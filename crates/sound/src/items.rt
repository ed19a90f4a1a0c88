// What the records say of each item: who wrote it, whether two of the writers are concurrent, and which version a read sees. Rows are named by
// their index, sets of rows are words. What the rows have to be stands in each clause, as `lib.rt` says.
ghost use Rattle.std.specs.Prelude.{◌≡◌, true, false, not, ◌||◌, map, ℕ, ◌≤◌, ◌<◌, eqb, length};
ghost use Rattle.graph.specs.Fill.{Tabled};
ghost use Rattle.graph.specs.Sets.{member};
ghost use Rattle.rules.specs.Raw.{unpack};
ghost use Rattle.terms.specs.Words.{is_read, num};
ghost use Rattle.sound.specs.Rows.{ascends, rises};
ghost use Rattle.sound.specs.Told.{ItemsTold};
ghost use Rattle.sound.specs.Records.{Owners, sorted};
ghost use Rattle.sound.specs.Items.{earlier_than, is_install, newest_of};

use edges::ITEMS;
use graph::{ROWS, Set};
use packed::{is_read, is_write, item_of, word_of};
use terms::Row;

// For each used row, the committed ones before it that ended before its start. Starts ascend, so one that ended stays so for all that follow.
pub fn earlier(used: &[Row]) -> [Set; ROWS]
    requires { (length used.now ≤ ROWS) × (rises used.now ≡ true) }
    ensures { Tabled (length used.now) result (earlier_than used.now) }
{
    let mut early = [0; ROWS];
    // The commits by place, and not the rows: `past` asks for one for each row.
    let mut ends = [0; ROWS];
    let mut kept = 0;
    let mut done = 0;
    for (k, r) in used.iter().enumerate() {
        done = edges::past(&ends, kept, done, r.start.0);
        early[k] = done;
        if !r.active() {
            ends[k] = r.commit.0;
            kept = graph::with(kept, k);
        }
    }
    early
}

// Is the record a write, of a row that is committed?
fn is_install(p: u64, row: Row) -> bool
    ensures { result ≡ is_install p row }
{
    is_write(p) && !row.active()
}

// Have all these writers of an item ended before?
fn is_unmixed(others: Set, before: Set) -> bool
    ensures { (result ≡ true → (j : ℕ) → member others j ≡ true → member before j ≡ true) × (result ≡ false → (j : ℕ) × (member others j ≡ true) × (member before j ≡ false)) }
{
    graph::without(others, before) == 0
}

// The number of the set's highest row, or else base.
#[tactic(auto, using(crate::proofs::Places::nums_at), unfolding(crate::specs::Items::newest_of))]
fn newest(s: Set, used: &[Row], base: u32) -> u32
    requires { (j : ℕ) → member s j ≡ true → j < length used.now }
    ensures { result ≡ newest_of ROWS (map num used.now) s base }
{
    if s == 0 {
        return base;
    }
    used[(31 - s.leading_zeros()) as usize].number.0
}

// Does the record, where it is a read, name the newest of these writers, or else base?
fn is_seen(p: u64, s: Set, used: &[Row], base: u32) -> bool
    requires { (j : ℕ) → member s j ≡ true → j < length used.now }
    ensures { result ≡ (not (is_read (unpack p)) || eqb (unpack p).word (newest_of ROWS (map num used.now) s base)) }
{
    !is_read(p) || word_of(p) == newest(s, used, base)
}

// Are no two committed writers of one item concurrent, and does each read word name the version seen? The records stand by row, so the writers met
// so far are all those that can have ended before. `owners` is what `has_records` filled, in fixed memory.
pub fn has_items(used: &[Row], filed: &[u64], owners: &[usize], writers: &[u32; ITEMS]) -> bool
    requires { (length used.now ≤ ROWS) × (length filed.now ≤ length owners.now) × (ascends used.now ≡ true) × (rises used.now ≡ true) × Owners (length filed.now) used.now filed.now owners.now × (sorted filed.now ≡ true) }
    ensures { ItemsTold used.now filed.now writers.now result }
{
    let early = earlier(used);
    let mut wrote = [0; ITEMS];
    for (j, p) in filed.iter().enumerate() {
        let o = owners[j];
        let e = item_of(*p).0 as usize;
        let others = wrote[e];
        let before = early[o];
        if is_install(*p, used[o]) {
            if !is_unmixed(others, before) {
                return false;
            }
            wrote[e] = graph::with(others, o);
        } else if !is_seen(*p, others & before, used, writers[e]) {
            return false;
        }
    }
    true
}
