// The records: ascending keys, kind 1 or 2, of a used row and an item below count; and which row each belongs to.
// What the rows have to be stands in each clause, as `lib.rt` says.
ghost use Rattle.std.specs.Prelude.{◌≡◌, true, ◌&&◌, [], ◌≤◌, length};
ghost use Rattle.rules.specs.Sound.{owned};
ghost use Rattle.sound.specs.Parts.{held};
ghost use Rattle.sound.specs.Rows.{ascends};
ghost use Rattle.sound.specs.Records.{filed_after, sorted, Owners};

use packed::{item_of, key_of, kind_of, txn_of};
use terms::{READ, Row, WRITE};

// Is the key of p above the last, its kind one of the two and its item below count?
#[tactic(auto, unfolding(crate::specs::Records::filed_after))]
fn is_filed(p: u64, last: u64, count: u32) -> bool
    ensures { result ≡ filed_after count last p }
{
    last < key_of(p) && READ <= kind_of(p) && kind_of(p) <= WRITE && item_of(p).0 < count
}

// One pass over the two tables, which ascend: each row takes its records, and none is left. Says of each record the index of its row,
// in a table that the caller lends: fixed memory.
pub fn has_records(count: u32, used: &[Row], filed: &[u64], owners: &mut [usize]) -> bool
    requires { (length filed.now ≤ length owners.old) × (ascends used.now ≡ true) }
    ensures is { result ≡ (sorted filed.now && owned (held count 0 0 [] [] used.now filed.now)) }
    ensures owners { result ≡ true → Owners (length filed.now) used.now filed.now owners.new }
{
    let mut last = 0;
    let mut j = 0;
    for (i, row) in used.iter().enumerate() {
        // Two tables are walked at once, so the place in the second is counted here.
        while j < filed.len() && txn_of(filed[j]) == row.number {
            if !is_filed(filed[j], last, count) {
                return false;
            }
            last = key_of(filed[j]);
            owners[j] = i;
            j += 1;
        }
    }
    j == filed.len()
}
