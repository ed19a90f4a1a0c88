// Tables that a caller lends, changed in place: an entry goes in, the rest is cleared, what passes a test stays. And the search for
// the first that passes one.
#![tactic(auto)]

ghost use Rattle.std.specs.Prelude.{◌≡◌, ◌≤◌, Bool, length, take};
ghost use Rattle.rules.specs.Lists.{keep, padded};
ghost use Rattle.lists.specs.Tables.{AnswersAs, first_index, insert_in};

// Puts x in at index at: what stands from there on moves one place up, and the last is lost.
pub fn insert_at<T: Copy>(table: &mut [T], at: usize, x: T)
    ensures { table.new ≡ insert_in at x table.old }
{
    let mut held = x;
    // Not `rotate_right`, which calls memmove: of the C library, what is linked into a C host calls memcpy and memset alone.
    for i in at..table.len() {
        let next = table[i];
        table[i] = held;
        held = next;
    }
}

// Puts zero in each place from index from on.
pub fn clear_from<T: Copy>(table: &mut [T], from: usize, zero: T)
    ensures { table.new ≡ padded (length table.old) zero (take from table.old) }
{
    if from < table.len() {
        // `fill` would ask of every T that its clone cannot fail.
        table[from..].fill_with(move || zero);
    }
}

// Moves the elements that pass the test to the front, in their order, and puts zero in the places behind them.
pub fn keep<T: Copy, F: Fn(&T) -> bool>(table: &mut [T], zero: T, keeps: F)
    requires { F.IsAlwaysCallable keeps }
    ensures { (p : T → Bool) → AnswersAs F.Fn keeps p → table.new ≡ padded (length table.old) zero (keep p table.old) }
{
    let mut kept = 0;
    // By places: it writes the table that it reads.
    for j in 0..table.len() {
        let x = table[j];
        if keeps(&x) {
            table[kept] = x;
            kept += 1;
        }
    }
    clear_from(table, kept, zero);
}

// The index of the first element that stops the search, or else the length.
pub fn first_index<T, F: Fn(&T) -> bool>(table: &[T], stops: F) -> usize
    requires { F.IsAlwaysCallable stops }
    ensures is { (p : T → Bool) → AnswersAs F.Fn stops p → result ≡ first_index p table.now }
    ensures most { result ≤ length table.now }
{
    for (i, x) in table.iter().enumerate() {
        if stops(x) {
            return i;
        }
    }
    table.len()
}
