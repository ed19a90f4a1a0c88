// A sound board, and tables made of it that are not sound: beside each stands the sentence of "Sound tables" that it breaks. Case 0 is the board itself.
ghost use Rattle.std.specs.Prelude.{◌≤◌};

use graph::ROWS;
use scheduler::{abort, begin, commit, latest, read, write};
use std::io;
use terms::{Answer, Given, ItemNo, Rec, Row, TxnNo};

// The cases are numbered from 0; the tables of wrong length come after them.
pub const CASES: u32 = 38;

// What stands at a place of a table.
#[derive(Clone, Copy)]
enum Change {
    Head(usize, u32),
    Values(usize, u32),
    Writers(usize, u32),
    Rows(usize, Row),
    Recs(usize, Rec),
}

fn row(at: usize, number: u32, start: u32, commit: u32) -> Change {
    Change::Rows(at, Row::new(number, start, commit))
}

// The kind is a number, as in `Rec`: some cases have one that is none.
fn rec(at: usize, txn: u32, item: u32, kind: u32, word: u32) -> Change {
    Change::Recs(
        at,
        Rec {
            txn: TxnNo(txn),
            item: ItemNo(item),
            kind,
            word,
        },
    )
}

// The board: four items with the values 7, 8, 9 and 6. 1 (start 1) and 4 (start 6) are active; 2 (2 to 4) and 3 (3 to 5) have committed. 5, 6 and 7
// were aborted, and of the moments 7 to 10 no row has one. 1 read item 0; 2 wrote item 0 and read item 1; 3 wrote item 1 and read item 2; 4 read
// 2's version of item 0 and wrote item 2.
fn board() -> [Change; 18] {
    [
        Change::Head(0, 4),
        Change::Head(1, 8),
        Change::Head(2, 11),
        Change::Values(0, 7),
        Change::Values(1, 8),
        Change::Values(2, 9),
        Change::Values(3, 6),
        row(0, 1, 1, 0),
        row(1, 2, 2, 4),
        row(2, 3, 3, 5),
        row(3, 4, 6, 0),
        rec(0, 1, 0, 1, 0),
        rec(1, 2, 0, 2, 20),
        rec(2, 2, 1, 1, 0),
        rec(3, 3, 1, 2, 31),
        rec(4, 3, 2, 1, 0),
        rec(5, 4, 0, 1, 2),
        rec(6, 4, 2, 2, 42),
    ]
}

// What is changed in a case, by its number; in a few of them a second thing too. Each arm is data.
fn spoil(k: u32) -> Option<Change> {
    let change = match k {
        // "order": rows and records out of order, and two of one number or key
        1 => row(0, 3, 1, 0),
        2 => row(2, 2, 3, 5),
        3 => rec(0, 4, 3, 1, 0),
        4 => rec(2, 2, 0, 2, 20),
        // "zeros": something stands after the used rows or records, or past the count
        5 => row(5, 5, 7, 0),
        6 => row(4, 0, 7, 0),
        7 => row(31, 0, 0, 7),
        8 => rec(8, 4, 3, 1, 0),
        9 => Change::Values(4, 1),
        10 => Change::Writers(255, 1),
        // "count is in range"
        11 => Change::Head(0, 0),
        12 => Change::Head(0, 257),
        // "next number N is 1 to 65,536"
        13 => Change::Head(1, 0),
        14 => Change::Head(1, 65537),
        // "next moment is at least N + kept committed rows and at most 2 × N − 1 − active rows"
        15 => Change::Head(2, 9),
        16 => Change::Head(2, 14),
        // "Row numbers are 1 to N − 1"
        17 => row(3, 8, 6, 0),
        // "starts ascend with them"
        18 => row(2, 3, 7, 8),
        // "all row moments .. are distinct, from 1, below next moment; each commit follows its own start"
        19 => row(2, 3, 3, 4),
        20 => row(1, 2, 2, 3),
        21 => row(0, 1, 0, 0),
        22 => row(3, 4, 11, 0),
        23 => row(2, 3, 3, 11),
        24 => row(3, 4, 9, 8),
        // "Each used record is of kind 1 or 2 and belongs to a used row and an item below count"
        25 => rec(6, 4, 2, 0, 42),
        26 => rec(6, 4, 2, 3, 42),
        27 => rec(6, 5, 2, 2, 42),
        28 => rec(6, 4, 4, 2, 42),
        // "Each writer in the value tables is below N and has no row."
        29 => Change::Writers(3, 8),
        30 => Change::Writers(3, 3),
        // "Each read word names the version visible to its transaction": a commit before the start, one after it, a writer of nothing, the value table
        31 => rec(5, 4, 0, 1, 0),
        32 => rec(0, 1, 0, 1, 2),
        33 => rec(2, 2, 1, 1, 7),
        34 => Change::Writers(2, 6),
        // "No two kept committed writers of one item are concurrent."
        35 => rec(3, 3, 0, 2, 31),
        // "Dependencies among kept committed rows have no ring": 3 read item 0 before 2's version, and 2 read item 1 before 3's
        36 => rec(3, 3, 0, 1, 0),
        // "and none of these rows is spent": 1 commits, and read what nobody wrote
        37 => row(0, 1, 1, 7),
        _ => return None,
    };
    Some(change)
}

fn second(k: u32) -> Option<Change> {
    match k {
        36 => Some(rec(4, 3, 1, 2, 31)),
        37 => Some(rec(0, 1, 3, 1, 0)),
        _ => None,
    }
}

// A record of any kind and item as one number; `packed::pack` asks that each field fits.
fn any_packed(x: Rec) -> u64 {
    let key = (u64::from(x.txn.0) << 16) | (u64::from(x.item.0) << 8) | u64::from(x.kind);
    (key << 32) | u64::from(x.word)
}

fn put<T: Copy>(table: &mut [T], at: usize, x: T) {
    if let Some(place) = table.get_mut(at) {
        *place = x;
    }
}

// Tables with room for one entry too many, but for the rows.
#[derive(Clone, Copy, PartialEq)]
struct Tables {
    head: [u32; 4],
    values: [u32; 257],
    writers: [u32; 257],
    rows: [Row; ROWS],
    recs: [u64; 257],
}

// How much of each is lent.
#[derive(Clone, Copy)]
struct Lengths {
    head: usize,
    values: usize,
    writers: usize,
    recs: usize,
}

const RIGHT: Lengths = Lengths {
    head: 3,
    values: 256,
    writers: 256,
    recs: 256,
};

impl Tables {
    fn of_case(k: u32) -> Tables {
        let mut tables = Tables {
            head: [0; 4],
            values: [0; 257],
            writers: [0; 257],
            rows: [Row::default(); ROWS],
            recs: [0; 257],
        };
        for change in board() {
            tables.put(change);
        }
        if let Some(change) = spoil(k) {
            tables.put(change);
        }
        if let Some(change) = second(k) {
            tables.put(change);
        }
        tables
    }

    fn put(&mut self, change: Change) {
        match change {
            Change::Head(at, x) => put(&mut self.head, at, x),
            Change::Values(at, x) => put(&mut self.values, at, x),
            Change::Writers(at, x) => put(&mut self.writers, at, x),
            Change::Rows(at, x) => put(&mut self.rows, at, x),
            Change::Recs(at, x) => put(&mut self.recs, at, any_packed(x)),
        }
    }

    // Makes all calls but open, and shows the numbers of the answers. Hands over what the calls left.
    fn show_calls(self, rt: &impl Print, n: Lengths) -> io::Result<Tables>
        requires { (n.head ≤ 4) × (n.values ≤ 257) × (n.writers ≤ 257) × (n.recs ≤ 257) }
    {
        let mut tables = self;
        let head = &mut tables.head[..n.head];
        let values = &mut tables.values[..n.values];
        let writers = &mut tables.writers[..n.writers];
        let rows = &mut tables.rows;
        let recs = &mut tables.recs[..n.recs];
        show_number(rt, begin(head, values, writers, rows, recs))?;
        show_number(
            rt,
            read(head, values, writers, rows, recs, TxnNo(4), ItemNo(1)),
        )?;
        show_number(
            rt,
            write(head, values, writers, rows, recs, TxnNo(1), ItemNo(3), 5),
        )?;
        show_number(rt, latest(head, values, writers, rows, recs, ItemNo(0)))?;
        show_number(rt, commit(head, values, writers, rows, recs, TxnNo(4)))?;
        show_number(rt, abort(head, values, writers, rows, recs, TxnNo(1)))?;
        Ok(tables)
    }
}

// The number alone, in one line with others, so no Display.
fn show_number(rt: &impl Print, a: Answer) -> io::Result<()> {
    let given = Given::from(a);
    print!(rt; "{} ", given.number)
}

// Makes the tables of a case and the calls, and shows what they answered and whether the tables stayed.
fn attempt(rt: &impl Print, k: u32, n: Lengths) -> io::Result<()>
    requires { (n.head ≤ 4) × (n.values ≤ 257) × (n.writers ≤ 257) × (n.recs ≤ 257) }
{
    let before = Tables::of_case(k);
    let after = before.show_calls(rt, n)?;
    let said = if after == before { "same" } else { "changed" };
    println!(rt; "{said}")
}

pub fn show_case(rt: &impl Print, k: u32) -> io::Result<()> {
    attempt(rt, k, RIGHT)
}

// "the tables have the stated lengths": the board in tables of which one is one too short or one too long.
pub fn show_lengths(rt: &impl Print) -> io::Result<()> {
    attempt(rt, 0, Lengths { head: 2, ..RIGHT })?;
    attempt(
        rt,
        0,
        Lengths {
            values: 255,
            ..RIGHT
        },
    )?;
    attempt(
        rt,
        0,
        Lengths {
            writers: 255,
            ..RIGHT
        },
    )?;
    attempt(rt, 0, Lengths { recs: 255, ..RIGHT })?;
    attempt(rt, 0, Lengths { head: 4, ..RIGHT })?;
    attempt(
        rt,
        0,
        Lengths {
            values: 257,
            ..RIGHT
        },
    )?;
    attempt(
        rt,
        0,
        Lengths {
            writers: 257,
            ..RIGHT
        },
    )?;
    attempt(rt, 0, Lengths { recs: 257, ..RIGHT })
}
