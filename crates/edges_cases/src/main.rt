// Draws the edges on worked boards, says which rows are spent, takes these out, and prints what is left.
#![tactic(auto)]

ghost use Rattle.std.specs.Prelude.{◌<◌};
ghost use Rattle.std.specs.Iterator.{IsFinite};

use edges::ITEMS;
use graph::ROWS;
use packed::{pack, txn_of};
use std::io;
use tables::{records, rows};
use terms::{ItemNo, Rec, Row, TxnNo};

// A word and the numbers after it.
fn line<I: Iterator<Item = u32> + Drop>(rt: &impl Print, word: &str, numbers: I) -> io::Result<()>
    requires can { I.can_next numbers }
    requires ends { IsFinite (I.remaining numbers) }
{
    print!(rt; "{word}")?;
    for n in numbers {
        print!(rt; " {n}")?;
    }
    println!(rt)
}

// Shows the first records, as many as shown. The value tables have 7, 8 and 9, by the opening.
fn run(rt: &impl Print, mut board: [Row; ROWS], recs: &mut [u64], shown: usize) -> io::Result<()> {
    let used = rows::used(&board);
    let g = edges::edges(&board, recs);
    line(rt, "edges", g.iter().copied().take(used))?;
    let gone = edges::spent(&board, &g);
    println!(rt; "spent {gone}")?;
    let mut values = [0; ITEMS];
    values[..3].copy_from_slice(&[7, 8, 9]);
    let mut writers = [0; ITEMS];
    taking::pass_on(&mut values, &mut writers, &board, recs, gone);
    line(rt, "values", values.iter().copied().take(3))?;
    line(rt, "writers", writers.iter().copied().take(3))?;
    taking::recs_without(recs, &board, gone);
    taking::rows_without(&mut board, gone);
    line(rt, "rows", board.iter().map(|r| r.number.0).take(used))?;
    line(rt, "records", recs.iter().map(|p| txn_of(*p).0).take(shown))
}

// A board of some rows and records, which go in one after the other.
fn case(rt: &impl Print, few: &[Row], accesses: &[u64]) -> io::Result<()> {
    let mut board = rows::no_rows();
    for r in few {
        rows::add(&mut board, *r);
    }
    let mut recs = [0u64; 8];
    for p in accesses {
        records::insert(&mut recs, *p);
    }
    run(rt, board, &mut recs, accesses.len())
}

// t read item i, and saw the version of a writer.
fn read(t: u32, i: u32, writer: u32) -> u64
    requires { (t < 65536) × (i < 256) }
{
    pack(Rec::read(TxnNo(t), ItemNo(i), TxnNo(writer)))
}

fn write(t: u32, i: u32, value: u32) -> u64
    requires { (t < 65536) × (i < 256) }
{
    pack(Rec::write(TxnNo(t), ItemNo(i), value))
}

// 1 read item 0 as it was before 2 wrote it: 1 leads to 2. None is active, so both are spent.
fn read_then_overwritten(rt: &impl Print) -> io::Result<()> {
    case(
        rt,
        &[Row::new(1, 1, 4), Row::new(2, 2, 3)],
        &[read(1, 0, 0), write(2, 0, 20)],
    )
}

// The same with the writer first: 2 began before 1's commit and read the opening's version, so 2 leads to 1.
fn overwritten_unseen(rt: &impl Print) -> io::Result<()> {
    case(
        rt,
        &[Row::new(1, 1, 3), Row::new(2, 2, 4)],
        &[write(1, 0, 10), read(2, 0, 0)],
    )
}

// 2 overwrote 1's version of item 2: 1 leads to 2. Both go, and only the later version passes on.
fn overwritten(rt: &impl Print) -> io::Result<()> {
    case(
        rt,
        &[Row::new(1, 1, 2), Row::new(2, 3, 4)],
        &[write(1, 2, 10), write(2, 2, 20)],
    )
}

// 2 read 1's version of item 1: 1 leads to 2. Both ended before 3 began, so they go, and 3 with its record stays.
fn read_from(rt: &impl Print) -> io::Result<()> {
    case(
        rt,
        &[Row::new(1, 1, 2), Row::new(2, 3, 4), Row::new(3, 5, 0)],
        &[write(1, 1, 10), read(2, 1, 1), read(3, 1, 1)],
    )
}

// 1 read what 2 overwrote, but is active: no edge. 2's commit is after 1's start, so nothing goes.
fn active_reader(rt: &impl Print) -> io::Result<()> {
    case(
        rt,
        &[Row::new(1, 1, 0), Row::new(2, 2, 3)],
        &[read(1, 0, 0), write(2, 0, 20)],
    )
}

// 1 is spent, and its version passes on, though 2 overwrote it: 2 committed after 3's start, and stays.
fn later_writer_stays(rt: &impl Print) -> io::Result<()> {
    case(
        rt,
        &[Row::new(1, 1, 2), Row::new(2, 3, 5), Row::new(3, 4, 0)],
        &[write(1, 0, 10), write(2, 0, 20), read(3, 0, 1)],
    )
}

// 1 read what 2 overwrote, and 3 read from 2: 1 leads to 2, and 2 to 3. Nothing leads to 4 or from it.
fn chain() -> [u64; 5] {
    [
        read(1, 0, 0),
        write(2, 0, 20),
        write(2, 1, 21),
        read(3, 1, 2),
        write(4, 2, 40),
    ]
}

fn chain_rows() -> [Row; 4] {
    [
        Row::new(1, 1, 9),
        Row::new(2, 2, 3),
        Row::new(3, 4, 5),
        Row::new(4, 6, 7),
    ]
}

// 5 is active since 8. 2, 3 and 4 ended before; 1 did not, so it keeps 2, and 2 keeps 3. Only 4 is spent.
fn chain_kept(rt: &impl Print) -> io::Result<()> {
    let [r1, r2, r3, r4] = chain_rows();
    case(rt, &[r1, r2, r3, r4, Row::new(5, 8, 0)], &chain())
}

// With none active all are spent, and each item has the version that was installed last.
fn chain_spent(rt: &impl Print) -> io::Result<()> {
    case(rt, &chain_rows(), &chain())
}

// 32 rows of 8 records, one after the other: each writes seven items and reads the first of the row before, which leads to it. The last one is
// active; the others ended before its start, so all of them are spent.
fn full(rt: &impl Print) -> io::Result<()> {
    let mut board = rows::no_rows();
    let mut recs = [0u64; 256];
    for i in 0..32u32 {
        let t = i + 1;
        let commit = if t < 32 { 2 * t } else { 0 };
        rows::add(&mut board, Row::new(t, 2 * t - 1, commit));
        let before = if i > 0 { 8 * i - 8 } else { 255 };
        records::insert(&mut recs, read(t, before, i));
        for k in 0..7 {
            records::insert(&mut recs, write(t, 8 * i + k, 100 + i));
        }
    }
    run(rt, board, &mut recs, 9)
}

fn main(rt: HostRuntime) -> io::Result<()> {
    read_then_overwritten(&rt)?;
    overwritten_unseen(&rt)?;
    overwritten(&rt)?;
    read_from(&rt)?;
    active_reader(&rt)?;
    later_writer_stays(&rt)?;
    chain_kept(&rt)?;
    chain_spent(&rt)?;
    full(&rt)
}
