// Runs what the tables are read and changed by on one small board, and prints what each gives, one number a line.
#![tactic(auto)]

ghost use Rattle.std.specs.Prelude.{◌≡◌, ◌<◌};
ghost use Rattle.tables_cases.specs.Board.{board_rows};

use graph::ROWS;
use packed::{key_of, pack};
use std::io;
use tables::{records, rows, versions};
use terms::{ItemNo, Moment, READ, Rec, Row, TxnNo, WRITE};

// 1 for true, 0 for false, where Display has words.
fn flag(rt: &impl Print, b: bool) -> io::Result<()> {
    println!(rt; "{}", u8::from(b))
}

// 1 and 2 have committed, at 4 and at 5; 3 and 4 are active, and 4 began after both commits.
fn board() -> [Row; ROWS]
    ensures { result ≡ board_rows }
{
    let mut rs = rows::no_rows();
    rs[0] = Row::new(1, 1, 4);
    rs[1] = Row::new(2, 2, 5);
    rs[2] = Row::new(3, 3, 0);
    rs[3] = Row::new(4, 6, 0);
    rs
}

// The kind is a number, as in `Rec`.
fn record(t: u32, i: u32, kind: u32, word: u32) -> u64
    requires { (t < 65536) × (i < 256) × (kind < 256) }
{
    pack(Rec {
        txn: TxnNo(t),
        item: ItemNo(i),
        kind,
        word,
    })
}

// 1 writes item 0; 2 reads item 0 and writes item 1; 3 writes item 0; 4 reads item 0 and writes item 2. They go in out of order.
fn accesses(recs: &mut [u64]) {
    for p in [
        record(4, 2, WRITE, 40),
        record(3, 0, WRITE, 30),
        record(1, 0, WRITE, 10),
        record(4, 0, READ, 1),
        record(2, 1, WRITE, 20),
        record(2, 0, READ, 0),
    ] {
        records::insert(recs, p);
    }
}

// The writer and the value of the version of item i before a moment. The value tables have 7, 8 and 9, by the opening.
fn show_version(rt: &impl Print, recs: &[u64], i: u32, before: u32) -> io::Result<()>
    requires { i < 3 }
{
    let v = versions::visible(
        &[7, 8, 9],
        &[0, 0, 0],
        &board(),
        recs,
        ItemNo(i),
        Moment(before),
    );
    println!(rt; "{}\n{}", v.writer.0, v.value)
}

fn show_records(rt: &impl Print, recs: &[u64]) -> io::Result<()> {
    // The keys of the packed records, which ascend; then 0.
    for p in recs {
        println!(rt; "{}", key_of(*p))?;
    }
    // 3 wrote item 0, and did not read it; 1 wrote 10; 4 saw 1's version.
    flag(rt, records::has_rec(recs, TxnNo(3), ItemNo(0), WRITE))?;
    flag(rt, records::has_rec(recs, TxnNo(3), ItemNo(0), READ))?;
    println!(rt; "{}", records::word_in(recs, TxnNo(1), ItemNo(0), WRITE))?;
    println!(rt; "{}", records::word_in(recs, TxnNo(4), ItemNo(0), READ))?;
    // Where 2's write of item 1 stands, and where 5's first record would.
    println!(rt; "{}", records::place(recs, key_of(record(2, 1, WRITE, 0))))?;
    println!(rt; "{}", records::place(recs, key_of(record(5, 0, READ, 0))))
}

fn show_rows(rt: &impl Print, rs: &[Row]) -> io::Result<()> {
    println!(rt; "{}", rows::used(rs))?;
    // 0 and 1 are not active, 3 and 4 are, 5 is not there.
    for t in 0..6 {
        flag(rt, rows::is_active(rs, TxnNo(t)))?;
    }
    println!(rt; "{}", rows::row_of(rs, TxnNo(2)).commit.0)?;
    println!(rt; "{}", rows::row_of(rs, TxnNo(9)).number.0)
}

fn show_versions(rt: &impl Print, recs: &[u64]) -> io::Result<()> {
    // Item 0: 1's commit, at 4, is not before 4, and is before 5. Item 1: 2's. Item 2: nobody's who committed.
    show_version(rt, recs, 0, 4)?;
    show_version(rt, recs, 0, 5)?;
    show_version(rt, recs, 1, 7)?;
    show_version(rt, recs, 2, 7)?;
    // 3 is beaten by 1; 4 began after 1's commit, and wrote another item.
    flag(rt, versions::beaten(&board(), recs, TxnNo(3)))?;
    flag(rt, versions::beaten(&board(), recs, TxnNo(4)))
}

fn show_other_rows(rt: &impl Print) -> io::Result<()> {
    // 4 commits at 7.
    let mut committed = board();
    rows::commit(&mut committed, TxnNo(4), Moment(7));
    show_rows(rt, &committed)?;
    // A fifth begins at 8.
    let mut begun = board();
    rows::add(&mut begun, Row::new(5, 8, 0));
    show_rows(rt, &begun)?;
    // 3 is taken out.
    let mut removed = board();
    rows::remove(&mut removed, TxnNo(3));
    show_rows(rt, &removed)
}

fn main(rt: HostRuntime) -> io::Result<()> {
    let mut recs = [0u64; 8];
    accesses(&mut recs);
    show_records(&rt, &recs)?;
    show_rows(&rt, &board())?;
    show_versions(&rt, &recs)?;
    show_other_rows(&rt)?;
    // 3's records are taken out, and 1's write of item 0 becomes 11.
    records::remove_of(&mut recs, TxnNo(3));
    records::change(&mut recs, record(1, 0, WRITE, 11));
    show_records(&rt, &recs)
}
