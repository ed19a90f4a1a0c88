// The cases of the rules that no step file reaches or that are not marked P, through the public calls. One answer a line, number and value;
// for each unsound table, the numbers of the six calls' answers, and whether the tables stayed as they were.
#![tactic(auto)]

use crate::spoilt::{CASES, show_case, show_lengths};
use scheduler::board::{Board, abort, begin, open, read, write};
use std::io;
use terms::{Answer, Given, ItemNo, TxnNo};

mod spoilt;

fn show(rt: &impl Print, a: Answer) -> io::Result<()> {
    println!(rt; "{}", Given::from(a))
}

// Begins as often as it is told.
fn show_begins(rt: &impl Print, times: u32, board: &mut Board) -> io::Result<()> {
    for _ in 0..times {
        show(rt, begin(board))?;
    }
    Ok(())
}

// 32 begins, the 33rd gets 5; after abort of 4, begin gives 33.
fn show_rows(rt: &impl Print) -> io::Result<()> {
    let mut board = Board::closed();
    show(rt, open(&mut board, 2, &[0, 0]))?;
    show_begins(rt, 33, &mut board)?;
    show(rt, abort(&mut board, TxnNo(4)))?;
    show_begins(rt, 1, &mut board)
}

// 256 items, transaction 1 reads all: reading item 0 again is accepted, writing it gets 6. Item 7 starts with 70.
fn show_records(rt: &impl Print) -> io::Result<()> {
    let mut board = Board::closed();
    let mut start = [0; 256];
    start[7] = 70;
    show(rt, open(&mut board, 256, &start))?;
    show_begins(rt, 1, &mut board)?;
    for i in 0..256 {
        show(rt, read(&mut board, TxnNo(1), ItemNo(i)))?;
    }
    show(rt, read(&mut board, TxnNo(1), ItemNo(0)))?;
    show(rt, write(&mut board, TxnNo(1), ItemNo(0), 9))
}

// Begin before open gets 1. Counts 0 and 257 get 9, also with as many values; 1 and 256 are accepted; 2 with 1 value gets 9.
fn show_counts(rt: &impl Print) -> io::Result<()> {
    let mut board = Board::closed();
    show_begins(rt, 1, &mut board)?;
    show(rt, open(&mut board, 0, &[]))?;
    show(rt, open(&mut board, 257, &[0; 257]))?;
    show(rt, open(&mut board, 1, &[0]))?;
    show(rt, open(&mut board, 256, &[0; 256]))?;
    show(rt, open(&mut board, 2, &[0]))
}

// The last number is 65,535: the tables stand as after 65,534 begins that were aborted.
fn show_numbers(rt: &impl Print) -> io::Result<()> {
    let mut board = Board::closed();
    show(rt, open(&mut board, 2, &[0, 0]))?;
    board.head[1] = 65535;
    board.head[2] = 65535;
    show_begins(rt, 2, &mut board)?;
    show(rt, abort(&mut board, TxnNo(65535)))?;
    show_begins(rt, 1, &mut board)
}

fn main(rt: HostRuntime) -> io::Result<()> {
    show_counts(&rt)?;
    show_rows(&rt)?;
    show_records(&rt)?;
    show_numbers(&rt)?;
    for k in 0..CASES {
        show_case(&rt, k)?;
    }
    show_lengths(&rt)
}
