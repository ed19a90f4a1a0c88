// Makes one public call a hundred times, each on a copy of full tables: 32 rows, 256 records. The first byte of standard input says which: 1 open, 2 begin,
// 3 read, 4 write, 5 latest, 6 commit, 7 abort of the oldest, which leaves all committed ones spent; any other byte, none. It prints the sum of the answers' numbers.
// bench/calls counts its instructions: what is more than without the calls is their cost.
#![tactic(auto)]

ghost use Rattle.std.specs.Prelude.{◌<◌};

use scheduler::board::{Board, abort, begin, commit, latest, open, read, write};
use std::io;
use std::io::Read;
use terms::{Answer, Given, ItemNo, Refusal, TxnNo};

// Transaction t reads four items and writes four others, two of which the next one reads.
fn accesses(board: &mut Board, t: u32) -> Result<(), Refusal>
    requires { t < 33 }
{
    for k in 0..4 {
        read(board, TxnNo(t), ItemNo(6 * t + k))?;
        write(board, TxnNo(t), ItemNo(6 * t + 4 + k), k)?;
    }
    Ok(())
}

// 1 stays active and so keeps all others; 2 to 31 commit; 32 is active.
fn full() -> Result<Board, Refusal> {
    let mut board = Board::closed();
    open(&mut board, 256, &[0; 256])?;
    for t in 1..33 {
        begin(&mut board)?;
        accesses(&mut board, t)?;
        if 2 <= t && t < 32 {
            commit(&mut board, TxnNo(t))?;
        }
    }
    Ok(board)
}

// The call that a byte of the input says. A byte has no enum: it is matched here alone, and each arm has other arguments.
fn one(which: u8, board: &mut Board) -> Answer {
    match which {
        1 => open(board, 256, &[0; 256]),
        2 => begin(board),
        3 => read(board, TxnNo(32), ItemNo(193)),
        4 => write(board, TxnNo(32), ItemNo(197), 9),
        5 => latest(board, ItemNo(100)),
        6 => commit(board, TxnNo(32)),
        7 => abort(board, TxnNo(1)),
        _ => Ok(0),
    }
}

fn main(rt: HostRuntime) -> io::Result<()> {
    let mut which = [0u8; 1];
    // An input that is empty or cannot be read leaves the 0, which makes no call.
    let _ = rt.reader().read(&mut which);
    match full() {
        Ok(board) => {
            let mut sum = 0u32;
            for _ in 0..100 {
                let mut copy = board;
                let given = Given::from(one(which[0], &mut copy));
                sum = sum.wrapping_add(given.number);
            }
            println!(rt; "{sum}")
        }
        Err(refusal) => println!(rt; "the tables cannot be filled: {refusal}"),
    }
}
