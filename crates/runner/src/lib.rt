// A whole step file run into an answer buffer, on tables of its own.
#![tactic(auto)]

ghost use Rattle.std.specs.Prelude.{◌≡◌, true, ◌*◌, ◌≤◌, ◌<◌, length, IsOk, Ok};
ghost use Rattle.rules.specs.Lists.{all};
ghost use Rattle.rules.specs.Machine.{call_of};
ghost use Rattle.rules.specs.Public.{call_on};
ghost use Rattle.calls.specs.Lent.{Sound, raw_on};
ghost use Rattle.steps.specs.Decoding.{steps_of};
ghost use Rattle.runner.specs.Ready.{Closed, Ready};
ghost use Rattle.runner.specs.Run.{answers_in, answers_to, code, narrow, run_on, written};

use calls::board::Board;
use calls::{abort, begin, commit, latest, open, read, write};
use edges::ITEMS;
use reader::step_at;
use std::error::Error;
use std::fmt;
use steps::{count, put_answer};
use terms::{Answer, Given, Refusal, Step};

// How a run ended, with the number of answers that it wrote: after the last step, or with the answer 10 to a bad one.
#[derive(Clone, Copy, Debug, PartialEq, Eq)]
pub enum Outcome {
    Complete(u16),
    BadStep(u16),
}

impl Outcome {
    // How many answers the run wrote.
    pub fn answers(self) -> usize
        ensures count { result ≡ answers_in self }
        ensures few { result < 65536 }
    {
        match self {
            Outcome::Complete(n) | Outcome::BadStep(n) => usize::from(n),
        }
    }
}

// Why a run wrote nothing.
#[derive(Clone, Copy, Debug, PartialEq, Eq)]
pub enum RunError {
    TooLong,
    NoRoom,
}

impl fmt::Display for RunError {
    fn fmt<W: fmt::Write>(&self, f: &mut fmt::Formatter<W>) -> fmt::Result {
        f.write_str(match self {
            RunError::TooLong => "the step file is above 8,192 bytes",
            RunError::NoRoom => "the answer buffer is shorter than 5 bytes for each answer",
        })
    }
}

impl Error for RunError {}

// Opens a number of items, all of which start at 0.
fn open_zeros(board: &mut Board, items: u32) -> Answer
    ensures { (result, raw_on board.new) ≡ call_on 32 256 (call_of (Step.Open items)) (raw_on board.old) }
{
    if 256 < items {
        return Err(Refusal::BadOpening);
    }
    let zeros = [0; ITEMS];
    open(
        items,
        &zeros[..items as usize],
        &mut board.head,
        &mut board.values,
        &mut board.writers,
        &mut board.rows,
        &mut board.recs,
    )
}

// A step on sound tables.
fn on_sound(b: &mut Board, step: Step) -> Answer
    requires { Sound (raw_on b.old) }
    ensures { (result, raw_on b.new) ≡ call_on 32 256 (call_of step) (raw_on b.old) }
{
    // Each arm has other arguments, so a table of functions would be no plainer.
    match step {
        Step::Open(items) => open_zeros(b, items),
        Step::Begin => begin(&mut b.head, &b.values, &b.writers, &mut b.rows, &b.recs),
        Step::Read(t, i) => read(&b.head, &b.values, &b.writers, &b.rows, &mut b.recs, t, i),
        Step::Write(t, i, v) => write(
            &b.head,
            &b.values,
            &b.writers,
            &b.rows,
            &mut b.recs,
            t,
            i,
            v,
        ),
        Step::Commit(t) => commit(
            &mut b.head,
            &mut b.values,
            &mut b.writers,
            &mut b.rows,
            &mut b.recs,
            t,
        ),
        Step::Abort(t) => abort(
            &b.head,
            &mut b.values,
            &mut b.writers,
            &mut b.rows,
            &mut b.recs,
            t,
        ),
        Step::Latest(i) => latest(&b.head, &b.values, &b.writers, &b.rows, &b.recs, i),
    }
}

// A step on closed tables: an opening opens them, and for every other they are unsound.
fn on_closed(board: &mut Board, step: Step) -> Answer
    requires { Closed (raw_on board.old) }
    ensures { (result, raw_on board.new) ≡ call_on 32 256 (call_of step) (raw_on board.old) }
{
    let Step::Open(items) = step else {
        return Err(Refusal::UnsoundTables);
    };
    open_zeros(board, items)
}

// A step on the tables of a run. There is no test for soundness: a count of 0 says that the tables are the closed ones.
fn advance(board: &mut Board, step: Step) -> Answer
    requires { Ready (raw_on board.old) }
    ensures { (result, raw_on board.new) ≡ call_on 32 256 (call_of step) (raw_on board.old) }
{
    if board.head[0] == 0 {
        return on_closed(board, step);
    }
    on_sound(board, step)
}

// Runs a file whose answers have room.
fn play(file: &[u8], out: &mut [u8]) -> Outcome
    requires { (length file.now ≤ 8192) × (5 * length (answers_to 32 256 (steps_of file.now)) ≤ length out.old) }
    ensures out_after { (code (Ok result), out.new) ≡ written 32 256 (steps_of file.now) out.old }
    ensures room_in_bytes { all narrow (answers_to 32 256 (steps_of file.now)) ≡ true }
{
    let mut board = Board::closed();
    let mut at = 0;
    let mut n = 0;
    // No `for`: a step is as long as its kind says.
    while at < file.len() {
        let found = step_at(file, at);
        let Some((step, _)) = found.decoded else {
            // 10 answers no call, so no Refusal has it.
            let bad = Given {
                number: 10,
                // At most 8,191, and there is no From between usize and u32.
                value: at as u32,
            };
            put_answer(out, 5 * n, bad);
            return Outcome::BadStep(n as u16 + 1);
        };
        let answer = advance(&mut board, step);
        put_answer(out, 5 * n, Given::from(answer));
        at = found.at;
        n += 1;
    }
    // Narrowed by `as`, here and above: a file has at most 8,192 answers.
    Outcome::Complete(n as u16)
}

// Runs a step file into an answer buffer. Where answers are written, each value has room in its bytes, so that they can be read back.
pub fn run(file: &[u8], out: &mut [u8]) -> Result<Outcome, RunError>
    ensures out_after { (code result, out.new) ≡ run_on 32 256 file.now out.old }
    ensures room_in_bytes { IsOk result → all narrow (answers_to 32 256 (steps_of file.now)) ≡ true }
{
    if 8192 < file.len() {
        return Err(RunError::TooLong);
    }
    if out.len() / 5 < count(file) {
        return Err(RunError::NoRoom);
    }
    Ok(play(file, out))
}

// A run's result as the one number that C gets: 65,536 times the run's number plus the answers written. The interface to C has these numbers.
fn code(ended: Result<Outcome, RunError>) -> u64
    ensures { result ≡ code ended }
{
    match ended {
        Ok(Outcome::Complete(n)) => u64::from(n),
        Ok(Outcome::BadStep(n)) => 65536 * 10 + u64::from(n),
        Err(RunError::TooLong) => 65536 * 11,
        Err(RunError::NoRoom) => 65536 * 12,
    }
}

// The same under the name that it has for C, with the numbers of a run that C has. The crate runner_c exports it, since a static library is no library
// for other crates.
pub fn parlour_run(steps: &[u8], answers: &mut [u8]) -> u64
    ensures answers_after { (result, answers.new) ≡ run_on 32 256 steps.now answers.old }
    ensures room_in_bytes { result < 65536 * 11 → all narrow (answers_to 32 256 (steps_of steps.now)) ≡ true }
{
    code(run(steps, answers))
}
