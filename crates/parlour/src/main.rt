// Runs the step file on standard input and prints its answers, one a line.
#![tactic(auto)]

ghost use Rattle.std.specs.Prelude.{◌≡◌, ◌≤◌, length, take};
ghost use Rattle.std.specs.Io.KnownBytes.{Consumes};
ghost use Rattle.io.specs.Counts.{IsPrefixLen};
ghost use Rattle.parlour.specs.Text.{decimal, line, lines_of, shown};

use runner::run;
use std::io::Read;
use steps::four;

// The text is built in a buffer that is lent, in fixed memory, and its length is handed on: the contract of `report` says every byte of it.
// Puts a number's digits at the start of a text, and answers how many they are.
#[tactic(auto, using(crate::proofs::Texts::number_put))]
fn put_number(text: &mut [u8], n: u32) -> usize
    requires { 20 ≤ length text.old }
    ensures at_most { result ≤ 20 }
    ensures text_after { take result text.new ≡ decimal n }
{
    // A buffer of its own: what is written through a part of the text as an array is not told to the proof.
    let mut digits = [0u8; 20];
    let k = io::decimal(u64::from(n), &mut digits);
    text[..k].copy_from_slice(&digits[..k]);
    k
}

fn put_line(text: &mut [u8], number: u32, value: u32) -> usize
    requires { 42 ≤ length text.old }
    ensures at_most { result ≤ 42 }
    ensures text_after { take result text.new ≡ line number value }
{
    let a = put_number(text, number);
    text[a] = b' ';
    let b = a + 1 + put_number(&mut text[a + 1..], value);
    text[b] = b'\n';
    b + 1
}

#[tactic(auto, using(crate::proofs::Texts::list_next, crate::proofs::Texts::list_done))]
fn put_lines(text: &mut [u8], answers: &[u8]) -> usize
    requires { (length answers.now ≤ 40960) × (344064 ≤ length text.old) }
    ensures at_most { result ≤ 344064 }
    ensures text_after { take result text.new ≡ lines_of answers.now }
{
    let mut at = 0;
    for answer in answers.chunks_exact(5) {
        at += put_line(&mut text[at..], u32::from(answer[0]), four(answer, 1));
    }
    at
}

// What is printed for a file.
fn report(file: &[u8], text: &mut [u8]) -> usize
    requires { 344064 ≤ length text.old }
    ensures prefix_len { IsPrefixLen result text.new }
    ensures text_after { take result text.new ≡ shown file.now }
{
    let mut answers = [0u8; 40960];
    // The buffer has room for 8,192 answers, so only a file that is too long is refused. What is printed then has the number 11 in it.
    let Ok(outcome) = run(file, &mut answers) else {
        return put_line(text, 11, 0);
    };
    put_lines(text, &answers[..5 * outcome.answers()])
}

// Fills the buffer from the input, as far as that goes, and answers how many bytes it is: those that the input gave, in their order. A failed read counts
// as the end of the input.
fn read_full<R: Read>(input: &mut R, buf: &mut [u8]) -> usize
    ensures in_bounds { result ≤ length buf.new }
    ensures given { Consumes (R.remaining input.old) (R.remaining input.new) (take result buf.new) }
{
    let mut done = 0;
    // No `for`: a read gives as many bytes as it likes.
    while done < buf.len() {
        match input.read(&mut buf[done..]) {
            Ok(n) if n > 0 => done += n,
            _ => break,
        }
    }
    done
}

fn main(rt: HostRuntime) -> std::io::Result<()> {
    let mut file = [0u8; 8193];
    let n = read_full(&mut rt.reader(), &mut file);
    let mut text = [0u8; 344064];
    let k = report(&file[..n], &mut text);
    rt.write_all(&text[..k])
}
