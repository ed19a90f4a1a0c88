// Decodes a step of each kind, whole and cut, counts the answers of some files, and writes an answer. Prints a line for each.
#![tactic(auto)]

ghost use Rattle.std.specs.Prelude.{◌<◌, length};

use std::io;
use terms::Given;

// The step at the front of a part, and its length.
fn show(rt: &impl Print, part: &[u8]) -> io::Result<()> {
    let Some((step, k)) = steps::decode(part) else {
        return println!(rt; "bad");
    };
    println!(rt; "{step}, {k}")
}

// A part, and the same without its last byte.
fn show_cut(rt: &impl Print, part: &[u8]) -> io::Result<()>
    requires { 0 < length part.now }
{
    show(rt, part)?;
    show(rt, &part[..part.len() - 1])
}

fn show_kinds(rt: &impl Print) -> io::Result<()> {
    show_cut(rt, &[0, 2, 1])?;
    show_cut(rt, &[1])?;
    show_cut(rt, &[2, 1, 0, 1, 1])?;
    show_cut(rt, &[3, 2, 1, 3, 0, 40, 0, 0, 128])?;
    show_cut(rt, &[4, 255, 255])?;
    show_cut(rt, &[5, 0, 2])?;
    show_cut(rt, &[6, 0, 1])?;
    // Unknown kinds, with bytes enough for any body.
    show(rt, &[7, 0, 0, 0, 0, 0, 0, 0, 0])?;
    show(rt, &[255, 0, 0, 0, 0, 0, 0, 0, 0])
}

fn show_count(rt: &impl Print, file: &[u8]) -> io::Result<()> {
    println!(rt; "answers {}", steps::count(file))
}

// P1; two begins and a step that is cut, whose answer is the 10; a file that goes on behind an unknown kind; an empty one.
fn show_counts(rt: &impl Print) -> io::Result<()> {
    show_count(
        rt,
        b"\x00\x02\x00\x01\x01\x02\x01\x00\x00\x00\x02\x02\x00\x01\x00\x03\x01\x00\x01\x00\x28\x00\x00\x00\x03\x02\x00\x00\x00\x32\x00\x00\x00\x04\x01\x00\x04\x02\x00\x06\x01\x00\x06\x00\x00",
    )?;
    show_count(rt, &[1, 1, 6, 0])?;
    show_count(rt, &[1, 7, 1, 1])?;
    show_count(rt, b"")
}

// An answer goes between bytes that stay.
fn show_answer(rt: &impl Print) -> io::Result<()> {
    let mut out = [9u8; 7];
    let answer = Given {
        number: 8,
        value: 16909060,
    };
    steps::put_answer(&mut out, 1, answer);
    print!(rt; "bytes")?;
    for b in &out {
        print!(rt; " {b}")?;
    }
    println!(rt; "")
}

fn main(rt: HostRuntime) -> io::Result<()> {
    show_kinds(&rt)?;
    show_counts(&rt)?;
    show_answer(&rt)
}
