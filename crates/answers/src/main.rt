// Answers the room texts on standard input as the program does. A text ends at a `=`, and the rest of that line says what it is.
// Printed are that line and the answer: all of it, or of a long one the first line, how many bytes it has and a sum of them.
#![tactic(auto)]

ghost use Rattle.std.specs.Prelude.{◌+◌, ◌≡◌, length};

use answer::LINES;
use arrayvec::ArrayVec;
use std::io;
use std::io::{Read, Stdout, Write};

// The bytes of the first line of an answer.
const FIRST: usize = 29;

// The longest answer that is printed whole.
const SHOWN: usize = 100;

// The bytes that are read.
const ALL: usize = 8192;

// Reads all texts, and answers them.
fn main(rt: HostRuntime) -> io::Result<()> {
    let mut texts = ArrayVec::<u8, ALL>::new();
    io::copy(&mut rt.stdin().take(ALL as u64), &mut texts)?;
    answer_all(rt.stdout(), texts.as_slice())
}

// Prints the answer to each text.
fn answer_all(mut out: Stdout, texts: &[u8]) -> io::Result<()> {
    let mut rest = texts;
    while !rest.is_empty() {
        let (text, said) = cut(rest, b'=');
        let (line, after) = cut(said, b'\n');
        out.write_all(line)?;
        out.write_all(b"\n")?;
        print_answer(out, text)?;
        rest = after.get(1..).unwrap_or_default();
    }
    Ok(())
}

// What stands before the first such byte, and what stands from it on.
fn cut(bytes: &[u8], byte: u8) -> (&[u8], &[u8])
    ensures { length result.0.now + length result.1.now ≡ length bytes.now }
{
    let place = bytes.iter().position(|b| *b == byte).unwrap_or(bytes.len());
    bytes.split_at(place)
}

// Prints the answer to a text.
fn print_answer(out: Stdout, text: &[u8]) -> io::Result<()> {
    let mut lines = [0u8; LINES];
    let n = answer::answer_text(text, &mut lines);
    show(out, &lines[..n])
}

// Prints an answer, or what a long one begins with, its length and a sum of it.
fn show(mut out: Stdout, lines: &[u8]) -> io::Result<()> {
    if lines.len() <= SHOWN {
        return out.write_all(lines);
    }
    out.write_all(&lines[0..FIRST])?;
    let length = lines.len();
    let sum = sum_of(lines);
    writeln!(out, "{length}\n{sum}")
}

// A sum of bytes that tells their order.
fn sum_of(bytes: &[u8]) -> u64 {
    bytes
        .iter()
        .fold(0, |sum, b| sum % 65521 * 31 + u64::from(*b))
        % 65521
}
