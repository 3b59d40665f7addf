// Reads a room text on standard input and prints the answer.
#![tactic(auto)]

use answer::{INPUT, LINES};
use arrayvec::ArrayVec;
use std::io;
use std::io::{Read, Write};

// Reads the first bytes of the input, in whatever pieces they come, and prints the answer to it. Where a read fails nothing is printed,
// and the program ends with the error.
fn main(rt: HostRuntime) -> io::Result<()> {
    let mut input = ArrayVec::<u8, INPUT>::new();
    io::copy(&mut rt.stdin().take(INPUT as u64), &mut input)?;
    let mut lines = [0u8; LINES];
    let n = answer::answer_input(input.as_slice(), &mut lines);
    rt.stdout().write_all(&lines[..n])
}
