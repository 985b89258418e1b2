// Reads cases from standard input and says what becomes of each: `stdout` is written by oracle/state_text.py, which
// has the grammar as regular expressions. A case is two words and a text: the lengths of the four slices, 16 bits each,
// and the number of its bytes. The first text, a short one, is also broken in every way.

#![tactic(auto)]

mod breaks;
mod digest;
mod trials;

use crate::breaks::break_text;
use crate::trials::{LONGEST, least, try_text};
use std::io;
use std::io::{Read, Stdin, Stdout};

const HEAD_BYTES: usize = 2 * 17;

// Reads a case, if there is one, its text to the front of `text`: the lengths of the slices as one word, and the number
// of bytes of the text.
fn next(mut input: Stdin, text: &mut [u8]) -> Option<(u64, usize)> {
    let mut head = [0u8; HEAD_BYTES];
    if !vectors::read(input, &mut head, 2) {
        return None;
    }
    let n = least(vectors::word(&head, 1), text.len());
    if input.read_exact(&mut text[..n]).is_err() {
        return None;
    }
    Some((vectors::word(&head, 0), n))
}

// Tries the first n bytes, aloud, and breaks them if they are the first text.
fn turn(output: Stdout, lens: u64, text: &[u8], n: usize, first: bool) -> io::Result<()> {
    if text.len() < n {
        return Ok(());
    }
    try_text(output, lens, &text[..n], true)?;
    if first {
        break_text(output, lens, &text[..n])?;
    }
    Ok(())
}

fn run(input: Stdin, output: Stdout, text: &mut [u8]) -> io::Result<()> {
    let mut first = true;
    for _ in 0..1000000 {
        let Some((lens, n)) = next(input, text) else {
            return Ok(());
        };
        turn(output, lens, &*text, n, first)?;
        first = false;
    }
    Ok(())
}

fn main(rt: HostRuntime) -> io::Result<()> {
    let mut text = [0u8; LONGEST];
    run(rt.stdin(), rt.stdout(), &mut text)
}
