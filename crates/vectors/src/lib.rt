// What the test programs read and write: words of 16 hexadecimal digits, with one byte after each.

#![tactic(auto)]

ghost use Rattle.std.specs.Prelude.{◌<◌};

use std::io;
use std::io::{Read, Stdin, Stdout};

pub const PRIME: u64 = 4294967291;

// The value of a hexadecimal digit (capital letters); 0 for any other byte.
fn digit(b: u8) -> u64
    ensures { result < 16 }
{
    match b {
        b'0'..=b'9' => u64::from(b - b'0'),
        b'A'..=b'F' => u64::from(b - b'A') + 10,
        _ => 0,
    }
}

// The word that starts at a byte, of the digits that are there.
fn word_from(text: &[u8], at: usize) -> u64 {
    let Some(rest) = text.get(at..) else {
        return 0;
    };
    let mut n: u64 = 0;
    for b in &rest[..rest.len().min(16)] {
        n = n % 0x1000_0000_0000_0000 * 16 + digit(*b);
    }
    n
}

// The k-th word of a text.
pub fn word(text: &[u8], k: usize) -> u64 {
    if text.len() / 17 < k {
        return 0;
    }
    word_from(text, 17 * k)
}

// A word read as a signed number.
pub fn signed(n: u64) -> i64 {
    n.cast_signed()
}

// The word of a signed number.
pub fn unsigned(x: i64) -> u64 {
    x.cast_unsigned()
}

// Reads n words from standard input to the front of a text; false where they do not all come.
pub fn read(mut input: Stdin, text: &mut [u8], n: usize) -> bool {
    let room = text.len() / 17;
    if room < n {
        return false;
    }
    let bytes = 17 * n;
    input.read_exact(&mut text[..bytes]).is_ok()
}

// The head of a line: its operation, and how many words it has. Operation 0 is the end of the input.
#[derive(Drop)]
pub struct Line {
    pub op: u64,
    pub many: usize,
}

// Reads a line, its words to the front of a text; one that does not come whole is the end of the input.
pub fn next(input: Stdin, text: &mut [u8]) -> Line {
    let mut head = [0u8; 34];
    if !read(input, &mut head, 2) {
        return Line { op: 0, many: 0 };
    }
    let many = word(&head, 1) as usize;
    if !read(input, text, many) {
        return Line { op: 0, many: 0 };
    }
    Line {
        op: word(&head, 0),
        many,
    }
}

// Writes a word and a newline.
pub fn print(output: Stdout, n: u64) -> io::Result<()> {
    println!(output; "{n:016x}")
}

// Writes 1 for true, 0 for false.
pub fn print_flag(output: Stdout, b: bool) -> io::Result<()> {
    print(output, u64::from(b))
}

// Writes a refusal: its number in the top byte of a word.
pub fn print_refusal(output: Stdout, n: u64) -> io::Result<()> {
    if n < 256 {
        return print(output, n * 0x100_0000_0000_0000);
    }
    Ok(())
}

// The digest of some words, from that of all but the last: the value of their polynomial at 65,599, modulo
// the greatest prime below 2^32.
pub fn mixed(d: u64, last: u64) -> u64 {
    (d % PRIME * 65599 + last % PRIME) % PRIME
}
