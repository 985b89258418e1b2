// One text broken in every way: each byte changed to every other, each shorter text, each byte left out, each byte
// doubled. What is still accepted has to be written to the same bytes.
ghost use Rattle.std.specs.Prelude.{◌<◌, length};

use crate::trials::{LONGEST, try_text};
use std::io;
use std::io::Stdout;

// How often each came out.
#[derive(Drop)]
struct Sums {
    refused: u64,
    same: u64,
    other: u64,
}

impl Sums {
    fn none() -> Self {
        Sums {
            refused: 0,
            same: 0,
            other: 0,
        }
    }

    fn with(mut self, n: u64) -> Self {
        match n {
            0 => self.refused = self.refused.wrapping_add(1),
            1 => self.same = self.same.wrapping_add(1),
            _ => self.other = self.other.wrapping_add(1),
        }
        self
    }
}

// The ways to break a text at place k: another byte there, all from there on cut off, its byte left out, its byte doubled.
#[derive(Clone, Copy)]
enum Way {
    Changed(u8),
    Cut,
    LeftOut,
    Doubled,
}

// Byte i of a text that is broken so.
fn byte_of(text: &[u8], way: Way, k: usize, i: usize) -> u8 {
    if text.len() < i {
        return 0;
    }
    let j = match way {
        Way::Changed(b) => {
            if i == k {
                return b;
            }
            i
        }
        Way::Cut => i,
        Way::LeftOut => { if i < k { i } else { i + 1 } }
        Way::Doubled => { if i <= k { i } else { i - 1 } }
    };
    if text.len() <= j {
        return 0;
    }
    text[j]
}

// How many bytes it has.
fn bytes_of(text: &[u8], way: Way, k: usize) -> usize
    requires { k < length text.now }
{
    match way {
        Way::Changed(_) => text.len(),
        Way::Cut => k,
        Way::LeftOut => text.len() - 1,
        Way::Doubled => text.len() + 1,
    }
}

// Breaks a text into a space of its own, and tries it.
fn try_broken(output: Stdout, lens: u64, text: &[u8], way: Way, k: usize) -> io::Result<u64>
    requires { k < length text.now }
{
    let n = bytes_of(text, way, k);
    if LONGEST < n {
        return Ok(2);
    }
    let mut broken = [0u8; LONGEST];
    for (i, b) in broken[..n].iter_mut().enumerate() {
        *b = byte_of(text, way, k, i);
    }
    try_text(output, lens, &broken[..n], false)
}

// At every place, with what came out before.
fn break_places(
    output: Stdout,
    lens: u64,
    text: &[u8],
    way: Way,
    before: Sums,
) -> io::Result<Sums> {
    let mut all = before;
    for k in 0..text.len() {
        all = all.with(try_broken(output, lens, text, way, k)?);
    }
    Ok(all)
}

// Every byte at every place.
fn change_places(output: Stdout, lens: u64, text: &[u8]) -> io::Result<Sums> {
    let mut all = Sums::none();
    for b in 0..256u64 {
        all = break_places(output, lens, text, Way::Changed(b as u8), all)?;
    }
    Ok(all)
}

fn print_sums(output: Stdout, s: Sums) -> io::Result<()> {
    let Sums {
        refused,
        same,
        other,
    } = s;
    println!(output; "{refused} refused, {same} written to the same bytes, {other} to others")
}

pub fn break_text(output: Stdout, lens: u64, text: &[u8]) -> io::Result<()> {
    print_sums(output, change_places(output, lens, text)?)?;
    print_sums(
        output,
        break_places(output, lens, text, Way::Cut, Sums::none())?,
    )?;
    print_sums(
        output,
        break_places(output, lens, text, Way::LeftOut, Sums::none())?,
    )?;
    print_sums(
        output,
        break_places(output, lens, text, Way::Doubled, Sums::none())?,
    )
}
