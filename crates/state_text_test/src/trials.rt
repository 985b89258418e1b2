// One text: read into slices that held something else, and written again.
ghost use Rattle.std.specs.Prelude.{◌≤◌};

use crate::digest::{repeated, whole};
use header::{Header, Shape, Totals};
use refusal::{Refusal, number_in};
use state_reader::read_state;
use state_text::write_state;
use std::io;
use std::io::Stdout;

// The greatest state and the longest text that are tried.
const CELLS: usize = 4096;

const SEATS: usize = 1024;

const NORM_WORDS: usize = 2 * Shape::MAX_LAYERS * Shape::MAX_ROWS;

const ENTRY_WORDS: usize = 4 * SEATS;

pub const LONGEST: usize = 24576;

// What the slices and the space hold before.
const WAS: i64 = 1234567890123456789;

const MARK: u8 = b'#';

// A length, but at most `most`.
pub fn least(n: u64, most: usize) -> usize
    ensures { result ≤ most }
{
    most.min(n as usize)
}

// What has to stand at place i of a space that has the first n bytes of a text.
fn due(text: &[u8], n: usize, i: usize) -> u8 {
    if n <= i || text.len() <= i {
        return MARK;
    }
    text[i]
}

// Whether the space has the first n bytes of the text, and is as it was behind them.
fn holds(out: &[u8], text: &[u8], n: usize) -> bool {
    out.iter().enumerate().all(|(i, b)| *b == due(text, n, i))
}

// What the writer answered, and whether the space then holds just so many bytes of the text.
#[derive(Drop)]
struct Answer {
    refusal: u64,
    bytes: usize,
    held: bool,
}

// Writes a state into the first n bytes of the space.
fn write_in(
    h: Header,
    counters: &[i64],
    norms: &[u64],
    entries: &[u64],
    counts: &[i64],
    text: &[u8],
    n: usize,
) -> Answer {
    let m = least(n as u64, LONGEST);
    let mut out = [MARK; LONGEST];
    let w = write_state(h, counters, norms, entries, counts, &mut out[..m]);
    let bytes = w.unwrap_or(0);
    Answer {
        refusal: number_in(&w),
        bytes,
        held: holds(&out, text, bytes),
    }
}

fn say(output: Stdout, a: Answer) -> io::Result<()> {
    let refusal = a.refusal;
    let bytes = a.bytes;
    let held = u64::from(a.held);
    print!(output; " {refusal} {bytes} {held}")
}

// Says a digest of the state, and what the writer answers for one byte less than the text has, for just as many and for
// all that there is; then, with a weight that no state has, for one less again, where two refusals apply.
fn say_accepted(
    output: Stdout,
    digest: u64,
    h: Header,
    counters: &[i64],
    norms: &[u64],
    entries: &[u64],
    counts: &[i64],
    text: &[u8],
) -> io::Result<()> {
    print!(output; "0 {digest}")?;
    let n = text.len();
    let less = least((n as u64).wrapping_sub(1), n);
    say(
        output,
        write_in(h, counters, norms, entries, counts, text, less),
    )?;
    say(
        output,
        write_in(h, counters, norms, entries, counts, text, n),
    )?;
    say(
        output,
        write_in(h, counters, norms, entries, counts, text, usize::MAX),
    )?;
    let bad = h.with_totals(Totals {
        weight: u64::MAX,
        updates: 0,
    });
    say(
        output,
        write_in(bad, counters, norms, entries, counts, text, less),
    )?;
    output.write_all(b"\n")
}

// An accepted text: 1 where the state is written to the same bytes, else 2.
fn accepted(
    h: Header,
    counters: &[i64],
    norms: &[u64],
    entries: &[u64],
    counts: &[i64],
    text: &[u8],
) -> u64 {
    let n = text.len();
    let a = write_in(h, counters, norms, entries, counts, text, n);
    if a.refusal == 0 && a.bytes == n && a.held {
        1
    } else {
        2
    }
}

// A refused text: 0 where the slices are as they were, else 2.
fn refused(output: Stdout, n: u64, kept: bool, aloud: bool) -> io::Result<u64> {
    if aloud {
        let bit = u64::from(kept);
        println!(output; "{n} {bit}")?;
    }
    if kept {
        return Ok(0);
    }
    Ok(2)
}

// What was read, with the slices that it was read into; before, their digest with a header of zeros was `was`.
fn judge(
    output: Stdout,
    r: Result<Header, Refusal>,
    counters: &[i64],
    norms: &[u64],
    entries: &[u64],
    counts: &[i64],
    text: &[u8],
    was: u64,
    aloud: bool,
) -> io::Result<u64> {
    let h = r.unwrap_or(Header::zero());
    let is = whole(h, counters, norms, entries, counts);
    if let Err(refusal) = r {
        return refused(output, refusal.number(), is == was, aloud);
    }
    if aloud {
        say_accepted(output, is, h, counters, norms, entries, counts, text)?;
    }
    Ok(accepted(h, counters, norms, entries, counts, text))
}

fn try_lent(
    output: Stdout,
    text: &[u8],
    counters: &mut [i64],
    norms: &mut [u64],
    entries: &mut [u64],
    counts: &mut [i64],
    was: u64,
    aloud: bool,
) -> io::Result<u64> {
    let r = read_state(text, counters, norms, entries, counts);
    judge(
        output, r, &*counters, &*norms, &*entries, &*counts, text, was, aloud,
    )
}

// Reads a text into slices whose lengths are the word's four parts. 0 for one that is refused, 1 for one that is written
// to the same bytes, 2 for any other. Aloud: a line that says the refusal and whether everything is as it was, or 0, a
// digest of the state, and for each writing the refusal, the number of bytes and whether they are the text's.
pub fn try_text(output: Stdout, lens: u64, text: &[u8], aloud: bool) -> io::Result<u64> {
    let c = least(lens / 0x1_0000_0000_0000, CELLS);
    let w = least(lens / 0x1_0000_0000 % 0x1_0000, NORM_WORDS);
    let e = least(lens / 0x1_0000 % 0x1_0000, ENTRY_WORDS);
    let k = least(lens % 0x1_0000, SEATS);
    let mut counters = [WAS; CELLS];
    let mut norms = [WAS as u64; NORM_WORDS];
    let mut entries = [WAS as u64; ENTRY_WORDS];
    let mut counts = [WAS; SEATS];
    try_lent(
        output,
        text,
        &mut counters[..c],
        &mut norms[..w],
        &mut entries[..e],
        &mut counts[..k],
        repeated(WAS as u64, c + w + e + k),
        aloud,
    )
}
