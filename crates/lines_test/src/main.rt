// Reads lines from standard input, in small chunks so that many lines lie across two, and prints how each was read.
// `stdout` is written by oracle/lines.py, which has the grammar as a regular expression.

#![tactic(auto)]

ghost use Rattle.std.specs.Prelude.{ℕ, ◌+◌, ◌≤◌, leb, ◌≡◌, length, take};
ghost use Rattle.panel_lines.specs.Split.{most_held, chunk_held};

use panel_lines::answer::{SHOW_BARE, put_ok, put_refused, put_show};
use panel_lines::line::{LINE_WORDS, Request, read_line};
use panel_lines::split::{MOST_HELD, take_line};
use std::io;
use std::io::{Read, Stdout};
use text::decimals::put_decimal;
use text::hex::put_hex;
use text::signed::put_signed;
use text::word::put_word;

// How many flags are shown, and the bytes of that answer with a number of 20 digits.
const FLAGS: usize = 19;

const SHOWN: usize = SHOW_BARE + 2 * FLAGS + 20;

// Whether k bytes can still be written from a place on.
fn room(out: &[u8], at: usize, k: usize) -> bool
    ensures { result ≡ leb (at + k) (length out.now) }
{
    k <= out.len() && at <= out.len() - k
}

// A space and a decimal.
fn put_number(out: &mut [u8], at: usize, n: u64) -> usize {
    if !room(&*out, at, 21) {
        return at;
    }
    let a = put_word(out, at, b" ");
    put_decimal(out, a, n)
}

// A space and a signed decimal.
fn put_weight(out: &mut [u8], at: usize, w: i64) -> usize {
    if !room(&*out, at, 22) {
        return at;
    }
    let a = put_word(out, at, b" ");
    put_signed(out, a, w)
}

// A space and 16 hexadecimal digits.
fn put_digits(out: &mut [u8], at: usize, n: u64) -> usize {
    if !room(&*out, at, 17) {
        return at;
    }
    let a = put_word(out, at, b" ");
    put_hex(out, a, n)
}

fn put_newline(out: &mut [u8], at: usize) -> usize {
    if !room(&*out, at, 1) {
        return at;
    }
    put_word(out, at, b"\n")
}

// `(ok)` and the four numbers.
fn say_shape(out: &mut [u8], heap: u64, rows: u64, cols: u64, layers: u64) -> usize {
    if !room(&*out, 0, 4) {
        return 0;
    }
    let a = put_ok(out);
    let b = put_number(out, a, heap);
    let c = put_number(out, b, rows);
    let d = put_number(out, c, cols);
    let e = put_number(out, d, layers);
    put_newline(out, e)
}

// An answer to `(show)` with three numbers as the floats' bits, and a fourth whose low bits are the flags
// as its updates.
fn say_show(out: &mut [u8], l1: u64, l2: u64, keys: u64, bits: u64) -> usize {
    let mut flags = [false; FLAGS];
    let mut left = bits;
    for flag in flags.iter_mut() {
        *flag = left % 2 == 1;
        left /= 2;
    }
    if !room(&*out, 0, SHOWN) {
        return 0;
    }
    let n = put_show(out, l1, l2, keys, &flags, bits);
    put_newline(out, n)
}

// The weight, then n words, as far as there are so many.
fn say_add(out: &mut [u8], weight: i64, words: &[u64], n: usize) -> usize {
    let mut at = put_weight(out, 0, weight);
    for word in words.iter().take(n) {
        at = put_digits(out, at, *word);
    }
    put_newline(out, at)
}

fn say_refused(out: &mut [u8]) -> usize {
    if !room(&*out, 0, 30) {
        return 0;
    }
    let n = put_refused(out, 13);
    put_newline(out, n)
}

fn print(output: Stdout, s: &[u8], k: usize) -> io::Result<()> {
    if k <= s.len() {
        return output.write_all(&s[..k]);
    }
    Ok(())
}

// Says how a line was read.
fn describe(output: Stdout, line: &[u8]) -> io::Result<()> {
    let mut out = [0u8; 1100];
    let mut words = [0u64; LINE_WORDS];
    let q = read_line(line, &mut words);
    match q {
        Request::Shape(heap, rows, cols, layers) => {
            let n = say_shape(&mut out, heap, rows, cols, layers);
            print(output, &out, n)?;
            let m = say_show(&mut out, heap, rows, cols, layers);
            print(output, &out, m)
        }
        Request::Add(weight, n) => {
            let k = say_add(&mut out, weight, &words, n);
            print(output, &out, k)
        }
        Request::Show => print(output, b"show\n", 5),
        Request::Unreadable => {
            let n = say_refused(&mut out);
            print(output, &out, n)
        }
    }
}

// Describes the line in the first k bytes.
fn reply(output: Stdout, line: &[u8], k: usize) -> io::Result<()> {
    if k <= line.len() {
        return describe(output, &line[..k]);
    }
    Ok(())
}

// How many bytes of the next line are held, and what the first write that failed answered, after which nothing was written.
#[derive(Drop)]
struct Taken {
    held: usize,
    written: io::Result<()>,
}

// Takes the lines out of a chunk, describes those that end in it, and answers how many bytes of the next are held.
fn take_chunk(output: Stdout, chunk: &[u8], line: &mut [u8], held: usize) -> Taken
    requires held_le_most_held { held ≤ most_held }
    requires most_held_in_bounds { most_held ≤ length line.old }
    ensures upper_bound { (result.held ≤ most_held) × (length line.new ≡ length line.old) }
    ensures line_after { take result.held line.new ≡ chunk_held (take held line.old) chunk.now }
{
    let mut at = 0;
    let mut n = held;
    let mut written = Ok(());
    while at < chunk.len() {
        let s = take_line(chunk, at, line, n);
        let k = s.held;
        if s.ended {
            if written.is_ok() {
                written = reply(output, &*line, k);
            }
            n = 0;
        } else {
            n = k;
        }
        at = s.next;
    }
    Taken { held: n, written }
}

fn main(rt: HostRuntime) -> io::Result<()> {
    let mut input = rt.stdin();
    let output = rt.stdout();
    let mut line = [0u8; MOST_HELD];
    let mut chunk = [0u8; 97];
    let mut held = 0;
    for _ in 0..u64::MAX {
        let n = input.read(&mut chunk)?;
        if n == 0 {
            break;
        }
        let t = take_chunk(output, &chunk[..n], &mut line, held);
        t.written?;
        held = t.held;
    }
    if held > 0 {
        reply(output, &line, held)?;
    }
    Ok(())
}
