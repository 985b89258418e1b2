// Runs stored offers through one layer's candidates and prints what they answer and leave: `stdout`
// holds the oracle's answers. A line of `stdin` is an operation, the number of its words, and the words.

#![tactic(auto)]

use heap::Answer;
use heap_moves::Item;
use std::io;
use std::io::{Stdin, Stdout};

// A heap of at most 16 places: how many it has, and how many are used.
#[derive(Clone, Copy)]
struct Lone {
    size: usize,
    len: usize,
}

// Which of four things an offer did, and the displaced key.
fn print_answer(output: Stdout, a: Answer) -> io::Result<()> {
    let [code, key] = <[u64; 2]>::from(a);
    print_two(output, code, key)
}

fn print_two(output: Stdout, a: u64, b: u64) -> io::Result<()> {
    vectors::print(output, a)?;
    vectors::print(output, b)
}

// 1: a new heap.
fn new(entries: &mut [u64; 64], counts: &mut [i64; 16], size: usize) -> Lone {
    *entries = [0u64; 64];
    *counts = [0i64; 16];
    Lone { size, len: 0 }
}

// The whole slices are the heap: `size` counts, and four words for each.
fn offer_all(entries: &mut [u64], counts: &mut [i64], len: usize, w: Item, v: i64) -> Answer {
    let size = counts.len();
    if size == 0 || 16 < size || entries.len() != 4 * size || size < len {
        return Answer::TurnedAway;
    }
    heap::offer(entries, counts, size, len, w, v)
}

// 2: an offer.
fn offer(
    output: Stdout,
    entries: &mut [u64],
    counts: &mut [i64],
    h: Lone,
    w: Item,
    v: i64,
) -> io::Result<Lone> {
    let size = h.size;
    let len = h.len;
    if 16 < size || 16 < len || entries.len() < 64 || counts.len() < 16 {
        return Ok(h);
    }
    let words = 4 * size;
    let a = offer_all(&mut entries[..words], &mut counts[..size], len, w, v);
    let after = heap::len_after(len, a);
    report(output, a, after, entries[0], counts[0])?;
    Ok(Lone { len: after, ..h })
}

// What an offer answered, the length, and the root.
fn report(output: Stdout, a: Answer, len: usize, key: u64, count: i64) -> io::Result<()> {
    vectors::print_flag(output, heap::kept(a))?;
    print_answer(output, a)?;
    vectors::print(output, len as u64)?;
    print_two(output, key, vectors::unsigned(count))
}

// 3: find.
fn find(output: Stdout, entries: &[u64; 64], h: Lone, key: u64) -> io::Result<()> {
    let len = h.len;
    if len <= 16 {
        vectors::print(output, heap::find(entries, len, key).unwrap_or(len) as u64)?;
    }
    Ok(())
}

// 4: the whole state.
fn show(output: Stdout, entries: &[u64; 64], counts: &[i64; 16], h: Lone) -> io::Result<()> {
    let len = h.len;
    vectors::print(output, len as u64)?;
    if 16 < len {
        return Ok(());
    }
    for i in 0..len {
        let w = heap_moves::item_at(entries, i);
        show_entry(output, w, counts[i])?;
    }
    Ok(())
}

fn show_entry(output: Stdout, w: Item, n: i64) -> io::Result<()> {
    vectors::print(output, w.key)?;
    vectors::print(output, w.bottom)?;
    vectors::print(output, w.high)?;
    vectors::print(output, w.low)?;
    vectors::print(output, vectors::unsigned(n))
}

// 5: whether every count is in range.
fn in_range(output: Stdout, counts: &[i64; 16], h: Lone) -> io::Result<()> {
    let len = h.len;
    if len <= 16 {
        vectors::print_flag(output, heap::counts_in_range(counts, len))?;
    }
    Ok(())
}

fn run(
    output: Stdout,
    entries: &mut [u64; 64],
    counts: &mut [i64; 16],
    h: Lone,
    op: u64,
    text: &[u8],
) -> io::Result<Lone> {
    let a = vectors::word(text, 0);
    match op {
        1 => return Ok(new(entries, counts, a as usize)),
        2 => {
            let v = vectors::signed(vectors::word(text, 1));
            let w = Item {
                key: a,
                bottom: vectors::word(text, 2),
                high: vectors::word(text, 3),
                low: vectors::word(text, 4),
            };
            return offer(output, entries, counts, h, w, v);
        }
        3 => find(output, entries, h, a)?,
        4 => show(output, entries, counts, h)?,
        5 => in_range(output, counts, h)?,
        _ => {}
    }
    Ok(h)
}

// One line; `None` at the end of the input.
fn step(
    input: Stdin,
    output: Stdout,
    entries: &mut [u64; 64],
    counts: &mut [i64; 16],
    h: Lone,
) -> io::Result<Option<Lone>> {
    let mut text = [0u8; 85];
    let line = vectors::next(input, &mut text);
    if line.op == 0 {
        return Ok(None);
    }
    Ok(Some(run(output, entries, counts, h, line.op, &text)?))
}

fn main(rt: HostRuntime) -> io::Result<()> {
    let input = rt.stdin();
    let output = rt.stdout();
    let mut entries = [0u64; 64];
    let mut counts = [0i64; 16];
    let mut h = Lone { size: 0, len: 0 };
    for _ in 0..1000000u64 {
        let Some(next) = step(input, output, &mut entries, &mut counts, h)? else {
            return Ok(());
        };
        h = next;
    }
    Ok(())
}
