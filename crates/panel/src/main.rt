// The program `panel`: reads lines from standard input and answers each with one.

#![tactic(auto)]

ghost use Rattle.std.specs.Prelude.{◌≡◌, ℕ, min, ◌+◌, ◌≤◌, length, take};
ghost use Rattle.layout.specs.Lending.{lent_in, lent_out};
ghost use Rattle.panel_lines.specs.Split.{most_held, chunk_lines, chunk_held};
ghost use Rattle.panel_step.specs.Panel.{longest, answer_line, answers_of, found, put, behind};

use header::{Header, Shape};
use panel_lines::split::{MOST_HELD, take_line};
use panel_step::{LONGEST, LineAnswered, MAX_CANDIDATES, MAX_COUNTERS, answer_line};
use std::io;
use std::io::{Read, Stdin, Stdout};

// The bytes that are read at once, and the most that are written at once. Larger ones save no time, and all that the program holds
// is on the stack: these two, the slices of `main` and the working space of a sum, 167 KB in all.
const CHUNK: usize = 16384;

const ANSWERS: usize = 16384;

// What is known after a part of a chunk: the header, the bytes held of the line that goes on, the bytes of the answers, and how
// much of the chunk was taken.
#[derive(Drop)]
struct ChunkAnswered {
    header: Header,
    held: usize,
    len: usize,
    next: usize,
}

// What goes on from one chunk to the next, and what the first write that failed answered, after which nothing was written.
#[derive(Drop)]
struct Going {
    header: Header,
    held: usize,
    written: io::Result<()>,
}

// Answers the line in the first k bytes of `line`, from place `at` of `out` on, behind earlier answers.
fn reply(
    line: &[u8],
    k: usize,
    header: Header,
    counters: &mut [i64],
    norms: &mut [u64],
    entries: &mut [u64],
    counts: &mut [i64],
    out: &mut [u8],
    at: usize,
) -> LineAnswered
    requires k_in_bounds { k ≤ length line.now }
    requires longest_in_bounds { at + longest ≤ length out.old }
    ensures out_after { found (lent_out result.header counters norms entries counts) result.len out.new
        ≡ behind at (answer_line (lent_in header counters norms entries counts) (take k line.now)) out.old }
    ensures len_bound { result.len ≤ at + longest }
{
    let t = answer_line(
        &line[..k],
        header,
        counters,
        norms,
        entries,
        counts,
        &mut out[at..],
    );
    LineAnswered {
        header: t.header,
        len: at + t.len,
    }
}

// Answers the lines that end in a chunk, from the start of `out` on, and stops where the longest answer has no more room there; so it may
// take only a part of the chunk. What `line` has past the held bytes is left open.
fn take_chunk(
    chunk: &[u8],
    line: &mut [u8],
    held: usize,
    header: Header,
    counters: &mut [i64],
    norms: &mut [u64],
    entries: &mut [u64],
    counts: &mut [i64],
    out: &mut [u8],
) -> ChunkAnswered
    requires held_le_most_held { held ≤ most_held }
    requires most_held_in_bounds { most_held ≤ length line.old }
    requires longest_in_bounds { longest ≤ length out.old }
    ensures out_after { found (lent_out result.header counters norms entries counts) result.len out.new
        ≡ put (answers_of (lent_in header counters norms entries counts) (chunk_lines (take held line.old) (take result.next chunk.now))) out.old }
    ensures line_after { take result.held line.new ≡ chunk_held (take held line.old) (take result.next chunk.now) }
    ensures held_le_most_held_2 { (result.held ≤ most_held) × (result.len ≤ length out.old) }
    ensures chunk_bound { (min 1 (length chunk.now) ≤ result.next) × (result.next ≤ length chunk.now) }
{
    let mut at = 0;
    let mut end = chunk.len();
    let mut n = held;
    let mut len = 0;
    let mut head = header;
    // The place goes on by lines, not by one.
    while at < end {
        let s = take_line(chunk, at, line, n);
        let k = s.held;
        at = s.next;
        if s.ended {
            let t = reply(&*line, k, head, counters, norms, entries, counts, out, len);
            head = t.header;
            len = t.len;
            n = 0;
            if out.len() - len < LONGEST {
                end = at;
            }
        } else {
            n = k;
        }
    }
    ChunkAnswered {
        header: head,
        held: n,
        len,
        next: at,
    }
}

fn print(output: Stdout, s: &[u8], k: usize) -> io::Result<()>
    requires { k ≤ length s.now }
{
    output.write_all(&s[..k])
}

// Answers the lines that end in a chunk, part by part, and writes each part's answers before it goes on.
fn take_all(
    output: Stdout,
    chunk: &[u8],
    line: &mut [u8],
    held: usize,
    header: Header,
    counters: &mut [i64],
    norms: &mut [u64],
    entries: &mut [u64],
    counts: &mut [i64],
    out: &mut [u8],
) -> Going
    requires held_le_most_held { held ≤ most_held }
    requires most_held_in_bounds { most_held ≤ length line.old }
    requires longest_in_bounds { longest ≤ length out.old }
    ensures counts_value { lent_out result.header counters norms entries counts
        ≡ (answers_of (lent_in header counters norms entries counts) (chunk_lines (take held line.old) chunk.now)).lends }
    ensures line_after { take result.held line.new ≡ chunk_held (take held line.old) chunk.now }
    ensures held_le_most_held_2 { result.held ≤ most_held }
{
    let mut from = 0;
    let mut n = held;
    let mut head = header;
    let mut written = Ok(());
    // The start goes on by parts, not by one.
    while from < chunk.len() {
        let t = take_chunk(
            &chunk[from..],
            line,
            n,
            head,
            counters,
            norms,
            entries,
            counts,
            out,
        );
        if written.is_ok() {
            written = print(output, &*out, t.len);
        }
        head = t.header;
        n = t.held;
        from += t.next;
    }
    Going {
        header: head,
        held: n,
        written,
    }
}

// Reads the input, chunk by chunk, and answers each chunk's lines before it reads the next.
fn run(
    mut input: Stdin,
    output: Stdout,
    chunk: &mut [u8],
    line: &mut [u8],
    counters: &mut [i64],
    norms: &mut [u64],
    entries: &mut [u64],
    counts: &mut [i64],
    out: &mut [u8],
) -> io::Result<()>
    requires most_held_in_bounds { most_held ≤ length line.old }
    requires longest_in_bounds { longest ≤ length out.old }
{
    let mut header = Header::zero();
    let mut held = 0;
    for _ in 0..u64::MAX {
        let n = input.read(chunk)?;
        if n == 0 {
            break;
        }
        let t = take_all(
            output,
            &chunk[..n],
            line,
            held,
            header,
            counters,
            norms,
            entries,
            counts,
            out,
        );
        t.written?;
        header = t.header;
        held = t.held;
    }
    if held > 0 {
        let t = reply(
            &*line, held, header, counters, norms, entries, counts, out, 0,
        );
        print(output, &*out, t.len)?;
    }
    Ok(())
}

// The slices have room for every shape that is accepted: counters and candidates as many as the panel takes, norms of every row of
// every layer.
fn main(rt: HostRuntime) -> io::Result<()> {
    let mut chunk = [0u8; CHUNK];
    let mut line = [0u8; MOST_HELD];
    let mut counters = [0i64; MAX_COUNTERS];
    let mut norms = [0u64; 2 * Shape::MAX_LAYERS * Shape::MAX_ROWS];
    let mut entries = [0u64; 4 * MAX_CANDIDATES];
    let mut counts = [0i64; MAX_CANDIDATES];
    let mut out = [0u8; ANSWERS];
    run(
        rt.stdin(),
        rt.stdout(),
        &mut chunk,
        &mut line,
        &mut counters,
        &mut norms,
        &mut entries,
        &mut counts,
        &mut out,
    )
}
