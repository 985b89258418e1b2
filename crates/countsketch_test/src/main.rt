// Runs stored calls on one layer's Count Sketch and prints what they answer: `stdout` holds the
// oracle's answers. A line of `stdin` is an operation, the number of its words, and the words.

#![tactic(auto)]

ghost use Rattle.std.specs.Prelude.{◌≡◌, true, ◌*◌, ◌≤◌};
ghost use Rattle.matrix_storage.specs.inner.Shaped.{Shaped};

use std::io;
use std::io::{Stdin, Stdout};

// The greatest layer that is run: 9 rows of 4,096.
const CELLS: usize = 36864;

const NORM_WORDS: usize = 2 * matrix_storage::MAX_ROWS;

// Whether slices of these lengths hold a layer of these rows and columns.
fn held(rows: usize, cols: usize, cells: usize, words: usize) -> bool
    ensures { result ≡ true → Shaped rows cols × ((rows * cols ≤ cells) × (2 * rows ≤ words)) }
{
    matrix_storage::check_hash_bits(rows, cols).is_ok() && rows * cols <= cells && 2 * rows <= words
}

// 4: the estimate of a hash's count, as a float and cut.
fn estimate(
    output: Stdout,
    counters: &[i64],
    rows: usize,
    cols: usize,
    high: u64,
    low: u64,
) -> io::Result<()> {
    if !held(rows, cols, counters.len(), NORM_WORDS) {
        return Ok(());
    }
    if !countsketch_l2_norm::cells_in(counters, rows, cols, high, low) {
        return vectors::print_refusal(output, 9);
    }
    let x = countsketch_l2_norm::estimate_with_hash(counters, rows, cols, high, low);
    vectors::print(output, float64::to_bits(x))?;
    let n = countsketch_l2_norm::count_with_hash(counters, rows, cols, high, low);
    vectors::print(output, vectors::unsigned(n))
}

// 2: an update, and the estimate after it. `rows_ready` judges in one pass whether what is read is in range
// and whether the update fits; only where it says no are the two asked one by one, for the refusal.
fn add(
    output: Stdout,
    counters: &mut [i64],
    norms: &mut [u64],
    rows: usize,
    cols: usize,
    high: u64,
    low: u64,
    weight: u64,
) -> io::Result<()> {
    if !held(rows, cols, counters.len(), norms.len()) {
        return Ok(());
    }
    if words::MAX_WEIGHT < weight {
        return vectors::print_refusal(output, 7);
    }
    if countsketch_l2_norm::rows_ready(&*counters, &*norms, rows, cols, high, low, weight) {
        countsketch_l2_norm::update_weighted_with_hash(
            counters, norms, rows, cols, high, low, weight,
        );
        return estimate(output, &*counters, rows, cols, high, low);
    }
    if !countsketch_l2_norm::rows_read(&*counters, &*norms, rows, cols, high, low) {
        return vectors::print_refusal(output, 9);
    }
    if !countsketch_l2_norm::rows_fit(&*counters, rows, cols, high, low, weight) {
        return vectors::print_refusal(output, 11);
    }
    Ok(())
}

// 3: a delta.
fn delta(
    output: Stdout,
    counters: &mut [i64],
    norms: &mut [u64],
    rows: usize,
    cols: usize,
    row: usize,
    col: usize,
    count: i64,
) -> io::Result<()> {
    if !held(rows, cols, counters.len(), norms.len()) {
        return Ok(());
    }
    if rows <= row || cols <= col {
        return vectors::print_refusal(output, 8);
    }
    if !countsketch_l2_norm::cell_read(&*counters, &*norms, rows, cols, row, col) {
        return vectors::print_refusal(output, 9);
    }
    if !countsketch_l2_norm::cell_fits(&*counters, rows, cols, row, col, count) {
        return vectors::print_refusal(output, 11);
    }
    countsketch_l2_norm::apply_delta(counters, norms, rows, cols, row, col, count);
    Ok(())
}

// 5: L2 squared and L2.
fn l2(output: Stdout, norms: &[u64], rows: usize, cols: usize) -> io::Result<()> {
    if !held(rows, cols, CELLS, norms.len()) {
        return Ok(());
    }
    if !countsketch_l2_norm::norms_in(norms, rows, cols) {
        return vectors::print_refusal(output, 9);
    }
    vectors::print(
        output,
        float64::to_bits(countsketch_l2_norm::l2_squared(norms, rows)),
    )?;
    vectors::print(
        output,
        float64::to_bits(countsketch_l2_norm::l2(norms, rows)),
    )
}

// A digest of the first n counters.
fn digest(counters: &[i64], n: usize) -> u64 {
    counters
        .iter()
        .take(n)
        .fold(0, |d, x| vectors::mixed(d, vectors::unsigned(*x)))
}

// 6: the state: a digest of the counters, and each row's norm, low word and high word.
fn state(
    output: Stdout,
    counters: &[i64],
    norms: &[u64],
    rows: usize,
    cols: usize,
) -> io::Result<()> {
    if !held(rows, cols, counters.len(), norms.len()) {
        return Ok(());
    }
    let n = rows * cols;
    vectors::print(output, digest(counters, n))?;
    for word in &norms[..2 * rows] {
        vectors::print(output, *word)?;
    }
    Ok(())
}

// 7: the counters are set aside, to be merged later.
fn keep(op: u64, counters: &[i64], other: &mut [i64]) {
    if op != 7 {
        return;
    }
    let n = other.len().min(counters.len());
    other[..n].copy_from_slice(&counters[..n]);
}

// 8: the counters that were set aside are merged in.
fn merge(
    output: Stdout,
    counters: &mut [i64],
    norms: &mut [u64],
    other: &[i64],
    rows: usize,
    cols: usize,
) -> io::Result<()> {
    if !held(rows, cols, counters.len(), norms.len()) {
        return Ok(());
    }
    if counters.len() != other.len() {
        return Ok(());
    }
    if !countsketch_l2_norm::all_in(&*counters) || !countsketch_l2_norm::all_in(other) {
        return vectors::print_refusal(output, 9);
    }
    if !countsketch_l2_norm::sums_fit(&*counters, other) {
        return vectors::print_refusal(output, 11);
    }
    countsketch_l2_norm::merge(counters, norms, other, rows, cols);
    Ok(())
}

// 9 and 10: a counter or a word of the norms is set, to meet the refusals of what is read.
fn set_cell(counters: &mut [i64], i: usize, x: i64) {
    if let Some(cell) = counters.get_mut(i) {
        *cell = x;
    }
}

fn set_word(norms: &mut [u64], i: usize, x: u64) {
    if let Some(word) = norms.get_mut(i) {
        *word = x;
    }
}

// An operation and its words; operation 0 is the end of the input.
#[derive(Clone, Copy)]
struct Call {
    op: u64,
    a: u64,
    b: u64,
    c: u64,
}

fn next(input: Stdin) -> Call {
    let mut text = [0u8; 51];
    let line = vectors::next(input, &mut text);
    Call {
        op: line.op,
        a: vectors::word(&text, 0),
        b: vectors::word(&text, 1),
        c: vectors::word(&text, 2),
    }
}

// The operations that change nothing.
fn ask(
    output: Stdout,
    call: Call,
    counters: &[i64],
    norms: &[u64],
    rows: usize,
    cols: usize,
) -> io::Result<()> {
    match call.op {
        4 => estimate(output, counters, rows, cols, call.a, call.b),
        5 => l2(output, norms, rows, cols),
        6 => state(output, counters, norms, rows, cols),
        _ => Ok(()),
    }
}

// The operations that set counters and norms by hand. 1: a fresh layer.
fn set(call: Call, counters: &mut [i64], norms: &mut [u64]) {
    match call.op {
        1 => {
            counters.fill(0);
            norms.fill(0);
        }
        9 => set_cell(counters, call.a as usize, vectors::signed(call.b)),
        10 => set_word(norms, call.a as usize, call.b),
        _ => {}
    }
}

// The operations that call the library to change the layer.
fn change(
    output: Stdout,
    call: Call,
    counters: &mut [i64],
    norms: &mut [u64],
    other: &[i64],
    rows: usize,
    cols: usize,
) -> io::Result<()> {
    match call.op {
        2 => add(output, counters, norms, rows, cols, call.a, call.b, call.c),
        3 => delta(
            output,
            counters,
            norms,
            rows,
            cols,
            call.a as usize,
            call.b as usize,
            vectors::signed(call.c),
        ),
        8 => merge(output, counters, norms, other, rows, cols),
        _ => Ok(()),
    }
}

fn serve(
    input: Stdin,
    output: Stdout,
    counters: &mut [i64],
    norms: &mut [u64],
    other: &mut [i64],
) -> io::Result<()> {
    let mut rows = 0;
    let mut cols = 0;
    for _ in 0..1000000 {
        let call = next(input);
        let op = call.op;
        if op == 0 {
            return Ok(());
        }
        if op == 1 {
            rows = call.a as usize;
            cols = call.b as usize;
        }
        keep(op, &*counters, other);
        ask(output, call, &*counters, &*norms, rows, cols)?;
        set(call, counters, norms);
        change(output, call, counters, norms, &*other, rows, cols)?;
    }
    Ok(())
}

fn main(rt: HostRuntime) -> io::Result<()> {
    let mut counters = [0i64; CELLS];
    let mut norms = [0u64; NORM_WORDS];
    let mut other = [0i64; CELLS];
    serve(
        rt.stdin(),
        rt.stdout(),
        &mut counters,
        &mut norms,
        &mut other,
    )
}
