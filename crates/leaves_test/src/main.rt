// Runs stored inputs through the leaves and prints what they answer: `stdout` holds the oracle's
// answers. A line of `stdin` is an operation, the number of its words, and the words.

#![tactic(auto)]

ghost use Rattle.std.specs.Prelude.{◌≡◌, true, ◌≤◌, length, take};
ghost use Rattle.words.specs.Num.{all_in};
ghost use Rattle.matrix_storage.specs.Bits.{max_rows};

use matrix_storage::MAX_ROWS;
use std::io;
use std::io::{Stdin, Stdout};

// 1: the mask bits of a number of columns.
fn mask_bits(output: Stdout, cols: usize) -> io::Result<()> {
    match matrix_storage::cols_mask_bits(cols) {
        Ok(bits) => vectors::print(output, bits as u64),
        Err(refusal) => vectors::print_refusal(output, refusal.number()),
    }
}

// 2: the column and the sign of a row.
fn cell(
    output: Stdout,
    high: u64,
    low: u64,
    row: usize,
    rows: usize,
    cols: usize,
) -> io::Result<()> {
    match matrix_storage::cell_for_row(high, low, row, rows, cols) {
        Ok(cell) => {
            vectors::print(output, cell.column as u64)?;
            vectors::print(output, vectors::unsigned(cell.sign))
        }
        Err(refusal) => vectors::print_refusal(output, refusal.number()),
    }
}

// Inserts a value among the first n, if it is in range and there is room. Answers how many there are then.
fn put(buf: &mut [i64; MAX_ROWS], n: usize, v: i64) -> usize
    requires n_le_max_rows { (n ≤ max_rows) × (length buf.old ≡ max_rows) }
    requires buf_value { all_in (take n buf.old) ≡ true }
    ensures upper_bound { (result ≤ max_rows) × (length buf.new ≡ max_rows) }
    ensures buf_after { all_in (take result buf.new) ≡ true }
{
    if n == MAX_ROWS || !words::in_range(v) {
        return n;
    }
    structure_utils::insert(buf, n, v);
    n + 1
}

// 3: the median of some values, as a count and as a float.
fn median(output: Stdout, text: &[u8], many: usize) -> io::Result<()> {
    let mut buf = [0i64; MAX_ROWS];
    let mut n = 0;
    for k in 0..many {
        let v = vectors::signed(vectors::word(text, k));
        n = put(&mut buf, n, v);
    }
    if 0 < n {
        vectors::print(
            output,
            vectors::unsigned(structure_utils::median_cut(&buf, n)),
        )?;
        vectors::print(
            output,
            float64::to_bits(structure_utils::median_f64(&buf, n)),
        )?;
    }
    Ok(())
}

// 4: a capped square.
fn square(output: Stdout, x: i64) -> io::Result<()> {
    vectors::print(output, words::capped_square(x))
}

// 5: the refusal of rows and columns.
fn hash_bits(output: Stdout, rows: usize, cols: usize) -> io::Result<()> {
    let checked = matrix_storage::check_hash_bits(rows, cols);
    vectors::print(output, refusal::number_in(&checked))
}

fn run(output: Stdout, op: u64, many: usize, text: &[u8]) -> io::Result<()> {
    let a = vectors::word(text, 0);
    let b = vectors::word(text, 1);
    match op {
        1 => mask_bits(output, a as usize),
        2 => {
            let row = vectors::word(text, 2) as usize;
            let rows = vectors::word(text, 3) as usize;
            let cols = vectors::word(text, 4) as usize;
            cell(output, a, b, row, rows, cols)
        }
        3 => median(output, text, many),
        4 => square(output, vectors::signed(a)),
        5 => hash_bits(output, a as usize, b as usize),
        _ => Ok(()),
    }
}

// One line: false at the end of the input.
fn step(input: Stdin, output: Stdout) -> io::Result<bool> {
    let mut text = [0u8; 340];
    let line = vectors::next(input, &mut text);
    if line.op == 0 {
        return Ok(false);
    }
    run(output, line.op, line.many, &text)?;
    Ok(true)
}

fn main(rt: HostRuntime) -> io::Result<()> {
    let input = rt.stdin();
    let output = rt.stdout();
    for _ in 0..1000000 {
        if !step(input, output)? {
            return Ok(());
        }
    }
    Ok(())
}
