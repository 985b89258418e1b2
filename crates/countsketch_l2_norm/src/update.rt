// An update of every row with a hash and a weight, what it reads, and whether it fits.
ghost use Rattle.std.specs.Prelude.{◌≡◌, true, ◌&&◌, ℕ, ◌+◌, ◌-◌, ◌*◌, ◌<◌, ◌≤◌, length, take, ℤ, pos, ◌+ℤ◌, leb};
ghost use Rattle.words.specs.Num.{top, square_cap, in_range};
ghost use Rattle.words.specs.Wide.{value_of};
ghost use Rattle.matrix_storage.specs.Bits.{max_rows, max_cols, hash_bits, mask_bits, signed, hash_of};
ghost use Rattle.matrix_storage.specs.inner.Shaped.{Shaped};
ghost use Rattle.countsketch_l2_norm.specs.Sketch.{cell_of, add_rows, row_read, rows_read, rows_fit};
ghost use Rattle.countsketch_l2_norm.specs.inner.Needs.{sketch_of, rows_ready, Ready, CellReady, RowAdded, MadeIfReady};
ghost use Rattle.countsketch_l2_norm.specs.Estimate.{estimates, estimate_of, cells_in_range};

use crate::cells::{add_cell, index_of, norm_of, row_read};
use crate::estimate::row_estimate;
use crate::straight::{update_five, update_five_if_ready, update_three, update_three_if_ready};
use matrix_storage::MAX_ROWS;
use words::Wide;

// A weight up to here keeps a counter of 32 bits in range.
const LIGHT_TOP: u64 = words::MAX_WEIGHT - words::SHORT_TOP as u64;

// The index of the counter that a hash names in a row, with `bits` the mask bits of `cols`.
pub fn place(high: u64, low: u64, bits: usize, cols: usize, r: usize) -> usize
    requires le_cols { (1 ≤ cols) × ((cols ≤ max_cols) × (bits ≡ mask_bits cols)) }
    requires r_lt_max_rows { (r < max_rows) × (r * mask_bits cols < hash_bits) }
    ensures { result ≡ cell_of cols (hash_of high low) r }
{
    let col = matrix_storage::column_at(high, low, bits, cols, r);
    index_of(cols, r, col)
}

// A weight with the sign of a row.
fn delta_at(high: u64, low: u64, r: usize, weight: u64) -> i64
    requires { (r < max_rows) × (weight ≤ top) }
    ensures { result ≡ signed (hash_of high low) r (pos weight) }
{
    matrix_storage::signed_at(high, low, r, weight as i64)
}

// Adds a weight, with the row's sign, to a hash's counter in each row.
pub fn update_weighted_with_hash(
    counters: &mut [i64],
    norms: &mut [u64],
    rows: usize,
    cols: usize,
    high: u64,
    low: u64,
    weight: u64,
)
    requires { Ready rows cols (hash_of high low) weight counters.old norms.old }
    ensures { sketch_of counters.new norms.new rows
        ≡ add_rows cols (hash_of high low) weight rows 0 (sketch_of counters.old norms.old rows) }
{
    let bits = matrix_storage::mask_bits(cols);
    for r in 0..rows {
        let at = place(high, low, bits, cols, r);
        let delta = delta_at(high, low, r, weight);
        add_cell(counters, norms, at, r, delta);
    }
}

// One row of an update, with the index of the counter that the hash names: the counter takes the weight
// with the row's sign, and the row's estimate is read off the counter just stored.
pub fn update_row(
    counters: &mut [i64],
    norms: &mut [u64],
    at: usize,
    r: usize,
    high: u64,
    low: u64,
    weight: u64,
) -> i64
    requires r_lt_max_rows { (r < max_rows) × (weight ≤ top) }
    requires cell_ready { CellReady at r (signed (hash_of high low) r (pos weight)) counters.old norms.old }
    ensures { RowAdded at (hash_of high low) weight r counters.old norms.old counters.new norms.new result }
{
    let delta = delta_at(high, low, r, weight);
    add_cell(counters, norms, at, r, delta);
    row_estimate(&*counters, high, low, at, r)
}

// Every row of an update, and the rows' estimates after it to the front of a buffer.
fn update_rows(
    buf: &mut [i64; MAX_ROWS],
    counters: &mut [i64],
    norms: &mut [u64],
    rows: usize,
    cols: usize,
    high: u64,
    low: u64,
    weight: u64,
)
    requires buf_len { length buf.old ≡ max_rows }
    requires ready { Ready rows cols (hash_of high low) weight counters.old norms.old }
    ensures buf_len_2 { length buf.new ≡ max_rows }
    ensures rows_after { sketch_of counters.new norms.new rows
        ≡ add_rows cols (hash_of high low) weight rows 0 (sketch_of counters.old norms.old rows) }
    ensures buf_after { take rows buf.new ≡ estimates cols (hash_of high low) counters.new rows 0 }
{
    let bits = matrix_storage::mask_bits(cols);
    for r in 0..rows {
        let at = place(high, low, bits, cols, r);
        buf[r] = update_row(counters, norms, at, r, high, low, weight);
    }
}

// The update and the count of the same hash after it, in one pass over the rows. What it stores is
// what `update_weighted_with_hash` stores, what it answers is what `count_with_hash` then answers:
// those two say what is meant, this one is quicker. Three rows and five are common, and have a way of
// their own.
pub fn update_and_count(
    counters: &mut [i64],
    norms: &mut [u64],
    rows: usize,
    cols: usize,
    high: u64,
    low: u64,
    weight: u64,
) -> i64
    requires { Ready rows cols (hash_of high low) weight counters.old norms.old }
    ensures rows_after { sketch_of counters.new norms.new rows
        ≡ add_rows cols (hash_of high low) weight rows 0 (sketch_of counters.old norms.old rows) }
    ensures value { result ≡ estimate_of rows cols (hash_of high low) counters.new }
{
    if rows == 5 {
        return update_five(counters, norms, cols, high, low, weight);
    }
    if rows == 3 {
        return update_three(counters, norms, cols, high, low, weight);
    }
    let mut buf = [0i64; MAX_ROWS];
    update_rows(&mut buf, counters, norms, rows, cols, high, low, weight);
    structure_utils::median_of(&buf, rows)
}

// Whether all that an update reads is in range.
pub fn rows_read(
    counters: &[i64],
    norms: &[u64],
    rows: usize,
    cols: usize,
    high: u64,
    low: u64,
) -> bool
    requires shaped { Shaped rows cols }
    requires cols_in_bounds { (rows * cols ≤ length counters.now) × (2 * rows ≤ length norms.now) }
    ensures { result ≡ rows_read cols (hash_of high low) (sketch_of counters.now norms.now rows) rows 0 }
{
    let bits = matrix_storage::mask_bits(cols);
    for r in 0..rows {
        let at = place(high, low, bits, cols, r);
        if !row_read(counters[at], norm_of(norms, r), cols) {
            return false;
        }
    }
    true
}

// Whether no counter would leave the range, of counters that are in range.
pub fn rows_fit(
    counters: &[i64],
    rows: usize,
    cols: usize,
    high: u64,
    low: u64,
    weight: u64,
) -> bool
    requires shaped { Shaped rows cols }
    requires cols_in_bounds { (rows * cols ≤ length counters.now) × (weight ≤ top) }
    requires rows_value { cells_in_range cols (hash_of high low) counters.now rows 0 ≡ true }
    ensures { result ≡ rows_fit cols (hash_of high low) weight counters.now rows 0 }
{
    let bits = matrix_storage::mask_bits(cols);
    for r in 0..rows {
        let at = place(high, low, bits, cols, r);
        let delta = delta_at(high, low, r, weight);
        let sum = counters[at] + delta;
        if !words::in_range(sum) {
            return false;
        }
    }
    true
}

// Whether a norm is in range and holds a square.
fn norm_ready(square: u64, w: Wide, cols: usize) -> bool
    ensures { result ≡ leb (value_of w) (cols * square_cap) && leb square (value_of w) }
{
    words::at_most_caps(w.lo, w.hi, cols as u64) && words::at_least(w.lo, w.hi, square)
}

// Whether a row may take the weight: what is read is in range, and so is the new counter. A short
// counter and a weight that is not near the end of the range leave only the norm to be asked for.
pub fn row_ready(x: i64, w: Wide, cols: usize, high: u64, low: u64, r: usize, weight: u64) -> bool
    requires { (r < max_rows) × (weight ≤ top) }
    ensures { result ≡ row_read x (value_of w) cols && in_range (x +ℤ signed (hash_of high low) r (pos weight)) }
{
    if words::is_short(x) && weight <= LIGHT_TOP {
        return norm_ready(words::short_square(x), w, cols);
    }
    row_read(x, w, cols) && words::in_range(x + delta_at(high, low, r, weight))
}

// Whether an update may be made: `rows_read` and `rows_fit` in one pass, where it does not matter which
// of them fails.
pub fn rows_ready(
    counters: &[i64],
    norms: &[u64],
    rows: usize,
    cols: usize,
    high: u64,
    low: u64,
    weight: u64,
) -> bool
    requires shaped { Shaped rows cols }
    requires cols_in_bounds { (rows * cols ≤ length counters.now) × ((2 * rows ≤ length norms.now) × (weight ≤ top)) }
    ensures { result ≡ rows_ready cols (hash_of high low) weight (sketch_of counters.now norms.now rows) rows 0 }
{
    let bits = matrix_storage::mask_bits(cols);
    for r in 0..rows {
        let at = place(high, low, bits, cols, r);
        if !row_ready(counters[at], norm_of(norms, r), cols, high, low, r, weight) {
            return false;
        }
    }
    true
}

// `rows_ready`, and where it says yes `update_and_count`; where it says no `None`, and nothing is touched.
pub fn update_if_ready(
    counters: &mut [i64],
    norms: &mut [u64],
    rows: usize,
    cols: usize,
    high: u64,
    low: u64,
    weight: u64,
) -> Option<i64>
    requires shaped { Shaped rows cols }
    requires cols_in_bounds { (rows * cols ≤ length counters.old) × ((2 * rows ≤ length norms.old) × (weight ≤ top)) }
    ensures { MadeIfReady rows cols (hash_of high low) weight counters.old norms.old counters.new norms.new result }
{
    if rows == 3 {
        return update_three_if_ready(counters, norms, cols, high, low, weight);
    }
    if rows == 5 {
        return update_five_if_ready(counters, norms, cols, high, low, weight);
    }
    if !rows_ready(&*counters, &*norms, rows, cols, high, low, weight) {
        return None;
    }
    Some(update_and_count(counters, norms, rows, cols, high, low, weight))
}
