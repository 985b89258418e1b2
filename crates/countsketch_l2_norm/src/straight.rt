// An update of three rows and of five, which are common: straight code, with what a loop keeps in a
// buffer in locals. They stay twins for speed: one form over a const number of rows, with places and estimates in arrays,
// proves, but takes 2% more instructions and 4% more time for an update.
ghost use Rattle.std.specs.Prelude.{◌≡◌, ◌&&◌, ℕ, ◌+◌, ◌*◌, ◌<◌, ◌≤◌, length, pos};
ghost use Rattle.words.specs.Num.{top};
ghost use Rattle.matrix_storage.specs.Bits.{max_rows, signed, hash_of};
ghost use Rattle.matrix_storage.specs.inner.Shaped.{Shaped};
ghost use Rattle.countsketch_l2_norm.specs.Norms.{norm_at};
ghost use Rattle.countsketch_l2_norm.specs.Sketch.{cell_of, cell_at, add_rows, row_read, cell_fits};
ghost use Rattle.countsketch_l2_norm.specs.Estimate.{estimate_of};
ghost use Rattle.countsketch_l2_norm.specs.inner.Needs.{sketch_of, Ready, MadeIfReady};

use crate::cells::norm_of;
use crate::update::{place, row_ready, update_row};

// Whether a row may take the weight, with the index of the counter that the hash names.
pub fn row_ready_at(
    counters: &[i64],
    norms: &[u64],
    at: usize,
    r: usize,
    cols: usize,
    high: u64,
    low: u64,
    weight: u64,
) -> bool
    requires r_lt_max_rows { (r < max_rows) × (weight ≤ top) }
    requires at_in_bounds { (at < length counters.now) × (2 * r + 1 < length norms.now) }
    ensures { result ≡ row_read (cell_at counters.now at) (norm_at norms.now r) cols
        && cell_fits at (signed (hash_of high low) r (pos weight)) counters.now }
{
    row_ready(counters[at], norm_of(norms, r), cols, high, low, r, weight)
}

// An update of three rows at known places, and the count after it. Only the contract names `cols`.
fn update_three_at(
    counters: &mut [i64],
    norms: &mut [u64],
    cols: usize,
    a: usize,
    b: usize,
    c: usize,
    high: u64,
    low: u64,
    weight: u64,
) -> i64
    requires ready { Ready 3 cols (hash_of high low) weight counters.old norms.old }
    requires a_value { (a ≡ cell_of cols (hash_of high low) 0) × ((b ≡ cell_of cols (hash_of high low) 1) × (c ≡ cell_of cols (hash_of high low) 2)) }
    ensures norms_after { sketch_of counters.new norms.new 3
        ≡ add_rows cols (hash_of high low) weight 3 0 (sketch_of counters.old norms.old 3) }
    ensures value { result ≡ estimate_of 3 cols (hash_of high low) counters.new }
{
    let x = update_row(counters, norms, a, 0, high, low, weight);
    let y = update_row(counters, norms, b, 1, high, low, weight);
    let z = update_row(counters, norms, c, 2, high, low, weight);
    structure_utils::median_of_three(x, y, z)
}

pub fn update_three(
    counters: &mut [i64],
    norms: &mut [u64],
    cols: usize,
    high: u64,
    low: u64,
    weight: u64,
) -> i64
    requires { Ready 3 cols (hash_of high low) weight counters.old norms.old }
    ensures norms_after { sketch_of counters.new norms.new 3
        ≡ add_rows cols (hash_of high low) weight 3 0 (sketch_of counters.old norms.old 3) }
    ensures value { result ≡ estimate_of 3 cols (hash_of high low) counters.new }
{
    let bits = matrix_storage::mask_bits(cols);
    let a = place(high, low, bits, cols, 0);
    let b = place(high, low, bits, cols, 1);
    let c = place(high, low, bits, cols, 2);
    update_three_at(counters, norms, cols, a, b, c, high, low, weight)
}

// The same where the rows are not judged yet: each place is worked out once for both.
pub fn update_three_if_ready(
    counters: &mut [i64],
    norms: &mut [u64],
    cols: usize,
    high: u64,
    low: u64,
    weight: u64,
) -> Option<i64>
    requires shaped { Shaped 3 cols }
    requires cols_in_bounds { (3 * cols ≤ length counters.old) × ((6 ≤ length norms.old) × (weight ≤ top)) }
    ensures { MadeIfReady 3 cols (hash_of high low) weight counters.old norms.old counters.new norms.new result }
{
    let bits = matrix_storage::mask_bits(cols);
    let a = place(high, low, bits, cols, 0);
    let b = place(high, low, bits, cols, 1);
    let c = place(high, low, bits, cols, 2);
    if !row_ready_at(&*counters, &*norms, a, 0, cols, high, low, weight) {
        return None;
    }
    if !row_ready_at(&*counters, &*norms, b, 1, cols, high, low, weight) {
        return None;
    }
    if !row_ready_at(&*counters, &*norms, c, 2, cols, high, low, weight) {
        return None;
    }
    Some(update_three_at(counters, norms, cols, a, b, c, high, low, weight))
}

// The same three of five rows.
fn update_five_at(
    counters: &mut [i64],
    norms: &mut [u64],
    cols: usize,
    a: usize,
    b: usize,
    c: usize,
    d: usize,
    e: usize,
    high: u64,
    low: u64,
    weight: u64,
) -> i64
    requires ready { Ready 5 cols (hash_of high low) weight counters.old norms.old }
    requires a_value { (a ≡ cell_of cols (hash_of high low) 0) × ((b ≡ cell_of cols (hash_of high low) 1) × ((c ≡ cell_of cols (hash_of high low) 2)
        × ((d ≡ cell_of cols (hash_of high low) 3) × (e ≡ cell_of cols (hash_of high low) 4)))) }
    ensures norms_after { sketch_of counters.new norms.new 5
        ≡ add_rows cols (hash_of high low) weight 5 0 (sketch_of counters.old norms.old 5) }
    ensures value { result ≡ estimate_of 5 cols (hash_of high low) counters.new }
{
    let u = update_row(counters, norms, a, 0, high, low, weight);
    let v = update_row(counters, norms, b, 1, high, low, weight);
    let x = update_row(counters, norms, c, 2, high, low, weight);
    let y = update_row(counters, norms, d, 3, high, low, weight);
    let z = update_row(counters, norms, e, 4, high, low, weight);
    structure_utils::median_of_five(u, v, x, y, z)
}

pub fn update_five(
    counters: &mut [i64],
    norms: &mut [u64],
    cols: usize,
    high: u64,
    low: u64,
    weight: u64,
) -> i64
    requires { Ready 5 cols (hash_of high low) weight counters.old norms.old }
    ensures norms_after { sketch_of counters.new norms.new 5
        ≡ add_rows cols (hash_of high low) weight 5 0 (sketch_of counters.old norms.old 5) }
    ensures value { result ≡ estimate_of 5 cols (hash_of high low) counters.new }
{
    let bits = matrix_storage::mask_bits(cols);
    let a = place(high, low, bits, cols, 0);
    let b = place(high, low, bits, cols, 1);
    let c = place(high, low, bits, cols, 2);
    let d = place(high, low, bits, cols, 3);
    let e = place(high, low, bits, cols, 4);
    update_five_at(counters, norms, cols, a, b, c, d, e, high, low, weight)
}

pub fn update_five_if_ready(
    counters: &mut [i64],
    norms: &mut [u64],
    cols: usize,
    high: u64,
    low: u64,
    weight: u64,
) -> Option<i64>
    requires shaped { Shaped 5 cols }
    requires cols_in_bounds { (5 * cols ≤ length counters.old) × ((10 ≤ length norms.old) × (weight ≤ top)) }
    ensures { MadeIfReady 5 cols (hash_of high low) weight counters.old norms.old counters.new norms.new result }
{
    let bits = matrix_storage::mask_bits(cols);
    let a = place(high, low, bits, cols, 0);
    let b = place(high, low, bits, cols, 1);
    let c = place(high, low, bits, cols, 2);
    let d = place(high, low, bits, cols, 3);
    let e = place(high, low, bits, cols, 4);
    if !row_ready_at(&*counters, &*norms, a, 0, cols, high, low, weight) {
        return None;
    }
    if !row_ready_at(&*counters, &*norms, b, 1, cols, high, low, weight) {
        return None;
    }
    if !row_ready_at(&*counters, &*norms, c, 2, cols, high, low, weight) {
        return None;
    }
    if !row_ready_at(&*counters, &*norms, d, 3, cols, high, low, weight) {
        return None;
    }
    if !row_ready_at(&*counters, &*norms, e, 4, cols, high, low, weight) {
        return None;
    }
    Some(update_five_at(counters, norms, cols, a, b, c, d, e, high, low, weight))
}
