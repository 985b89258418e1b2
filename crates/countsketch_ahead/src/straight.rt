// The count after an update of three rows and of five, which are common: straight code, with what a loop
// keeps in a buffer in locals. They stay twins for speed, as those of `countsketch_l2_norm` do.
ghost use Rattle.std.specs.Prelude.{◌≡◌, ℕ, ◌*◌, ◌≤◌, length};
ghost use Rattle.words.specs.Num.{top};
ghost use Rattle.matrix_storage.specs.Bits.{hash_of};
ghost use Rattle.matrix_storage.specs.inner.Shaped.{Shaped};
ghost use Rattle.structure_utils.specs.Median.{sort_z, middle};
ghost use Rattle.countsketch_l2_norm.specs.Sketch.{cell_of};
ghost use Rattle.countsketch_ahead.specs.inner.Needs.{estimates_ahead, Countable, CountedIfReady};

use crate::rows::row_ahead;
use countsketch_l2_norm::{place, row_ready_at};

// The count after an update of three rows at known places. Only the contract names `cols`.
fn three_at(
    counters: &[i64],
    cols: usize,
    a: usize,
    b: usize,
    c: usize,
    high: u64,
    low: u64,
    weight: u64,
) -> i64
    requires countable { Countable 3 cols (hash_of high low) weight counters.now }
    requires a_value { (a ≡ cell_of cols (hash_of high low) 0) × ((b ≡ cell_of cols (hash_of high low) 1) × (c ≡ cell_of cols (hash_of high low) 2)) }
    ensures { result ≡ middle (sort_z (estimates_ahead cols (hash_of high low) weight counters.now 3 0)) }
{
    let x = row_ahead(counters, high, low, a, 0, weight);
    let y = row_ahead(counters, high, low, b, 1, weight);
    let z = row_ahead(counters, high, low, c, 2, weight);
    structure_utils::median_of_three(x, y, z)
}

// The same where the rows are not judged yet: each place is worked out once for both.
pub fn three_if_ready(
    counters: &[i64],
    norms: &[u64],
    cols: usize,
    high: u64,
    low: u64,
    weight: u64,
) -> Option<i64>
    requires shaped { Shaped 3 cols }
    requires cols_in_bounds { (3 * cols ≤ length counters.now) × ((6 ≤ length norms.now) × (weight ≤ top)) }
    ensures { CountedIfReady 3 cols (hash_of high low) weight counters.now norms.now result }
{
    let bits = matrix_storage::mask_bits(cols);
    let a = place(high, low, bits, cols, 0);
    let b = place(high, low, bits, cols, 1);
    let c = place(high, low, bits, cols, 2);
    if !row_ready_at(counters, norms, a, 0, cols, high, low, weight) {
        return None;
    }
    if !row_ready_at(counters, norms, b, 1, cols, high, low, weight) {
        return None;
    }
    if !row_ready_at(counters, norms, c, 2, cols, high, low, weight) {
        return None;
    }
    Some(three_at(counters, cols, a, b, c, high, low, weight))
}

// The same two of five rows.
fn five_at(
    counters: &[i64],
    cols: usize,
    a: usize,
    b: usize,
    c: usize,
    d: usize,
    e: usize,
    high: u64,
    low: u64,
    weight: u64,
) -> i64
    requires countable { Countable 5 cols (hash_of high low) weight counters.now }
    requires a_value { (a ≡ cell_of cols (hash_of high low) 0) × ((b ≡ cell_of cols (hash_of high low) 1) × ((c ≡ cell_of cols (hash_of high low) 2)
        × ((d ≡ cell_of cols (hash_of high low) 3) × (e ≡ cell_of cols (hash_of high low) 4)))) }
    ensures { result ≡ middle (sort_z (estimates_ahead cols (hash_of high low) weight counters.now 5 0)) }
{
    let u = row_ahead(counters, high, low, a, 0, weight);
    let v = row_ahead(counters, high, low, b, 1, weight);
    let x = row_ahead(counters, high, low, c, 2, weight);
    let y = row_ahead(counters, high, low, d, 3, weight);
    let z = row_ahead(counters, high, low, e, 4, weight);
    structure_utils::median_of_five(u, v, x, y, z)
}

pub fn five_if_ready(
    counters: &[i64],
    norms: &[u64],
    cols: usize,
    high: u64,
    low: u64,
    weight: u64,
) -> Option<i64>
    requires shaped { Shaped 5 cols }
    requires cols_in_bounds { (5 * cols ≤ length counters.now) × ((10 ≤ length norms.now) × (weight ≤ top)) }
    ensures { CountedIfReady 5 cols (hash_of high low) weight counters.now norms.now result }
{
    let bits = matrix_storage::mask_bits(cols);
    let a = place(high, low, bits, cols, 0);
    let b = place(high, low, bits, cols, 1);
    let c = place(high, low, bits, cols, 2);
    let d = place(high, low, bits, cols, 3);
    let e = place(high, low, bits, cols, 4);
    if !row_ready_at(counters, norms, a, 0, cols, high, low, weight) {
        return None;
    }
    if !row_ready_at(counters, norms, b, 1, cols, high, low, weight) {
        return None;
    }
    if !row_ready_at(counters, norms, c, 2, cols, high, low, weight) {
        return None;
    }
    if !row_ready_at(counters, norms, d, 3, cols, high, low, weight) {
        return None;
    }
    if !row_ready_at(counters, norms, e, 4, cols, high, low, weight) {
        return None;
    }
    Some(five_at(counters, cols, a, b, c, d, e, high, low, weight))
}
