// Two layers' counters added, and the norms worked out anew.
ghost use Rattle.std.specs.Prelude.{◌≡◌, true, [], ℕ, ◌+◌, ◌*◌, ◌<◌, ◌≤◌, length, ℤ, nat_abs, ◌+ℤ◌};
ghost use Rattle.words.specs.Num.{top, all_in};
ghost use Rattle.words.specs.inner.Raised.{raised_top};
ghost use Rattle.words.specs.Wide.{value_of};
ghost use Rattle.matrix_storage.specs.Bits.{max_rows, max_cols};
ghost use Rattle.matrix_storage.specs.inner.Shaped.{Shaped};
ghost use Rattle.countsketch_l2_norm.specs.Norms.{norms_of};
ghost use Rattle.countsketch_l2_norm.specs.inner.Needs.{sketch_of};
ghost use Rattle.countsketch_l2_norm.specs.Merge.{sums, row_norm, row_norms, merge_sketch};

use crate::cells::put_norm;
use words::Wide;

// ---- the questions

// Whether every counter is in range.
pub fn all_in(cells: &[i64]) -> bool
    ensures { result ≡ all_in cells.now }
{
    words::first_in_range(cells, cells.len())
}

fn sum_of(x: i64, y: i64) -> i64
    requires { (nat_abs x ≤ top) × (nat_abs y ≤ top) }
    ensures { result ≡ x +ℤ y }
{
    x + y
}

// The bitwise or of the sums of two lists of counters, each raised: `words::raised` says what a result
// below 2^53 shows. No jump depends on what is read.
fn sums_joined(xs: &[i64], ys: &[i64]) -> u64
    requires xs_len { length xs.now ≡ length ys.now }
    requires xs_value { (all_in xs.now ≡ true) × (all_in ys.now ≡ true) }
    ensures { result < raised_top → all_in (sums xs.now ys.now) ≡ true }
{
    let mut all: u64 = 0;
    for (x, y) in xs.iter().zip(ys) {
        all |= words::raised(sum_of(*x, *y));
    }
    all
}

// Whether every sum of two counters is in range, of counters that are in range.
pub fn sums_fit(xs: &[i64], ys: &[i64]) -> bool
    requires xs_len { length xs.now ≡ length ys.now }
    requires xs_value { (all_in xs.now ≡ true) × (all_in ys.now ≡ true) }
    ensures { result ≡ all_in (sums xs.now ys.now) }
{
    if sums_joined(xs, ys) < words::RAISED_TOP {
        return true;
    }
    // one of the sums is 2^52, which is in range, or out of range: each is tested by itself
    for (x, y) in xs.iter().zip(ys) {
        if !words::in_range(sum_of(*x, *y)) {
            return false;
        }
    }
    true
}

// ---- the stores

// Adds the counters of one list to those of another.
pub fn add_all(xs: &mut [i64], ys: &[i64])
    requires xs_len { length xs.old ≡ length ys.now }
    requires xs_value { (all_in xs.old ≡ true) × (all_in ys.now ≡ true) }
    ensures { xs.new ≡ sums xs.old ys.now }
{
    for (i, x) in xs.iter_mut().enumerate() {
        *x = sum_of(*x, ys[i]);
    }
}

// The sum of the capped squares of a row. Each square is capped, not the sum, so that a counter that
// comes down again takes out what it brought in.
pub fn row_norm(counters: &[i64], cols: usize, r: usize) -> Wide
    requires r_lt_max_rows { (r < max_rows) × (cols ≤ max_cols) }
    requires cols_in_bounds { r * cols + cols ≤ length counters.now }
    ensures { value_of result ≡ row_norm cols counters.now r }
{
    let a = r * cols;
    let mut acc = Wide { lo: 0, hi: 0 };
    for x in &counters[a..a + cols] {
        acc = acc.plus(words::capped_square(*x));
    }
    acc
}

// The norms of all rows, worked out anew.
pub fn row_norms(counters: &[i64], norms: &mut [u64], rows: usize, cols: usize)
    requires shaped { Shaped rows cols }
    requires cols_in_bounds { (rows * cols ≤ length counters.now) × (2 * rows ≤ length norms.old) }
    ensures { norms_of norms.new rows ≡ row_norms cols counters.now rows 0 }
{
    for r in 0..rows {
        put_norm(norms, r, row_norm(counters, cols, r));
    }
}

// Another layer's counters come in; a merge reads no norm, of either layer.
pub fn merge(counters: &mut [i64], norms: &mut [u64], other: &[i64], rows: usize, cols: usize)
    requires shaped { Shaped rows cols }
    requires cols_in_bounds { (rows * cols ≤ length counters.old) × (2 * rows ≤ length norms.old) }
    requires counters_len { length counters.old ≡ length other.now }
    requires counters_value { (all_in counters.old ≡ true) × (all_in other.now ≡ true) }
    ensures { sketch_of counters.new norms.new rows
        ≡ merge_sketch rows cols (sketch_of counters.old norms.old rows) (sketch_of other.now [] rows) }
{
    add_all(counters, other);
    row_norms(&*counters, norms, rows, cols);
}
