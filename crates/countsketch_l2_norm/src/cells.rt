// One counter and its row's norm: a delta, what it reads, and whether it fits.
ghost use Rattle.std.specs.Prelude.{◌≡◌, true, ℕ, ◌+◌, ◌-◌, ◌*◌, ◌<◌, ◌≤◌, length, set, ℤ, nat_abs, ◌+ℤ◌};
ghost use Rattle.words.specs.Num.{top, in_range, capped};
ghost use Rattle.words.specs.Wide.{value_of};
ghost use Rattle.matrix_storage.specs.Bits.{max_rows, max_cols};
ghost use Rattle.countsketch_l2_norm.specs.Norms.{norm_at};
ghost use Rattle.countsketch_l2_norm.specs.inner.Needs.{set_norm, sketch_of, CellReady, CellPlaced, CellDeltaReady};
ghost use Rattle.countsketch_l2_norm.specs.Sketch.{cell_at, add_cell, row_read, cell_read, cell_fits};

use words::Wide;

// The index of a row's column among the counters.
pub fn index_of(cols: usize, row: usize, col: usize) -> usize
    requires { (row < max_rows) × ((cols ≤ max_cols) × (col < cols)) }
    ensures { result ≡ row * cols + col }
{
    row * cols + col
}

// A row's norm, from its two words.
pub fn norm_of(norms: &[u64], r: usize) -> Wide
    requires { (r < max_rows) × (2 * r + 1 < length norms.now) }
    ensures { value_of result ≡ norm_at norms.now r }
{
    let lo_at = 2 * r;
    let hi_at = lo_at + 1;
    Wide {
        lo: norms[lo_at],
        hi: norms[hi_at],
    }
}

// Stores a row's norm.
pub fn put_norm(norms: &mut [u64], r: usize, w: Wide)
    requires { (r < max_rows) × (2 * r + 1 < length norms.old) }
    ensures { norms.new ≡ set_norm norms.old r (value_of w) }
{
    let lo_at = 2 * r;
    let hi_at = lo_at + 1;
    norms[lo_at] = w.lo;
    norms[hi_at] = w.hi;
}

// The counter at an index takes a number, and the norm of its row gives up the counter's old square
// and takes the new one.
pub fn add_cell(counters: &mut [i64], norms: &mut [u64], at: usize, r: usize, delta: i64)
    requires { CellReady at r delta counters.old norms.old }
    ensures counters_after { counters.new ≡ set counters.old at (cell_at counters.old at +ℤ delta) }
    ensures norms_after { norms.new
        ≡ set_norm norms.old r
        (norm_at norms.old r - capped (cell_at counters.old at)
        + capped (cell_at counters.old at +ℤ delta)) }
{
    let old = counters[at];
    let new = old + delta;
    let less = words::capped_square(old);
    let more = words::capped_square(new);
    let moved = norm_of(&*norms, r).moved(less, more);
    put_norm(norms, r, moved);
    counters[at] = new;
}

// Whether a counter and its row's norm are in range, and the norm holds the counter's square.
pub fn row_read(x: i64, w: Wide, cols: usize) -> bool
    ensures { result ≡ row_read x (value_of w) cols }
{
    words::in_range(x)
        && words::at_most_caps(w.lo, w.hi, cols as u64)
        && words::at_least(w.lo, w.hi, words::capped_square(x))
}

// Whether what a delta reads is in range: its counter and its row's norm.
pub fn cell_read(
    counters: &[i64],
    norms: &[u64],
    rows: usize,
    cols: usize,
    row: usize,
    col: usize,
) -> bool
    requires cell_placed { CellPlaced rows cols row col counters.now }
    requires rows_in_bounds { 2 * rows ≤ length norms.now }
    ensures { result ≡ cell_read cols (row * cols + col) row (sketch_of counters.now norms.now rows) }
{
    let at = index_of(cols, row, col);
    row_read(counters[at], norm_of(norms, row), cols)
}

// Whether the sum of a number in range and any other is in range. The sum is not formed, so that no
// number is too large to be judged.
fn sum_in_range(x: i64, d: i64) -> bool
    requires { nat_abs x ≤ top }
    ensures { result ≡ in_range (x +ℤ d) }
{
    // two tests: of their conjunction neither outcome was proved, the first test being turned about
    if d < -words::TOP - x {
        return false;
    }
    d <= words::TOP - x
}

// Whether a counter that is in range stays so when it takes a delta, whatever the delta's count.
pub fn cell_fits(
    counters: &[i64],
    rows: usize,
    cols: usize,
    row: usize,
    col: usize,
    count: i64,
) -> bool
    requires cell_placed { CellPlaced rows cols row col counters.now }
    requires col_value { in_range (cell_at counters.now (row * cols + col)) ≡ true }
    ensures { result ≡ cell_fits (row * cols + col) count counters.now }
{
    let at = index_of(cols, row, col);
    sum_in_range(counters[at], count)
}

// Adds a delta to one counter.
pub fn apply_delta(
    counters: &mut [i64],
    norms: &mut [u64],
    rows: usize,
    cols: usize,
    row: usize,
    col: usize,
    count: i64,
)
    requires { CellDeltaReady rows cols row col count counters.old norms.old }
    ensures { sketch_of counters.new norms.new rows
        ≡ add_cell (row * cols + col) row count (sketch_of counters.old norms.old rows) }
{
    let at = index_of(cols, row, col);
    add_cell(counters, norms, at, row, count);
}
