// A delta on one counter of a layer, and the offer of its key.
ghost use Rattle.std.specs.Prelude.{◌≡◌, Bool, true, ◌&&◌, List, ℕ, ◌+◌, ◌*◌, ◌<◌, length, ℤ};
ghost use Rattle.words.specs.Num.{in_range};
ghost use Rattle.matrix_storage.specs.inner.Shaped.{Shaped};
ghost use Rattle.countsketch_l2_norm.specs.Sketch.{cell_at};
ghost use Rattle.heap_moves.specs.declared.Item.{Item};
ghost use Rattle.heap.specs.Offer.{kept_by, len_by};
ghost use Rattle.layer.specs.inner.Needs.{layer_of, delta, Housed, DeltaReady, layer_in, layer_out};
ghost use Rattle.layer.specs.Delta.{delta_layer, delta_answer, delta_reads, delta_fits};

use crate::Dims;
use heap::Answer;
use heap_moves::Item;

// Whether all that a delta reads of the layer is in range.
#[tactic(auto, using(crate::proofs::Tests::delta_reads_are))]
pub fn delta_reads(
    counters: &[i64],
    norms: &[u64],
    counts: &[i64],
    d: Dims,
    len: usize,
    row: usize,
    col: usize,
    item: Item,
) -> bool
    requires housed { Housed d (length counters.now) (length norms.now) (length counts.now) len }
    requires row_lt_rows { (row < d.rows) × (col < d.cols) }
    ensures { (es : List ℕ) (flag every : Bool) (n : ℤ) → result ≡ delta_reads d (delta row col n item every) (layer_of d counters.now norms.now es counts.now len flag) }
{
    countsketch_l2_norm::cell_read(counters, norms, d.rows, d.cols, row, col)
        && countsketch_l2_norm::cells_in(counters, d.rows, d.cols, item.high, item.low)
        && heap::counts_in_range(counts, len)
}

// Whether the counter, which is in range, stays so, whatever the count.
#[tactic(auto, unfolding(crate::specs::Delta::delta_fits))]
pub fn delta_fits(counters: &[i64], d: Dims, row: usize, col: usize, count: i64) -> bool
    requires row_lt_rows { (row < d.rows) × (col < d.cols) }
    requires shaped { Shaped d.rows d.cols }
    requires counters_len { length counters.now ≡ d.rows * d.cols }
    requires col_value { in_range (cell_at counters.now (row * d.cols + col)) ≡ true }
    ensures { (ws es : List ℕ) (ns : List ℤ) (len : ℕ) (flag every : Bool) (item : Item) → result ≡ delta_fits d (delta row col count item every) (layer_of d counters.now ws es ns len flag) }
{
    countsketch_l2_norm::cell_fits(counters, d.rows, d.cols, row, col, count)
}

// Makes the delta, and answers what the offer of the key did.
pub fn apply_delta(
    counters: &mut [i64],
    norms: &mut [u64],
    entries: &mut [u64],
    counts: &mut [i64],
    d: Dims,
    len: usize,
    row: usize,
    col: usize,
    count: i64,
    item: Item,
) -> Answer
    requires { DeltaReady d len row col count item counters.old norms.old entries.old counts.old }
    ensures every_value { (flag every : Bool) → layer_out d counters norms entries counts (len_by result len) (flag && (kept_by result && every))
        ≡ delta_layer d (delta row col count item every) (layer_in d counters norms entries counts len flag) }
    ensures value { (flag every : Bool) → result ≡ delta_answer d (delta row col count item every) (layer_in d counters norms entries counts len flag) }
{
    countsketch_l2_norm::apply_delta(counters, norms, d.rows, d.cols, row, col, count);
    let n = countsketch_l2_norm::count_with_hash(&*counters, d.rows, d.cols, item.high, item.low);
    heap::offer(entries, counts, d.size, len, item, n)
}
