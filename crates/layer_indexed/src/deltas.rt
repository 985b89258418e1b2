// A delta on one counter of a layer with an index.
ghost use Rattle.std.specs.Prelude.{◌≡◌, Bool, ◌&&◌, ℕ, ◌+◌, ◌*◌, ◌<◌, length, set, ℤ, ◌+ℤ◌};
ghost use Rattle.countsketch_l2_norm.specs.Sketch.{cell_at};
ghost use Rattle.heap.specs.Offer.{len_by, kept_by};
ghost use Rattle.layer.specs.Layer.{count_of};
ghost use Rattle.layer.specs.inner.Needs.{delta, layer_of, layer_in, layer_out};
ghost use Rattle.layer_indexed.specs.Adding.{delta_layer_in, delta_index_in, delta_answer_in, delta_reads_in};
ghost use Rattle.layer_indexed.specs.inner.Needs.{Seated, CountableBehind, DeltaReadyIn, grade_number, delta_grade};

use crate::grades::Grade;
use crate::looks::key_looked;
use heap::Answer;
use heap_moves::Item;
use layer::Dims;

// The count of a key if a counter took a number: it is stored, the key counted, and the counter put back.
fn count_behind(
    counters: &mut [i64],
    d: Dims,
    row: usize,
    col: usize,
    count: i64,
    item: Item,
) -> i64
    requires { CountableBehind d row col count item counters.old }
    ensures value { result ≡ count_of d item (set counters.old (row * d.cols + col) (cell_at counters.old (row * d.cols + col) +ℤ count)) }
    ensures counters_unchanged { counters.new ≡ counters.old }
{
    let at = row * d.cols + col;
    let x = counters[at];
    counters[at] = x + count;
    let n = countsketch_l2_norm::count_with_hash(&*counters, d.rows, d.cols, item.high, item.low);
    counters[at] = x;
    n
}

// Whether what a delta reads first is in range: its cell and norm, the cells of the key's estimate, and what
// the key's own lookup visits.
#[tactic(auto, unfolding(crate::specs::Adding::delta_reads_in))]
fn delta_reads(
    counters: &[i64],
    norms: &[u64],
    entries: &[u64],
    counts: &[i64],
    index: &[u64],
    d: Dims,
    len: usize,
    row: usize,
    col: usize,
    item: Item,
) -> bool
    requires seated { Seated d (length counters.now) (length norms.now) (length entries.now) (length counts.now) (length index.now) len }
    requires row_lt_rows { (row < d.rows) × (col < d.cols) }
    ensures { (flag every : Bool) (n : ℤ) → result ≡ delta_reads_in d (delta row col n item every) index.now (layer_of d counters.now norms.now entries.now counts.now len flag) }
{
    countsketch_l2_norm::cell_read(counters, norms, d.rows, d.cols, row, col)
        && countsketch_l2_norm::cells_in(counters, d.rows, d.cols, item.high, item.low)
        && key_looked(index, entries, counts, len, item.key)
}

// How far a delta may come. The offer is tried on the slices and taken back.
pub fn delta_grade(
    counters: &mut [i64],
    norms: &[u64],
    entries: &mut [u64],
    counts: &mut [i64],
    index: &mut [u64],
    d: Dims,
    len: usize,
    row: usize,
    col: usize,
    count: i64,
    item: Item,
) -> Grade
    requires seated { Seated d (length counters.old) (length norms.now) (length entries.old) (length counts.old) (length index.old) len }
    requires row_lt_rows { (row < d.rows) × (col < d.cols) }
    ensures value { (flag every : Bool) → grade_number result ≡ delta_grade d (delta row col count item every) index.old (layer_of d counters.old norms.now entries.old counts.old len flag) }
    ensures counters_unchanged { (counters.new ≡ counters.old)
        × ((entries.new ≡ entries.old) × ((counts.new ≡ counts.old) × (index.new ≡ index.old))) }
{
    if !delta_reads(
        &*counters, norms, &*entries, &*counts, &*index, d, len, row, col, item,
    ) {
        return Grade::Unread;
    }
    if !countsketch_l2_norm::cell_fits(&*counters, d.rows, d.cols, row, col, count) {
        return Grade::Above;
    }
    let n = count_behind(counters, d, row, col, count, item);
    if heap_trial::try_offer(index, entries, counts, d.size, len, item, n) {
        return Grade::Fine;
    }
    Grade::Unmoved
}

// Makes the delta, and answers what the offer of the key did.
pub fn apply_delta(
    counters: &mut [i64],
    norms: &mut [u64],
    entries: &mut [u64],
    counts: &mut [i64],
    index: &mut [u64],
    d: Dims,
    len: usize,
    row: usize,
    col: usize,
    count: i64,
    item: Item,
) -> Answer
    requires { DeltaReadyIn d len row col count item counters.old norms.old entries.old counts.old index.old }
    ensures every_value { (flag every : Bool) → layer_out d counters norms entries counts (len_by result len) (flag && (kept_by result && every))
        ≡ delta_layer_in d (delta row col count item every) index.old (layer_in d counters norms entries counts len flag) }
    ensures value { (flag every : Bool) → result ≡ delta_answer_in d (delta row col count item every) index.old (layer_in d counters norms entries counts len flag) }
    ensures index_after { (flag every : Bool) → index.new ≡ delta_index_in d (delta row col count item every) index.old (layer_in d counters norms entries counts len flag) }
{
    countsketch_l2_norm::apply_delta(counters, norms, d.rows, d.cols, row, col, count);
    let n = countsketch_l2_norm::count_with_hash(&*counters, d.rows, d.cols, item.high, item.low);
    heap_indexed::offer(index, entries, counts, d.size, len, item, n).answer
}
