// An update of one layer: the counters take it, then the key is offered with its new count.
ghost use Rattle.std.specs.Prelude.{◌≡◌, Bool, ◌&&◌, is_some, IfSome, IfNone, List, ℕ, ◌*◌, ◌≤◌, length};
ghost use Rattle.words.specs.Num.{top};
ghost use Rattle.heap.specs.Offer.{kept_by, len_by};
ghost use Rattle.layer.specs.Layer.{add_layer, add_answer, add_reads, add_fits, layer_update};
ghost use Rattle.layer.specs.inner.Needs.{layer_of, Housed, AddReady, layer_in, layer_out, Untouched};

use crate::Dims;
use heap::Answer;
use heap_moves::Item;

// Whether all that an update reads of the layer is in range.
#[tactic(auto, using(crate::proofs::Tests::reads_are))]
pub fn add_reads(
    counters: &[i64],
    norms: &[u64],
    counts: &[i64],
    d: Dims,
    len: usize,
    item: Item,
) -> bool
    requires { Housed d (length counters.now) (length norms.now) (length counts.now) len }
    ensures { (es : List ℕ) (flag : Bool) (w : ℕ) → result ≡ add_reads d (layer_update item w) (layer_of d counters.now norms.now es counts.now len flag) }
{
    countsketch_l2_norm::rows_read(counters, norms, d.rows, d.cols, item.high, item.low)
        && heap::counts_in_range(counts, len)
}

// Whether an update may be made: what it reads is in range, and no counter leaves the range.
#[tactic(auto, using(crate::proofs::Tests::ready_are))]
pub fn add_ready(
    counters: &[i64],
    norms: &[u64],
    counts: &[i64],
    d: Dims,
    len: usize,
    item: Item,
    weight: u64,
) -> bool
    requires housed { Housed d (length counters.now) (length norms.now) (length counts.now) len }
    requires weight_le_top { weight ≤ top }
    ensures { (es : List ℕ) (flag : Bool) → result ≡ add_reads d (layer_update item weight) (layer_of d counters.now norms.now es counts.now len flag)
        && add_fits d (layer_update item weight) (layer_of d counters.now norms.now es counts.now len flag) }
{
    countsketch_l2_norm::rows_ready(counters, norms, d.rows, d.cols, item.high, item.low, weight)
        && heap::counts_in_range(counts, len)
}

// Makes the update, and answers what the offer of the key did.
pub fn add(
    counters: &mut [i64],
    norms: &mut [u64],
    entries: &mut [u64],
    counts: &mut [i64],
    d: Dims,
    len: usize,
    item: Item,
    weight: u64,
) -> Answer
    requires { AddReady d len item weight counters.old norms.old entries.old counts.old }
    ensures result_value { (flag : Bool) → layer_out d counters norms entries counts (len_by result len) (flag && kept_by result)
        ≡ add_layer d (layer_update item weight) (layer_in d counters norms entries counts len flag) }
    ensures value { (flag : Bool) → result ≡ add_answer d (layer_update item weight) (layer_in d counters norms entries counts len flag) }
{
    let count = countsketch_l2_norm::update_and_count(
        counters, norms, d.rows, d.cols, item.high, item.low, weight,
    );
    heap::offer(entries, counts, d.size, len, item, count)
}

// `add_ready`, and where it says yes `add`; where it says no `None`, and nothing is touched. The counts are
// judged first, since the counters are stored as soon as they are judged.
pub fn add_if_ready(
    counters: &mut [i64],
    norms: &mut [u64],
    entries: &mut [u64],
    counts: &mut [i64],
    d: Dims,
    len: usize,
    item: Item,
    weight: u64,
) -> Option<Answer>
    requires housed { Housed d (length counters.old) (length norms.old) (length counts.old) len }
    requires entries_len { (length entries.old ≡ 4 * d.size) × (weight ≤ top) }
    ensures made_value { (flag : Bool) → is_some result ≡ add_reads d (layer_update item weight) (layer_in d counters norms entries counts len flag)
        && add_fits d (layer_update item weight) (layer_in d counters norms entries counts len flag) }
    ensures answer_value { IfSome result (λ a. (flag : Bool) → layer_out d counters norms entries counts (len_by a len) (flag && kept_by a)
        ≡ add_layer d (layer_update item weight) (layer_in d counters norms entries counts len flag)) }
    ensures answer_value_2 { IfSome result (λ a. (flag : Bool) → a ≡ add_answer d (layer_update item weight) (layer_in d counters norms entries counts len flag)) }
    ensures untouched { IfNone result (Untouched counters norms entries counts) }
{
    if !heap::counts_in_range(&*counts, len) {
        return None;
    }
    let count = countsketch_l2_norm::update_if_ready(
        counters, norms, d.rows, d.cols, item.high, item.low, weight,
    )?;
    Some(heap::offer(entries, counts, d.size, len, item, count))
}
