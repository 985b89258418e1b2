// An update of a layer with an index.
ghost use Rattle.std.specs.Prelude.{◌≡◌, Bool, ◌&&◌, is_some, IfSome, IfNone, ℕ, ◌≤◌, length, eqb};
ghost use Rattle.words.specs.Num.{top};
ghost use Rattle.heap.specs.Offer.{len_by, kept_by};
ghost use Rattle.layer.specs.Layer.{layer_update};
ghost use Rattle.layer.specs.inner.Needs.{Untouched, layer_of, layer_in, layer_out};
ghost use Rattle.layer_indexed.specs.Adding.{add_layer_in, add_index_in, add_answer_in};
ghost use Rattle.layer_indexed.specs.inner.Needs.{Seated, AddReadyIn, grade_number, read_grade, add_grade};

use crate::grades::Grade;
use crate::looks::key_looked;
use heap::Answer;
use heap_moves::Item;
use layer::Dims;

// Of an update whose rows are not ready, why: what it reads first is out of range, or else a counter would leave
// the range.
#[tactic(auto, unfolding(crate::specs::Adding::add_reads_in))]
fn unready_grade(
    counters: &[i64],
    norms: &[u64],
    entries: &[u64],
    counts: &[i64],
    index: &[u64],
    d: Dims,
    len: usize,
    item: Item,
) -> Grade
    requires { Seated d (length counters.now) (length norms.now) (length entries.now) (length counts.now) (length index.now) len }
    ensures { (flag : Bool) (w : ℕ) → grade_number result ≡ read_grade d (layer_update item w) index.now (layer_of d counters.now norms.now entries.now counts.now len flag) }
{
    if countsketch_l2_norm::rows_read(counters, norms, d.rows, d.cols, item.high, item.low)
        && key_looked(index, entries, counts, len, item.key)
    {
        Grade::Above
    } else {
        Grade::Unread
    }
}

// How far an update may come. One pass where all is well; only a refusal looks again. The offer is tried on
// the slices and taken back.
pub fn add_grade(
    counters: &[i64],
    norms: &[u64],
    entries: &mut [u64],
    counts: &mut [i64],
    index: &mut [u64],
    d: Dims,
    len: usize,
    item: Item,
    weight: u64,
) -> Grade
    requires seated { Seated d (length counters.now) (length norms.now) (length entries.old) (length counts.old) (length index.old) len }
    requires weight_le_top { weight ≤ top }
    ensures value { (flag : Bool) → grade_number result ≡ add_grade d (layer_update item weight) index.old (layer_of d counters.now norms.now entries.old counts.old len flag) }
    ensures entries_unchanged { (entries.new ≡ entries.old) × ((counts.new ≡ counts.old) × (index.new ≡ index.old)) }
{
    let ahead = countsketch_ahead::count_if_ready(
        counters, norms, d.rows, d.cols, item.high, item.low, weight,
    );
    let Some(count) = ahead else {
        return unready_grade(counters, norms, &*entries, &*counts, &*index, d, len, item);
    };
    if heap_trial::try_offer(index, entries, counts, d.size, len, item, count) {
        return Grade::Fine;
    }
    if key_looked(&*index, &*entries, &*counts, len, item.key) {
        return Grade::Unmoved;
    }
    Grade::Unread
}

// Makes the update, and answers what the offer of the key did.
pub fn add(
    counters: &mut [i64],
    norms: &mut [u64],
    entries: &mut [u64],
    counts: &mut [i64],
    index: &mut [u64],
    d: Dims,
    len: usize,
    item: Item,
    weight: u64,
) -> Answer
    requires { AddReadyIn d len item weight counters.old norms.old entries.old counts.old index.old }
    ensures result_value { (flag : Bool) → layer_out d counters norms entries counts (len_by result len) (flag && kept_by result)
        ≡ add_layer_in d (layer_update item weight) index.old (layer_in d counters norms entries counts len flag) }
    ensures value { (flag : Bool) → result ≡ add_answer_in d (layer_update item weight) index.old (layer_in d counters norms entries counts len flag) }
    ensures index_after { (flag : Bool) → index.new ≡ add_index_in d (layer_update item weight) index.old (layer_in d counters norms entries counts len flag) }
{
    let count = countsketch_l2_norm::update_and_count(
        counters, norms, d.rows, d.cols, item.high, item.low, weight,
    );
    heap_indexed::offer(index, entries, counts, d.size, len, item, count).answer
}

// `add_grade`, and where it is fine `add`; else `None`, and nothing is touched.
pub fn add_if_fine(
    counters: &mut [i64],
    norms: &mut [u64],
    entries: &mut [u64],
    counts: &mut [i64],
    index: &mut [u64],
    d: Dims,
    len: usize,
    item: Item,
    weight: u64,
) -> Option<Answer>
    requires seated { Seated d (length counters.old) (length norms.old) (length entries.old) (length counts.old) (length index.old) len }
    requires weight_le_top { weight ≤ top }
    ensures made_value { (flag : Bool) → is_some result ≡ eqb (add_grade d (layer_update item weight) index.old (layer_in d counters norms entries counts len flag)) 4 }
    ensures answer_value { IfSome result (λ a. (flag : Bool) → layer_out d counters norms entries counts (len_by a len) (flag && kept_by a)
        ≡ add_layer_in d (layer_update item weight) index.old (layer_in d counters norms entries counts len flag)) }
    ensures answer_value_2 { IfSome result (λ a. (flag : Bool) → a ≡ add_answer_in d (layer_update item weight) index.old (layer_in d counters norms entries counts len flag)) }
    ensures index_after { IfSome result (λ a. (flag : Bool) → index.new ≡ add_index_in d (layer_update item weight) index.old (layer_in d counters norms entries counts len flag)) }
    ensures untouched { IfNone result (Untouched counters norms entries counts × (index.new ≡ index.old)) }
{
    let grade = add_grade(
        &*counters, &*norms, entries, counts, index, d, len, item, weight,
    );
    if grade != Grade::Fine {
        return None;
    }
    Some(add(
        counters, norms, entries, counts, index, d, len, item, weight,
    ))
}
