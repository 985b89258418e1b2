// The calls that change a state: each turns C's header, calls the library and turns the answer back.
ghost use Rattle.std.specs.Prelude.{◌≡◌, Bool, true, ℕ, length};
ghost use Rattle.header.specs.Shape.{shape_refusal, bottom_layer};
ghost use Rattle.header.specs.OneTier.{one_tier};
ghost use Rattle.layout.specs.Slices.{view};
ghost use Rattle.layout.specs.Answers.{list_left};
ghost use Rattle.univmon.specs.declared.Kind.TheVariants as kind;
ghost use Rattle.univmon.specs.Updates.{update_answers};
ghost use Rattle.univmon.specs.Calls.{new_call, update_list_call, clear_call, weight_call, mark_call, mark_layer_call};
ghost use Rattle.univmon_delta.specs.Deltas.{arrival, delta_answers, delta_list_call};
ghost use Rattle.univmon_merge.specs.Merges.{merge_answers, merge_list_call};
ghost use Rattle.univmon_c.specs.Crossing.{is_fidelity, fidelity_of, c_bottom};
ghost use Rattle.univmon_c.specs.Calls.{one_tier_face, lent_of, c_left, crossed, change_by, merge_by, head_by, c_lent};
ghost use Rattle.univmon_c.specs.Lending.{c_lent_in, c_lent_out};

use crate::crossing::{c_answered, known_fidelity, known_header};
use crate::{CAnswered, CBottom, CHeader};
use header::Header;
use refusal::number_in;

// ---- shapes

// 0, or the refusal of these dimensions.
pub fn univmon_check_shape(heap_size: usize, rows: usize, cols: usize, layers: usize) -> u64
    ensures { result ≡ shape_refusal (one_tier heap_size rows cols layers) }
{
    number_in(&header::check_shape(heap_size, rows, cols, layers))
}

// The last layer that a key with this bottom hash reaches.
pub fn univmon_bottom_layer_for_hash(hash: u64, layers: usize) -> CBottom
    ensures { result ≡ c_bottom (bottom_layer hash layers) }
{
    CBottom::from(header::bottom_layer_for_hash(hash, layers))
}

// ---- whole states

// A fresh state in lent slices.
pub fn univmon_new(
    heap_size: usize,
    rows: usize,
    cols: usize,
    layers: usize,
    counters: &mut [i64],
    norms: &mut [u64],
    entries: &mut [u64],
    counts: &mut [i64],
) -> CAnswered
    ensures { c_left result.refusal (c_lent_out result.header counters norms entries counts)
        ≡ crossed one_tier_face (new_call (one_tier heap_size rows cols layers) counters.old norms.old entries.old counts.old) }
{
    c_answered(
        Header::zero(),
        univmon::new(
            heap_size, rows, cols, layers, counters, norms, entries, counts,
        ),
    )
}

// Clears a state: header and slices are then as `new` leaves them.
#[tactic(auto, unfolding(crate::specs::Calls::change_by))]
pub fn univmon_clear(
    header: CHeader,
    counters: &mut [i64],
    norms: &mut [u64],
    entries: &mut [u64],
    counts: &mut [i64],
) -> CAnswered
    ensures { c_left result.refusal (c_lent_out result.header counters norms entries counts)
        ≡ change_by one_tier_face true clear_call (c_lent_in header counters norms entries counts) }
{
    let Some(h) = known_header(header) else {
        return CAnswered { refusal: 9, header };
    };
    c_answered(h, univmon::clear(h, counters, norms, entries, counts))
}

// ---- updates

// The key goes to layers 0 to its bottom layer.
#[tactic(auto, unfolding(crate::specs::Calls::change_by, layout::specs::Answers::list_left))]
pub fn univmon_update_weighted(
    header: CHeader,
    counters: &mut [i64],
    norms: &mut [u64],
    entries: &mut [u64],
    counts: &mut [i64],
    record: &[u64],
    weight: i64,
    list: &mut [u64],
) -> CAnswered
    ensures counts_value { c_left result.refusal (c_lent_out result.header counters norms entries counts)
        ≡ change_by one_tier_face true (λ s. update_list_call kind.Standard s «record».now weight (length list.old)) (c_lent_in header counters norms entries counts) }
    ensures list_after { list.new
        ≡ list_left result.refusal (update_answers kind.Standard (view (lent_of one_tier_face (c_lent_in header counters norms entries counts))) «record».now weight) list.old }
{
    let Some(h) = known_header(header) else {
        return CAnswered { refusal: 9, header };
    };
    c_answered(
        h,
        univmon::update_weighted(h, counters, norms, entries, counts, record, weight, list),
    )
}

// The key goes to its bottom layer only.
#[tactic(auto, unfolding(crate::specs::Calls::change_by, layout::specs::Answers::list_left))]
pub fn univmon_update_weighted_terminal(
    header: CHeader,
    counters: &mut [i64],
    norms: &mut [u64],
    entries: &mut [u64],
    counts: &mut [i64],
    record: &[u64],
    weight: i64,
    list: &mut [u64],
) -> CAnswered
    ensures counts_value { c_left result.refusal (c_lent_out result.header counters norms entries counts)
        ≡ change_by one_tier_face true (λ s. update_list_call kind.Terminal s «record».now weight (length list.old)) (c_lent_in header counters norms entries counts) }
    ensures list_after { list.new
        ≡ list_left result.refusal (update_answers kind.Terminal (view (lent_of one_tier_face (c_lent_in header counters norms entries counts))) «record».now weight) list.old }
{
    let Some(h) = known_header(header) else {
        return CAnswered { refusal: 9, header };
    };
    c_answered(
        h,
        univmon::update_weighted_terminal(
            h, counters, norms, entries, counts, record, weight, list,
        ),
    )
}

// A change of one counter that another relay saw: fidelity 0 is every insert, 1 promoted only;
// another number is refused with 9.
#[tactic(auto, unfolding(crate::specs::Calls::change_by, layout::specs::Answers::list_left))]
pub fn univmon_apply_delta(
    header: CHeader,
    counters: &mut [i64],
    norms: &mut [u64],
    entries: &mut [u64],
    counts: &mut [i64],
    record: &[u64],
    layer: usize,
    row: usize,
    col: usize,
    count: i32,
    fidelity: u64,
    list: &mut [u64],
) -> CAnswered
    ensures counts_value { c_left result.refusal (c_lent_out result.header counters norms entries counts)
        ≡ change_by one_tier_face (is_fidelity fidelity) (λ s. delta_list_call s «record».now (arrival layer row col count (fidelity_of fidelity)) (length list.old))
        (c_lent_in header counters norms entries counts) }
    ensures list_after { list.new
        ≡ list_left result.refusal (delta_answers (view (lent_of one_tier_face (c_lent_in header counters norms entries counts))) «record».now (arrival layer row col count (fidelity_of fidelity))) list.old }
{
    let Some(h) = known_header(header) else {
        return CAnswered { refusal: 9, header };
    };
    let Some(f) = known_fidelity(fidelity) else {
        return CAnswered { refusal: 9, header };
    };
    c_answered(
        h,
        univmon_delta::apply_delta(
            h, counters, norms, entries, counts, record, layer, row, col, count, f, list,
        ),
    )
}

// ---- two states

// Merges the other state into this one.
#[tactic(auto, unfolding(crate::specs::Calls::merge_by, layout::specs::Answers::list_left))]
pub fn univmon_merge(
    header: CHeader,
    counters: &mut [i64],
    norms: &mut [u64],
    entries: &mut [u64],
    counts: &mut [i64],
    other: CHeader,
    other_counters: &[i64],
    other_norms: &[u64],
    other_entries: &[u64],
    other_counts: &[i64],
    list: &mut [u64],
) -> CAnswered
    ensures counts_value { c_left result.refusal (c_lent_out result.header counters norms entries counts)
        ≡ merge_by one_tier_face (λ s t. merge_list_call s t (length list.old)) (c_lent_in header counters norms entries counts)
        (c_lent other other_counters.now other_norms.now other_entries.now other_counts.now) }
    ensures list_after { list.new
        ≡ list_left result.refusal (merge_answers (view (lent_of one_tier_face (c_lent_in header counters norms entries counts)))
        (view (lent_of one_tier_face (c_lent other other_counters.now other_norms.now other_entries.now other_counts.now)))) list.old }
{
    let Some(h) = known_header(header) else {
        return CAnswered { refusal: 9, header };
    };
    let Some(o) = known_header(other) else {
        return CAnswered { refusal: 9, header };
    };
    c_answered(
        h,
        univmon_merge::merge(
            h,
            counters,
            norms,
            entries,
            counts,
            o,
            other_counters,
            other_norms,
            other_entries,
            other_counts,
            list,
        ),
    )
}

// ---- the header alone

// Sets the weight that a relay fed by deltas believes it has seen.
#[tactic(auto, unfolding(crate::specs::Calls::head_by))]
pub fn univmon_set_total_weight(header: CHeader, weight: u64) -> CAnswered
    ensures { result ≡ head_by (λ h. weight_call h weight) header }
{
    let Some(h) = known_header(header) else {
        return CAnswered { refusal: 9, header };
    };
    c_answered(h, univmon::set_total_weight(h, weight))
}

// Marks every layer's candidates as partial.
#[tactic(auto, unfolding(crate::specs::Calls::head_by))]
pub fn univmon_mark_candidates_incomplete(header: CHeader) -> CAnswered
    ensures { result ≡ head_by mark_call header }
{
    let Some(h) = known_header(header) else {
        return CAnswered { refusal: 9, header };
    };
    c_answered(h, univmon::mark_candidates_incomplete(h))
}

// Marks one layer's candidates as partial.
#[tactic(auto, unfolding(crate::specs::Calls::head_by))]
pub fn univmon_mark_layer_candidates_incomplete(header: CHeader, layer: usize) -> CAnswered
    ensures { result ≡ head_by (λ h. mark_layer_call h layer) header }
{
    let Some(h) = known_header(header) else {
        return CAnswered { refusal: 9, header };
    };
    c_answered(h, univmon::mark_layer_candidates_incomplete(h, layer))
}
