// The calls that change a state: each turns C's header, calls the library and turns the answer back.
ghost use Rattle.std.specs.Prelude.{◌≡◌, Bool, true, ℕ, length};
ghost use Rattle.header.specs.Shape.{two_tier, shape_refusal};
ghost use Rattle.layout.specs.Slices.{view};
ghost use Rattle.layout.specs.Answers.{list_left};
ghost use Rattle.univmon.specs.declared.Kind.TheVariants as kind;
ghost use Rattle.univmon.specs.Updates.{update_answers};
ghost use Rattle.univmon.specs.Calls.{new_call, update_list_call, clear_call};
ghost use Rattle.univmon_merge.specs.Merges.{merge_answers, merge_list_call};
ghost use Rattle.univmon_c.specs.Calls.{lent_of, c_left, crossed, change_by, merge_by, c_lent};
ghost use Rattle.univmon_c.specs.Lending.{c_lent_in, c_lent_out};
ghost use Rattle.univmon_two_tier.specs.Crossing.{two_tier_face};

use crate::crossing::{c_answered, known_header};
use crate::{CTwoTier, CTwoTierAnswered};
use header::{Header, Shape};
use refusal::number_in;

// 0, or the refusal of these dimensions.
#[unsafe(no_mangle)]
pub extern "C" fn univmon_two_tier_check_shape(
    heap_size: usize,
    elephant_layers: usize,
    elephant_rows: usize,
    elephant_cols: usize,
    mouse_rows: usize,
    mouse_cols: usize,
    layers: usize,
) -> u64
    ensures { result ≡ shape_refusal (two_tier heap_size elephant_layers elephant_rows elephant_cols mouse_rows mouse_cols layers) }
{
    let shape = Shape {
        heap_size,
        layers,
        elephant_layers,
        elephant_rows,
        elephant_cols,
        mouse_rows,
        mouse_cols,
    };
    number_in(&shape.check())
}

// A fresh state in lent slices.
#[unsafe(no_mangle)]
pub extern "C" fn univmon_two_tier_new(
    heap_size: usize,
    elephant_layers: usize,
    elephant_rows: usize,
    elephant_cols: usize,
    mouse_rows: usize,
    mouse_cols: usize,
    layers: usize,
    counters: &mut [i64],
    norms: &mut [u64],
    entries: &mut [u64],
    counts: &mut [i64],
) -> CTwoTierAnswered
    ensures { c_left result.refusal (c_lent_out result.header counters norms entries counts)
        ≡ crossed two_tier_face (new_call (two_tier heap_size elephant_layers elephant_rows elephant_cols mouse_rows mouse_cols layers) counters.old norms.old entries.old counts.old) }
{
    c_answered(
        Header::zero(),
        univmon::new_two_tier(
            heap_size,
            elephant_layers,
            elephant_rows,
            elephant_cols,
            mouse_rows,
            mouse_cols,
            layers,
            counters,
            norms,
            entries,
            counts,
        ),
    )
}

// Clears a state: header and slices are then as `new` leaves them.
#[tactic(auto, unfolding(univmon_c::specs::Calls::change_by))]
#[unsafe(no_mangle)]
pub extern "C" fn univmon_two_tier_clear(
    header: CTwoTier,
    counters: &mut [i64],
    norms: &mut [u64],
    entries: &mut [u64],
    counts: &mut [i64],
) -> CTwoTierAnswered
    ensures { c_left result.refusal (c_lent_out result.header counters norms entries counts)
        ≡ change_by two_tier_face true clear_call (c_lent_in header counters norms entries counts) }
{
    let Some(h) = known_header(header) else {
        return CTwoTierAnswered { refusal: 9, header };
    };
    c_answered(h, univmon::clear(h, counters, norms, entries, counts))
}

// The key goes to layers 0 to its bottom layer.
#[tactic(auto, unfolding(univmon_c::specs::Calls::change_by, layout::specs::Answers::list_left))]
#[unsafe(no_mangle)]
pub extern "C" fn univmon_two_tier_update_weighted(
    header: CTwoTier,
    counters: &mut [i64],
    norms: &mut [u64],
    entries: &mut [u64],
    counts: &mut [i64],
    record: &[u64],
    weight: i64,
    list: &mut [u64],
) -> CTwoTierAnswered
    ensures counts_value { c_left result.refusal (c_lent_out result.header counters norms entries counts)
        ≡ change_by two_tier_face true (λ s. update_list_call kind.Standard s «record».now weight (length list.old)) (c_lent_in header counters norms entries counts) }
    ensures list_after { list.new
        ≡ list_left result.refusal (update_answers kind.Standard (view (lent_of two_tier_face (c_lent_in header counters norms entries counts))) «record».now weight) list.old }
{
    let Some(h) = known_header(header) else {
        return CTwoTierAnswered { refusal: 9, header };
    };
    c_answered(
        h,
        univmon::update_weighted(h, counters, norms, entries, counts, record, weight, list),
    )
}

// The key goes to its bottom layer only.
#[tactic(auto, unfolding(univmon_c::specs::Calls::change_by, layout::specs::Answers::list_left))]
#[unsafe(no_mangle)]
pub extern "C" fn univmon_two_tier_update_weighted_terminal(
    header: CTwoTier,
    counters: &mut [i64],
    norms: &mut [u64],
    entries: &mut [u64],
    counts: &mut [i64],
    record: &[u64],
    weight: i64,
    list: &mut [u64],
) -> CTwoTierAnswered
    ensures counts_value { c_left result.refusal (c_lent_out result.header counters norms entries counts)
        ≡ change_by two_tier_face true (λ s. update_list_call kind.Terminal s «record».now weight (length list.old)) (c_lent_in header counters norms entries counts) }
    ensures list_after { list.new
        ≡ list_left result.refusal (update_answers kind.Terminal (view (lent_of two_tier_face (c_lent_in header counters norms entries counts))) «record».now weight) list.old }
{
    let Some(h) = known_header(header) else {
        return CTwoTierAnswered { refusal: 9, header };
    };
    c_answered(
        h,
        univmon::update_weighted_terminal(
            h, counters, norms, entries, counts, record, weight, list,
        ),
    )
}

// Merges the other state into this one.
#[tactic(auto, unfolding(univmon_c::specs::Calls::merge_by, layout::specs::Answers::list_left))]
#[unsafe(no_mangle)]
pub extern "C" fn univmon_two_tier_merge(
    header: CTwoTier,
    counters: &mut [i64],
    norms: &mut [u64],
    entries: &mut [u64],
    counts: &mut [i64],
    other: CTwoTier,
    other_counters: &[i64],
    other_norms: &[u64],
    other_entries: &[u64],
    other_counts: &[i64],
    list: &mut [u64],
) -> CTwoTierAnswered
    ensures counts_value { c_left result.refusal (c_lent_out result.header counters norms entries counts)
        ≡ merge_by two_tier_face (λ s t. merge_list_call s t (length list.old)) (c_lent_in header counters norms entries counts)
        (c_lent other other_counters.now other_norms.now other_entries.now other_counts.now) }
    ensures list_after { list.new
        ≡ list_left result.refusal (merge_answers (view (lent_of two_tier_face (c_lent_in header counters norms entries counts)))
        (view (lent_of two_tier_face (c_lent other other_counters.now other_norms.now other_entries.now other_counts.now)))) list.old }
{
    let Some(h) = known_header(header) else {
        return CTwoTierAnswered { refusal: 9, header };
    };
    let Some(o) = known_header(other) else {
        return CTwoTierAnswered { refusal: 9, header };
    };
    c_answered(
        h,
        univmon_merge::merge(
            h,
            counters,
            norms,
            entries,
            counts,
            o,
            other_counters,
            other_norms,
            other_entries,
            other_counts,
            list,
        ),
    )
}
