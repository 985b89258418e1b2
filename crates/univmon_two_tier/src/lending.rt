// The updates on a header whose lengths and flags are lent: C hands over its own arrays, and weight,
// updates and mode come back as numbers.
ghost use Rattle.std.specs.Prelude.{◌≡◌, Bool, true, ℕ, length};
ghost use Rattle.layout.specs.Slices.{view};
ghost use Rattle.layout.specs.Answers.{list_left};
ghost use Rattle.univmon.specs.declared.Kind.TheVariants as kind;
ghost use Rattle.univmon.specs.Updates.{update_answers};
ghost use Rattle.univmon.specs.Calls.{lent_update_list_call};
ghost use Rattle.univmon_c.specs.Calls.{lent_of, c_left, change_by};
ghost use Rattle.univmon_c.specs.Lending.{c_lent_in, c_lent_out};
ghost use Rattle.univmon_two_tier.specs.Crossing.{two_tier_face};
ghost use Rattle.univmon_two_tier.specs.Lending.{c_head_in, c_head_out};

use crate::CTwoTierShape;
use crate::crossing::known_scalars;
use univmon_c::CStep;
use univmon_c::crossing::c_step;

// The key goes to layers 0 to its bottom layer.
#[tactic(auto, unfolding(univmon_c::specs::Calls::change_by, layout::specs::Answers::list_left))]
#[unsafe(no_mangle)]
pub extern "C" fn univmon_two_tier_update_weighted_lent(
    shape: CTwoTierShape,
    total_weight: u64,
    total_updates: u64,
    mode: u64,
    lens: &mut [usize],
    flags: &mut [bool],
    counters: &mut [i64],
    norms: &mut [u64],
    entries: &mut [u64],
    counts: &mut [i64],
    record: &[u64],
    weight: i64,
    list: &mut [u64],
) -> CStep
    ensures counts_value { c_left result.refusal (c_lent_out (c_head_out shape result.weight result.updates result.mode lens flags) counters norms entries counts)
        ≡ change_by two_tier_face true (λ s. lent_update_list_call kind.Standard s «record».now weight (length list.old)) (c_lent_in (c_head_in shape total_weight total_updates mode lens flags) counters norms entries counts) }
    ensures list_after { list.new
        ≡ list_left result.refusal (update_answers kind.Standard (view (lent_of two_tier_face (c_lent_in (c_head_in shape total_weight total_updates mode lens flags) counters norms entries counts))) «record».now weight) list.old }
{
    let Some(scalars) = known_scalars(shape, total_weight, total_updates, mode) else {
        return CStep {
            refusal: 9,
            weight: total_weight,
            updates: total_updates,
            mode,
        };
    };
    c_step(
        scalars,
        univmon::update_weighted_lent(
            scalars, lens, flags, counters, norms, entries, counts, record, weight, list,
        ),
    )
}

// The key goes to its bottom layer only.
#[tactic(auto, unfolding(univmon_c::specs::Calls::change_by, layout::specs::Answers::list_left))]
#[unsafe(no_mangle)]
pub extern "C" fn univmon_two_tier_update_weighted_terminal_lent(
    shape: CTwoTierShape,
    total_weight: u64,
    total_updates: u64,
    mode: u64,
    lens: &mut [usize],
    flags: &mut [bool],
    counters: &mut [i64],
    norms: &mut [u64],
    entries: &mut [u64],
    counts: &mut [i64],
    record: &[u64],
    weight: i64,
    list: &mut [u64],
) -> CStep
    ensures counts_value { c_left result.refusal (c_lent_out (c_head_out shape result.weight result.updates result.mode lens flags) counters norms entries counts)
        ≡ change_by two_tier_face true (λ s. lent_update_list_call kind.Terminal s «record».now weight (length list.old)) (c_lent_in (c_head_in shape total_weight total_updates mode lens flags) counters norms entries counts) }
    ensures list_after { list.new
        ≡ list_left result.refusal (update_answers kind.Terminal (view (lent_of two_tier_face (c_lent_in (c_head_in shape total_weight total_updates mode lens flags) counters norms entries counts))) «record».now weight) list.old }
{
    let Some(scalars) = known_scalars(shape, total_weight, total_updates, mode) else {
        return CStep {
            refusal: 9,
            weight: total_weight,
            updates: total_updates,
            mode,
        };
    };
    c_step(
        scalars,
        univmon::update_weighted_terminal_lent(
            scalars, lens, flags, counters, norms, entries, counts, record, weight, list,
        ),
    )
}
