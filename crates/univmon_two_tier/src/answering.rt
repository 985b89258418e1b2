// The calls that answer: each turns C's header, asks the library and turns the answer back.
ghost use Rattle.std.specs.Prelude.{◌≡◌, Bool, true, ℕ};
ghost use Rattle.estimates.specs.Calls.{l1_call, l2_call, sum_call, cardinality_call};
ghost use Rattle.univmon_c.specs.Crossing.{is_g, g_by};
ghost use Rattle.univmon_c.specs.Calls.{lent_of, answer_by, c_lent};
ghost use Rattle.univmon_two_tier.specs.Crossing.{header_of, two_tier_face};

use crate::CTwoTier;
use crate::crossing::known_header;
use univmon_c::CAnswer;
use univmon_c::crossing::{known_g, no_answer};

// L1: the exact weight.
#[tactic(auto, unfolding(univmon_c::specs::Calls::answer_by))]
#[unsafe(no_mangle)]
pub extern "C" fn univmon_two_tier_estimate_l1(header: CTwoTier) -> CAnswer
    ensures { result ≡ answer_by true header.mode (l1_call (header_of header)) }
{
    let Some(h) = known_header(header) else {
        return no_answer();
    };
    CAnswer::from(estimates::estimate_l1(h))
}

// L2, from the norms.
#[tactic(auto, unfolding(univmon_c::specs::Calls::answer_by))]
#[unsafe(no_mangle)]
pub extern "C" fn univmon_two_tier_estimate_l2(header: CTwoTier, norms: &[u64]) -> CAnswer
    ensures { result ≡ answer_by true header.mode (l2_call (header_of header) norms.now) }
{
    let Some(h) = known_header(header) else {
        return no_answer();
    };
    CAnswer::from(estimates::estimate_l2(h, norms))
}

// The sum of g over the candidates: g 0 is one, 1 value, 2 square; another number is refused with 9.
#[tactic(auto, unfolding(univmon_c::specs::Calls::answer_by))]
#[unsafe(no_mangle)]
pub extern "C" fn univmon_two_tier_estimate_g_sum(
    header: CTwoTier,
    counters: &[i64],
    norms: &[u64],
    entries: &[u64],
    counts: &[i64],
    g: u64,
    count_every_key: bool,
) -> CAnswer
    ensures { result ≡ answer_by (is_g g) header.mode (sum_call (g_by g) count_every_key (lent_of two_tier_face (c_lent header counters.now norms.now entries.now counts.now))) }
{
    let Some(h) = known_header(header) else {
        return no_answer();
    };
    let Some(choice) = known_g(g) else {
        return no_answer();
    };
    CAnswer::from(estimates::estimate_g_sum(
        h,
        counters,
        norms,
        entries,
        counts,
        choice,
        count_every_key,
    ))
}

// The number of keys.
#[tactic(auto, unfolding(univmon_c::specs::Calls::answer_by))]
#[unsafe(no_mangle)]
pub extern "C" fn univmon_two_tier_estimate_cardinality(
    header: CTwoTier,
    counters: &[i64],
    norms: &[u64],
    entries: &[u64],
    counts: &[i64],
) -> CAnswer
    ensures { result ≡ answer_by true header.mode (cardinality_call (lent_of two_tier_face (c_lent header counters.now norms.now entries.now counts.now))) }
{
    let Some(h) = known_header(header) else {
        return no_answer();
    };
    CAnswer::from(estimates::estimate_cardinality(h, counters, norms, entries, counts))
}
