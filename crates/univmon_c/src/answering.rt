// The calls that answer: each turns C's header, asks the library and turns the answer back.
ghost use Rattle.std.specs.Prelude.{◌≡◌, Bool, true, ℕ};
ghost use Rattle.estimates.specs.Calls.{l1_call, l2_call, sum_call, cardinality_call, panel_call};
ghost use Rattle.state_check.specs.Check.{state_ok};
ghost use Rattle.univmon_c.specs.Crossing.{is_g, g_by, header_of};
ghost use Rattle.univmon_c.specs.Calls.{one_tier_face, lent_of, answer_by, panel_by, check_by, c_lent};

pub use crate::crossing::LAST_G;
use crate::crossing::{LAST_MODE, header_of, known_g, known_header, no_answer, no_panel};
use crate::{CAnswer, CHeader, CPanel};

// L1: the exact weight.
#[tactic(auto, unfolding(crate::specs::Calls::answer_by))]
pub fn univmon_estimate_l1(header: CHeader) -> CAnswer
    ensures { result ≡ answer_by true header.mode (l1_call (header_of header)) }
{
    // here and in `univmon_panel_answer` the mode is asked first: an Option of a header is a second
    // header on the stack, and these calls would take a KiB more than `univmon.h` says
    if LAST_MODE < header.mode {
        return no_answer();
    }
    CAnswer::from(estimates::estimate_l1(header_of(header)))
}

// L2, from the norms.
#[tactic(auto, unfolding(crate::specs::Calls::answer_by))]
pub fn univmon_estimate_l2(header: CHeader, norms: &[u64]) -> CAnswer
    ensures { result ≡ answer_by true header.mode (l2_call (header_of header) norms.now) }
{
    let Some(h) = known_header(header) else {
        return no_answer();
    };
    CAnswer::from(estimates::estimate_l2(h, norms))
}

// The sum of g over the candidates: g 0 is one, 1 value, 2 square; another number is refused with 9.
#[tactic(auto, unfolding(crate::specs::Calls::answer_by))]
pub fn univmon_estimate_g_sum(
    header: CHeader,
    counters: &[i64],
    norms: &[u64],
    entries: &[u64],
    counts: &[i64],
    g: u64,
    count_every_key: bool,
) -> CAnswer
    ensures { result ≡ answer_by (is_g g) header.mode (sum_call (g_by g) count_every_key (lent_of one_tier_face (c_lent header counters.now norms.now entries.now counts.now))) }
{
    let Some(h) = known_header(header) else {
        return no_answer();
    };
    let Some(choice) = known_g(g) else {
        return no_answer();
    };
    CAnswer::from(estimates::estimate_g_sum(
        h,
        counters,
        norms,
        entries,
        counts,
        choice,
        count_every_key,
    ))
}

// The number of keys.
#[tactic(auto, unfolding(crate::specs::Calls::answer_by))]
pub fn univmon_estimate_cardinality(
    header: CHeader,
    counters: &[i64],
    norms: &[u64],
    entries: &[u64],
    counts: &[i64],
) -> CAnswer
    ensures { result ≡ answer_by true header.mode (cardinality_call (lent_of one_tier_face (c_lent header counters.now norms.now entries.now counts.now))) }
{
    let Some(h) = known_header(header) else {
        return no_answer();
    };
    CAnswer::from(estimates::estimate_cardinality(h, counters, norms, entries, counts))
}

// L1, L2 and cardinality.
#[tactic(auto, unfolding(crate::specs::Calls::panel_by))]
pub fn univmon_panel_answer(
    header: CHeader,
    counters: &[i64],
    norms: &[u64],
    entries: &[u64],
    counts: &[i64],
) -> CPanel
    ensures { result ≡ panel_by header (panel_call (lent_of one_tier_face (c_lent header counters.now norms.now entries.now counts.now))) }
{
    if LAST_MODE < header.mode {
        return no_panel();
    }
    let h = header_of(header);
    CPanel::from(estimates::panel_answer(h, counters, norms, entries, counts))
}

// Whether a header and four slices have what every accepted call keeps: no, where the mode's number
// stands for no mode.
#[tactic(auto, unfolding(crate::specs::Calls::check_by))]
pub fn univmon_check_state(
    header: CHeader,
    counters: &[i64],
    norms: &[u64],
    entries: &[u64],
    counts: &[i64],
) -> bool
    ensures { result ≡ check_by state_ok (c_lent header counters.now norms.now entries.now counts.now) }
{
    let Some(h) = known_header(header) else {
        return false;
    };
    state_check::check_state(h, counters, norms, entries, counts)
}
