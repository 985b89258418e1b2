// The public calls. Each judges lengths and header, then what it reads, before it answers.
ghost use Rattle.refusal.specs.Refusals.{kept, refused};
ghost use Rattle.estimates.specs.Answers.{float_answer};
ghost use Rattle.std.specs.Prelude.{◌≡◌, Bool, true, not, ◌&&◌, ℕ, ◌*◌, eqb};
ghost use Rattle.header.specs.inner.Accepted.{Accepted};
ghost use Rattle.layout.specs.Slices.{norms_in, view, lent};
ghost use Rattle.layout.specs.inner.Needs.{Standing};
ghost use Rattle.layout.specs.Lending.{lent_read};
ghost use Rattle.estimates.specs.Norms.{is_terminal};
ghost use Rattle.estimates.specs.Calls.{norms_lent, l1_call, l2_call, sum_call, cardinality_call, panel_call, no_panel};
ghost use Rattle.estimates.specs.inner.Slices.{sum_answer};

use crate::PanelAnswer;
use crate::norms::{l2_of, l2_reads};
use crate::reads::sum_reads;
use crate::standard::standard_sum;
use crate::terminal::terminal_sum;
use header::{Header, Mode, Shape};
use layout::LentState;
use refusal::Refusal;
use sums::G;

// ---- L1 and L2

// L1: the exact weight.
pub fn estimate_l1(header: Header) -> Result<f64, Refusal>
    ensures { float_answer result ≡ l1_call header }
{
    if !header.in_range() {
        return Err(Refusal::OutOfRange);
    }
    Ok(header.totals.weight as f64)
}

// Whether a shape has this number of norm words.
fn norms_match(shape: Shape, norms: usize) -> bool
    requires { Accepted shape }
    ensures { result ≡ eqb norms (2 * norms_in shape) }
{
    let e = layout::extent_of(shape);
    norms == e.norms
}

fn norms_lent(header: Header, norms: &[u64]) -> bool
    ensures { result ≡ norms_lent header norms.now }
{
    header.in_range() && norms_match(header.shape, norms.len())
}

// L2: of layer 0, or in terminal mode of all layers.
pub fn estimate_l2(header: Header, norms: &[u64]) -> Result<f64, Refusal>
    ensures { float_answer result ≡ l2_call header norms.now }
{
    if !norms_lent(header, norms) {
        return Err(Refusal::OutOfRange);
    }
    if !l2_reads(header, norms) {
        return Err(Refusal::OutOfRange);
    }
    Ok(l2_of(header, norms))
}

// ---- sums

fn is_terminal(mode: Mode) -> bool
    ensures { result ≡ is_terminal mode }
{
    matches!(mode, Mode::Terminal)
}

// Whether a sum is 0.0 by the header alone.
fn header_alone(weight: u64, every: bool) -> bool
    ensures { result ≡ (eqb weight 0 && not every) }
{
    weight == 0 && !every
}

// The sum by the state's mode.
fn sum_by_mode(state: LentState, g: G, every: bool) -> Result<f64, Refusal>
    requires { Standing (lent_read state) }
    ensures { float_answer result ≡ sum_answer g every (view (lent_read state.entry)) }
{
    let terminal = is_terminal(state.header.mode);
    if !sum_reads(state, terminal) {
        return Err(Refusal::OutOfRange);
    }
    if terminal {
        return Ok(terminal_sum(state, g, every));
    }
    Ok(standard_sum(state, g, every))
}

// The sum of g over the candidates.
pub fn estimate_g_sum(
    header: Header,
    counters: &[i64],
    norms: &[u64],
    entries: &[u64],
    counts: &[i64],
    g: G,
    count_every_key: bool,
) -> Result<f64, Refusal>
    ensures { float_answer result ≡ sum_call g count_every_key (lent header counters.now norms.now entries.now counts.now) }
{
    layout::check_lent(header, counters, norms, entries, counts)?;
    if header_alone(header.totals.weight, count_every_key) {
        return Ok(0.0);
    }
    let state = LentState {
        header: &header,
        counters,
        norms,
        entries,
        counts,
    };
    sum_by_mode(state, g, count_every_key)
}

// The number of keys: g one, with every key counted.
pub fn estimate_cardinality(
    header: Header,
    counters: &[i64],
    norms: &[u64],
    entries: &[u64],
    counts: &[i64],
) -> Result<f64, Refusal>
    ensures { float_answer result ≡ cardinality_call (lent header counters.now norms.now entries.now counts.now) }
{
    estimate_g_sum(header, counters, norms, entries, counts, G::One, true)
}

// ---- the panel answer

// L1, L2 and cardinality, if none is refused.
fn three_answers(
    header: Header,
    counters: &[i64],
    norms: &[u64],
    entries: &[u64],
    counts: &[i64],
) -> Result<PanelAnswer, Refusal>
    ensures { kept (no_panel (refused result)) result ≡ panel_call (lent header counters.now norms.now entries.now counts.now) }
{
    Ok(PanelAnswer {
        l1: estimate_l1(header)?,
        l2: estimate_l2(header, norms)?,
        cardinality: estimate_cardinality(header, counters, norms, entries, counts)?,
        refusal: 0,
    })
}

// L1, L2 and cardinality, or a refusal's number and +0.0 three times: the panel's own form, a struct that is
// passed by value with a number for C.
pub fn panel_answer(
    header: Header,
    counters: &[i64],
    norms: &[u64],
    entries: &[u64],
    counts: &[i64],
) -> PanelAnswer
    ensures { result ≡ panel_call (lent header counters.now norms.now entries.now counts.now) }
{
    match three_answers(header, counters, norms, entries, counts) {
        Ok(panel) => panel,
        Err(refusal) => PanelAnswer {
            l1: 0.0,
            l2: 0.0,
            cardinality: 0.0,
            refusal: refusal.number(),
        },
    }
}
