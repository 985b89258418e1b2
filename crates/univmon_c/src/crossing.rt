// Between C's shapes and the library's: numbers for enums, one flat struct for a header.
ghost use Rattle.std.specs.Prelude.{◌≡◌, Bool, ℕ, ◌<◌, ◌≤◌, MatchOption};
ghost use Rattle.refusal.specs.Refusals.{answer};
ghost use Rattle.header.specs.Answers.{answered_by, answered_lent_by};
ghost use Rattle.estimates.specs.Answers.{float_answer};
ghost use Rattle.state_text.specs.Calls.{written_by};
ghost use Rattle.estimates.specs.Calls.{refused_by, no_panel};
ghost use Rattle.univmon_c.specs.Crossing.{
  g_by,
  fidelity_of,
  header_of,
  c_header,
  c_answered,
  c_bottom,
  c_answer,
  c_panel,
  c_written,
  c_scalars,
  c_step,
};

use crate::{CAnswer, CAnswered, CBottom, CHeader, CPanel, CShape, CStep, CWritten};
use estimates::PanelAnswer;
use header::{Header, Scalars, Shape, Totals, mode_number, mode_of};
use refusal::{Refusal, number_in};
use sums::G;
use univmon_delta::Fidelity;

// ---- numbers for enums

// The greatest number that is a mode.
pub const LAST_MODE: u64 = 2;

// The greatest number that is a choice of g.
pub const LAST_G: u64 = 2;

// The greatest number that is a fidelity.
const LAST_FIDELITY: u64 = 1;

#[tactic(auto, unfolding(crate::specs::Crossing::g_by))]
pub fn g_of(n: u64) -> G
    ensures { result ≡ g_by n }
{
    if n == 1 {
        return G::Value;
    }
    if n == 2 {
        return G::Square;
    }
    G::One
}

#[tactic(auto, unfolding(crate::specs::Crossing::fidelity_of))]
pub fn fidelity_of(n: u64) -> Fidelity
    ensures { result ≡ fidelity_of n }
{
    if n == 1 {
        return Fidelity::PromotedOnly;
    }
    Fidelity::EveryInsert
}

// The same where the number stands for one.
pub fn known_g(n: u64) -> Option<G>
    ensures { MatchOption result (2 < n) (λ g. (n ≤ 2) × (g ≡ g_by n)) }
{
    (n <= LAST_G).then_some(g_of(n))
}

pub fn known_fidelity(n: u64) -> Option<Fidelity>
    ensures { MatchOption result (1 < n) (λ f. (n ≤ 1) × (f ≡ fidelity_of n)) }
{
    (n <= LAST_FIDELITY).then_some(fidelity_of(n))
}

// ---- headers

// Flags and lengths go through variables here and below: stored straight from a field, an array is not covered by
// the check.
pub fn header_of(h: CHeader) -> Header
    ensures { result ≡ header_of h }
{
    let flags = h.flags;
    let lens = h.lens;
    Header {
        shape: Shape::one_tier(h.heap_size, h.rows, h.cols, h.layers),
        totals: Totals {
            weight: h.weight,
            updates: h.updates,
        },
        mode: mode_of(h.mode),
        flags,
        lens,
    }
}

// The same where its mode's number stands for one.
pub fn known_header(h: CHeader) -> Option<Header>
    ensures { MatchOption result (2 < h.mode) (λ r. (h.mode ≤ 2) × (r ≡ header_of h)) }
{
    if LAST_MODE < h.mode {
        return None;
    }
    Some(header_of(h))
}

impl From<Header> for CHeader {
    ghost from_gives = { λ h c. c ≡ c_header h };

    fn from(h: Header) -> CHeader {
        let lens = h.lens;
        let flags = h.flags;
        CHeader {
            heap_size: h.shape.heap_size,
            rows: h.shape.mouse_rows,
            cols: h.shape.mouse_cols,
            layers: h.shape.layers,
            weight: h.totals.weight,
            updates: h.totals.updates,
            mode: mode_number(h.mode),
            lens,
            flags,
        }
    }
}

// A header without its lengths and flags: shape, totals and mode.
pub fn scalars_of(s: CShape, weight: u64, updates: u64, mode: u64) -> Scalars
    ensures { result ≡ c_scalars s weight updates mode }
{
    Scalars {
        shape: Shape::one_tier(s.heap_size, s.rows, s.cols, s.layers),
        totals: Totals { weight, updates },
        mode: mode_of(mode),
    }
}

pub fn known_scalars(s: CShape, weight: u64, updates: u64, mode: u64) -> Option<Scalars>
    ensures { MatchOption result (2 < mode) (λ r. (mode ≤ 2) × (r ≡ c_scalars s weight updates mode)) }
{
    if LAST_MODE < mode {
        return None;
    }
    Some(scalars_of(s, weight, updates, mode))
}

// ---- answers

// Of a call on these scalars.
pub fn c_step(before: Scalars, answer: Result<Scalars, Refusal>) -> CStep
    ensures { result ≡ c_step (answered_lent_by before answer) }
{
    let scalars = answer.unwrap_or(before);
    CStep {
        refusal: number_in(&answer),
        weight: scalars.totals.weight,
        updates: scalars.totals.updates,
        mode: mode_number(scalars.mode),
    }
}

// Of a call on this header.
pub fn c_answered(before: Header, answer: Result<Header, Refusal>) -> CAnswered
    ensures { result ≡ c_answered (answered_by before answer) }
{
    match answer {
        Ok(header) => CAnswered {
            refusal: 0,
            header: CHeader::from(header),
        },
        Err(refusal) => CAnswered {
            refusal: refusal.number(),
            header: CHeader::from(before),
        },
    }
}

impl From<Result<usize, Refusal>> for CBottom {
    ghost from_gives = { λ b c. c ≡ c_bottom (answer b) };

    fn from(b: Result<usize, Refusal>) -> CBottom {
        match b {
            Ok(layer) => CBottom { refusal: 0, layer },
            Err(refusal) => CBottom {
                refusal: refusal.number(),
                layer: 0,
            },
        }
    }
}

impl From<Result<f64, Refusal>> for CAnswer {
    ghost from_gives = { λ a c. c ≡ c_answer (float_answer a) };

    fn from(a: Result<f64, Refusal>) -> CAnswer {
        match a {
            Ok(value) => CAnswer { refusal: 0, value },
            Err(refusal) => CAnswer {
                refusal: refusal.number(),
                value: 0.0,
            },
        }
    }
}

impl From<PanelAnswer> for CPanel {
    ghost from_gives = { λ a c. c ≡ c_panel a };

    fn from(a: PanelAnswer) -> CPanel {
        CPanel {
            refusal: a.refusal,
            l1: a.l1,
            l2: a.l2,
            cardinality: a.cardinality,
        }
    }
}

impl From<Result<usize, Refusal>> for CWritten {
    ghost from_gives = { λ w c. c ≡ c_written (written_by w) };

    fn from(w: Result<usize, Refusal>) -> CWritten {
        match w {
            Ok(bytes) => CWritten { refusal: 0, bytes },
            Err(refusal) => CWritten {
                refusal: refusal.number(),
                bytes: 0,
            },
        }
    }
}

// What is answered where a number stands for nothing: 9.
pub fn no_answer() -> CAnswer
    ensures { result ≡ c_answer (refused_by 9) }
{
    CAnswer {
        refusal: 9,
        value: 0.0,
    }
}

pub fn no_panel() -> CPanel
    ensures { result ≡ c_panel (no_panel 9) }
{
    CPanel {
        refusal: 9,
        l1: 0.0,
        l2: 0.0,
        cardinality: 0.0,
    }
}
