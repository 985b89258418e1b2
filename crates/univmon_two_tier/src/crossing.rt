// Between C's headers and the library's: one flat struct, with the mode as a number.
ghost use Rattle.header.specs.Answers.{answered_by};
ghost use Rattle.std.specs.Prelude.{◌≡◌, Bool, ℕ, ◌<◌, ◌≤◌, MatchOption};
ghost use Rattle.univmon_two_tier.specs.Crossing.{header_of, c_two_tier, c_answered, c_scalars};

use crate::{CTwoTier, CTwoTierAnswered, CTwoTierShape};
use header::{Header, Scalars, Shape, Totals, mode_number, mode_of};
use refusal::Refusal;
use univmon_c::crossing::LAST_MODE;

pub fn header_of(h: CTwoTier) -> Header
    ensures { result ≡ header_of h }
{
    let flags = h.flags;
    let lens = h.lens;
    Header {
        shape: Shape {
            heap_size: h.heap_size,
            layers: h.layers,
            elephant_layers: h.elephant_layers,
            elephant_rows: h.elephant_rows,
            elephant_cols: h.elephant_cols,
            mouse_rows: h.mouse_rows,
            mouse_cols: h.mouse_cols,
        },
        totals: Totals {
            weight: h.weight,
            updates: h.updates,
        },
        mode: mode_of(h.mode),
        flags,
        lens,
    }
}

// The same where its mode's number stands for one.
pub fn known_header(h: CTwoTier) -> Option<Header>
    ensures { MatchOption result (2 < h.mode) (λ r. (h.mode ≤ 2) × (r ≡ header_of h)) }
{
    if LAST_MODE < h.mode {
        return None;
    }
    Some(header_of(h))
}

impl From<Header> for CTwoTier {
    ghost from_gives = { λ h c. c ≡ c_two_tier h };

    fn from(h: Header) -> CTwoTier {
        let lens = h.lens;
        let flags = h.flags;
        CTwoTier {
            heap_size: h.shape.heap_size,
            layers: h.shape.layers,
            elephant_layers: h.shape.elephant_layers,
            elephant_rows: h.shape.elephant_rows,
            elephant_cols: h.shape.elephant_cols,
            mouse_rows: h.shape.mouse_rows,
            mouse_cols: h.shape.mouse_cols,
            weight: h.totals.weight,
            updates: h.totals.updates,
            mode: mode_number(h.mode),
            lens,
            flags,
        }
    }
}

// Of a call on this header.
pub fn c_answered(before: Header, answer: Result<Header, Refusal>) -> CTwoTierAnswered
    ensures { result ≡ c_answered (answered_by before answer) }
{
    match answer {
        Ok(header) => CTwoTierAnswered {
            refusal: 0,
            header: CTwoTier::from(header),
        },
        Err(refusal) => CTwoTierAnswered {
            refusal: refusal.number(),
            header: CTwoTier::from(before),
        },
    }
}

// A header without its lengths and flags: shape, totals and mode.
pub fn scalars_of(s: CTwoTierShape, weight: u64, updates: u64, mode: u64) -> Scalars
    ensures { result ≡ c_scalars s weight updates mode }
{
    Scalars {
        shape: Shape {
            heap_size: s.heap_size,
            layers: s.layers,
            elephant_layers: s.elephant_layers,
            elephant_rows: s.elephant_rows,
            elephant_cols: s.elephant_cols,
            mouse_rows: s.mouse_rows,
            mouse_cols: s.mouse_cols,
        },
        totals: Totals { weight, updates },
        mode: mode_of(mode),
    }
}

pub fn known_scalars(s: CTwoTierShape, weight: u64, updates: u64, mode: u64) -> Option<Scalars>
    ensures { MatchOption result (2 < mode) (λ r. (mode ≤ 2) × (r ≡ c_scalars s weight updates mode)) }
{
    if LAST_MODE < mode {
        return None;
    }
    Some(scalars_of(s, weight, updates, mode))
}
