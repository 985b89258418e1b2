// The calls on a header alone.
ghost use Rattle.header.specs.Answers.{answered_by};
ghost use Rattle.std.specs.Prelude.{◌≡◌};
ghost use Rattle.univmon.specs.Calls.{weight_call, mark_call, mark_layer_call};

use header::{Header, Mode};
use refusal::Refusal;

// Sets the weight that a relay fed by deltas believes it has seen: 9, 6 in terminal mode, 7.
pub fn set_total_weight(header: Header, weight: u64) -> Result<Header, Refusal>
    ensures { answered_by header result ≡ weight_call header weight }
{
    if !header.in_range() {
        return Err(Refusal::OutOfRange);
    }
    let mode = header.mode;
    if header::clashes(mode, Mode::Standard) {
        return Err(Refusal::MixedModes);
    }
    if words::MAX_WEIGHT < weight {
        return Err(Refusal::WeightAbove);
    }
    Ok(Header {
        totals: header.totals.with_weight(weight),
        mode: header::join(mode, Mode::Standard),
        ..header
    })
}

// Marks every layer's candidates as partial: 9.
pub fn mark_candidates_incomplete(header: Header) -> Result<Header, Refusal>
    ensures { answered_by header result ≡ mark_call header }
{
    if !header.in_range() {
        return Err(Refusal::OutOfRange);
    }
    Ok(header.clear_flags())
}

// Marks one layer's candidates as partial: 9, then 8 for a layer outside.
pub fn mark_layer_candidates_incomplete(header: Header, layer: usize) -> Result<Header, Refusal>
    ensures { answered_by header result ≡ mark_layer_call header layer }
{
    if !header.in_range() {
        return Err(Refusal::OutOfRange);
    }
    if header.shape.layers <= layer {
        return Err(Refusal::OutsideShape);
    }
    Ok(header.clear_flag(layer))
}
