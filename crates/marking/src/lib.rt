// Marks on a header that is lent.

#![tactic(auto)]

ghost use Rattle.refusal.specs.Refusals.{refused};
ghost use Rattle.std.specs.Prelude.{◌≡◌};
ghost use Rattle.univmon.specs.Calls.{mark_layer_call};

use header::Header;
use refusal::Refusal;

// Marks one layer's candidates as partial, on a header that is lent: 9, then 8 for a layer outside.
// One flag changes and nothing else; a refused mark changes nothing.
pub fn mark_layer_lent(header: &mut Header, layer: usize) -> Result<(), Refusal>
    ensures { (refused result ≡ (mark_layer_call header.old layer).refusal) × (header.new ≡ (mark_layer_call header.old layer).header) }
{
    *header = univmon::mark_layer_candidates_incomplete(*header, layer)?;
    Ok(())
}
