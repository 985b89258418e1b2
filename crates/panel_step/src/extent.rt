// Whether the panel takes a shape: its slices have room for what the shape uses.
ghost use Rattle.refusal.specs.Refusals.{refused};
ghost use Rattle.std.specs.Prelude.{◌≡◌, Bool, ℕ};
ghost use Rattle.panel_step.specs.Panel.{roomy, panel_refusal};

use header::Shape;
use layout::{Extent, extent_of};
use refusal::Refusal;

// The greatest numbers of counters and of candidates, over all layers.
pub const MAX_COUNTERS: usize = 4096;

pub const MAX_CANDIDATES: usize = 512;

// Whether slices of these lengths have room.
#[tactic(auto, unfolding(crate::specs::Panel::roomy))]
fn has_room(e: Extent, counters: usize, norms: usize, entries: usize, counts: usize) -> bool
    ensures { result ≡ roomy e counters norms entries counts }
{
    e.cells <= counters && e.norms <= norms && e.words <= entries && e.seats <= counts
}

// Whether the panel takes a shape in slices of these lengths.
pub fn check_panel(
    shape: Shape,
    counters: usize,
    norms: usize,
    entries: usize,
    counts: usize,
) -> Result<(), Refusal>
    ensures { refused result ≡ panel_refusal shape counters norms entries counts }
{
    shape.check()?;
    let e = extent_of(shape);
    if e.cells <= MAX_COUNTERS
        && e.seats <= MAX_CANDIDATES
        && has_room(e, counters, norms, entries, counts)
    {
        Ok(())
    } else {
        Err(Refusal::AboveDomain)
    }
}
