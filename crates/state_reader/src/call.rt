// The reader's call.
ghost use Rattle.refusal.specs.Refusals.{kept, refused};
ghost use Rattle.std.specs.Prelude.{◌≡◌, ℕ};
ghost use Rattle.header.specs.Header.{zero_header};
ghost use Rattle.layout.specs.Outcomes.{left};
ghost use Rattle.layout.specs.Lending.{lent_in, lent_out};
ghost use Rattle.state_text.specs.Calls.{read_call};

use crate::judge::judge_layers;
use crate::keeping::keep_layers;
use header::{Header, Shape, Totals};
use layout::lengths_match;
use refusal::Refusal;
use state_lines::heads::{first_at, head_at};

// A state read into the lent slices: 15 for the first line, 1 to 4 for the shape that it says, 16 for the
// lengths of the slices, 15 for the other lines.
pub fn read_state(
    text: &[u8],
    counters: &mut [i64],
    norms: &mut [u64],
    entries: &mut [u64],
    counts: &mut [i64],
) -> Result<Header, Refusal>
    ensures { left (refused result) (lent_out (kept zero_header result) counters norms entries counts)
        ≡ read_call text.now (lent_in zero_header counters norms entries counts) }
{
    let (first, p) = first_at(text, 0).ok_or(Refusal::NotAText)?;
    let shape = Shape::one_tier(
        first.heap as usize,
        first.rows as usize,
        first.cols as usize,
        first.layers as usize,
    );
    shape.check()?;
    if !lengths_match(
        shape,
        counters.len(),
        norms.len(),
        entries.len(),
        counts.len(),
    ) {
        return Err(Refusal::TooShort);
    }
    let (head, q) = head_at(text, p).ok_or(Refusal::NotAText)?;
    let end = judge_layers(text, q, shape).ok_or(Refusal::NotAText)?;
    if end < text.len() {
        return Err(Refusal::NotAText);
    }
    let m = header::mode_of(head.mode);
    let h = Header::fresh(shape)
        .with_totals(Totals {
            weight: head.weight,
            updates: head.updates,
        })
        .with_mode(m);
    Ok(keep_layers(text, q, h, counters, norms, entries, counts))
}
