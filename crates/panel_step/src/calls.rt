// The three requests on the panel's state: a header, and slices of which its shape uses the front.
ghost use Rattle.refusal.specs.Refusals.{kept, refused};
ghost use Rattle.std.specs.Prelude.{◌≡◌, ℕ, ◌≤◌, length};
ghost use Rattle.std.proofs.lemmas.List.Edits.{sets};
ghost use Rattle.header.specs.Shape.{max_layers};
ghost use Rattle.layout.specs.Outcomes.{left};
ghost use Rattle.layout.specs.Lending.{lent_in, lent_out};
ghost use Rattle.estimates.specs.Calls.{panel_call};
ghost use Rattle.panel_lines.specs.Answers.{show_bytes};
ghost use Rattle.panel_step.specs.Panel.{shape_call, add_call, show_line, panel_text, updates_digits};
ghost use Rattle.layout.specs.Slices.{lent};

use crate::extent::check_panel;
use header::{Header, Shape};
use layout::extent_of;
use panel_lines::answer::{put_refused, put_show};
use refusal::Refusal;

// Starts afresh with a shape, or refuses it.
pub fn start(
    header: Header,
    counters: &mut [i64],
    norms: &mut [u64],
    entries: &mut [u64],
    counts: &mut [i64],
    shape: Shape,
) -> Result<Header, Refusal>
    ensures { left (refused result) (lent_out (kept header result) counters norms entries counts)
        ≡ shape_call (lent_in header counters norms entries counts) shape }
{
    check_panel(
        shape,
        counters.len(),
        norms.len(),
        entries.len(),
        counts.len(),
    )?;
    let e = extent_of(shape);
    univmon::new_two_tier(
        shape.heap_size,
        shape.elephant_layers,
        shape.elephant_rows,
        shape.elephant_cols,
        shape.mouse_rows,
        shape.mouse_cols,
        shape.layers,
        &mut counters[..e.cells],
        &mut norms[..e.norms],
        &mut entries[..e.words],
        &mut counts[..e.seats],
    )
}

// A standard update with a record and a weight, or 13 before a shape. The list of what it did is its own.
pub fn add(
    header: Header,
    counters: &mut [i64],
    norms: &mut [u64],
    entries: &mut [u64],
    counts: &mut [i64],
    record: &[u64],
    weight: i64,
) -> Result<Header, Refusal>
    ensures { left (refused result) (lent_out (kept header result) counters norms entries counts)
        ≡ add_call (lent_in header counters norms entries counts) «record».now weight }
{
    let shape = header.shape;
    if check_panel(
        shape,
        counters.len(),
        norms.len(),
        entries.len(),
        counts.len(),
    )
    .is_err()
    {
        // before a shape
        return Err(Refusal::Unreadable);
    }
    let e = extent_of(shape);
    let mut list = [0u64; 2 * Shape::MAX_LAYERS];
    univmon::update_weighted(
        header,
        &mut counters[..e.cells],
        &mut norms[..e.norms],
        &mut entries[..e.words],
        &mut counts[..e.seats],
        record,
        weight,
        &mut list,
    )
}

// Writes what a shaped state shows.
fn show_parts(
    header: Header,
    counters: &[i64],
    norms: &[u64],
    entries: &[u64],
    counts: &[i64],
    out: &mut [u8],
) -> usize
    requires layers_le_max_layers { header.shape.layers ≤ max_layers }
    requires updates_digits_in_bounds { show_bytes max_layers updates_digits ≤ length out.old }
    ensures value { result ≡ length (panel_text header (panel_call (lent header counters.now norms.now entries.now counts.now))) }
    ensures out_after { out.new
        ≡ sets out.old 0 (panel_text header (panel_call (lent header counters.now norms.now entries.now counts.now))) }
    ensures upper_bound { result ≤ show_bytes max_layers updates_digits }
{
    let a = estimates::panel_answer(header, counters, norms, entries, counts);
    if a.refusal != 0 {
        return put_refused(out, a.refusal);
    }
    let l1 = float64::to_bits(a.l1);
    let l2 = float64::to_bits(a.l2);
    let keys = float64::to_bits(a.cardinality);
    let flags = header.flags;
    let layers = header.shape.layers;
    put_show(out, l1, l2, keys, &flags[..layers], header.totals.updates)
}

// Writes the three answers, the flags and the number of updates.
pub fn show(
    header: Header,
    counters: &[i64],
    norms: &[u64],
    entries: &[u64],
    counts: &[i64],
    out: &mut [u8],
) -> usize
    requires { show_bytes max_layers updates_digits ≤ length out.old }
    ensures value { result ≡ length (show_line (lent header counters.now norms.now entries.now counts.now)) }
    ensures out_after { out.new ≡ sets out.old 0 (show_line (lent header counters.now norms.now entries.now counts.now)) }
    ensures upper_bound { result ≤ show_bytes max_layers updates_digits }
{
    let shape = header.shape;
    if check_panel(
        shape,
        counters.len(),
        norms.len(),
        entries.len(),
        counts.len(),
    )
    .is_err()
    {
        // before a shape
        return put_refused(out, Refusal::Unreadable.number());
    }
    let e = extent_of(shape);
    show_parts(
        header,
        &counters[..e.cells],
        &norms[..e.norms],
        &entries[..e.words],
        &counts[..e.seats],
        out,
    )
}
