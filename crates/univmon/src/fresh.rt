// States with nothing counted.
ghost use Rattle.refusal.specs.Refusals.{kept, refused};
ghost use Rattle.header.specs.Header.{zero_header};
ghost use Rattle.std.specs.Prelude.{◌≡◌, length, replicate, pos};
ghost use Rattle.header.specs.Shape.{two_tier, shape_refusal};
ghost use Rattle.header.specs.OneTier.{one_tier};
ghost use Rattle.layout.specs.Outcomes.{left, left_after};
ghost use Rattle.layout.specs.Lending.{lent_in, lent_out};
ghost use Rattle.univmon.specs.Calls.{new_call, clear_call};

use header::{Header, Shape};
use layout::{check_lent, lengths_match};
use refusal::Refusal;

fn zero_all(counters: &mut [i64], norms: &mut [u64], entries: &mut [u64], counts: &mut [i64])
    ensures counters_after { counters.new ≡ replicate (length counters.old) (pos 0) }
    ensures norms_after { norms.new ≡ replicate (length norms.old) 0 }
    ensures entries_after { entries.new ≡ replicate (length entries.old) 0 }
    ensures counts_after { counts.new ≡ replicate (length counts.old) (pos 0) }
{
    counters.fill(0);
    norms.fill(0);
    entries.fill(0);
    counts.fill(0);
}

// A fresh state in lent slices, of a shape that the constructor let pass: 9 for the lengths.
fn start(
    shape: Shape,
    counters: &mut [i64],
    norms: &mut [u64],
    entries: &mut [u64],
    counts: &mut [i64],
) -> Result<Header, Refusal>
    requires { shape_refusal shape ≡ 0 }
    ensures { left (refused result) (lent_out (kept zero_header result) counters norms entries counts)
        ≡ new_call shape counters.old norms.old entries.old counts.old }
{
    if !lengths_match(
        shape,
        counters.len(),
        norms.len(),
        entries.len(),
        counts.len(),
    ) {
        return Err(Refusal::OutOfRange);
    }
    zero_all(counters, norms, entries, counts);
    Ok(Header::fresh(shape))
}

// A fresh state of the four dimensions of `UnivMon`, all of whose layers are alike: 1, 2, 3, 4 for the
// dimensions, 9 for the lengths.
pub fn new(
    heap_size: usize,
    rows: usize,
    cols: usize,
    layers: usize,
    counters: &mut [i64],
    norms: &mut [u64],
    entries: &mut [u64],
    counts: &mut [i64],
) -> Result<Header, Refusal>
    ensures { left (refused result) (lent_out (kept zero_header result) counters norms entries counts)
        ≡ new_call (one_tier heap_size rows cols layers) counters.old norms.old entries.old counts.old }
{
    let shape = Shape::new_one_tier(heap_size, rows, cols, layers)?;
    start(shape, counters, norms, entries, counts)
}

// The same of the seven dimensions of `UnivMonTwoTier`, in the source's order.
pub fn new_two_tier(
    heap_size: usize,
    elephant_layers: usize,
    elephant_rows: usize,
    elephant_cols: usize,
    mouse_rows: usize,
    mouse_cols: usize,
    layers: usize,
    counters: &mut [i64],
    norms: &mut [u64],
    entries: &mut [u64],
    counts: &mut [i64],
) -> Result<Header, Refusal>
    ensures { left (refused result) (lent_out (kept zero_header result) counters norms entries counts)
        ≡ new_call (two_tier heap_size elephant_layers elephant_rows elephant_cols mouse_rows mouse_cols layers) counters.old norms.old entries.old counts.old }
{
    let shape = Shape::new(
        heap_size,
        elephant_layers,
        elephant_rows,
        elephant_cols,
        mouse_rows,
        mouse_cols,
        layers,
    )?;
    start(shape, counters, norms, entries, counts)
}

// Nothing counted any more: 9 for the header and the lengths.
pub fn clear(
    header: Header,
    counters: &mut [i64],
    norms: &mut [u64],
    entries: &mut [u64],
    counts: &mut [i64],
) -> Result<Header, Refusal>
    ensures { left (refused result) (lent_out (kept header result) counters norms entries counts)
        ≡ left_after (λ s. clear_call s) (lent_in header counters norms entries counts) }
{
    check_lent(header, &*counters, &*norms, &*entries, &*counts)?;
    zero_all(counters, norms, entries, counts);
    Ok(Header::fresh(header.shape))
}
