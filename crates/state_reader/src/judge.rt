// Every layer's lines judged, into working space of its own: nothing that is lent is touched.
ghost use Rattle.std.specs.Prelude.{◌≡◌, ℕ, ◌*◌, ◌≤◌, length, drop};
ghost use Rattle.header.specs.inner.Accepted.{Accepted};
ghost use Rattle.state_forms.specs.Grammar.{page_format, pages_r};
ghost use Rattle.state_lines.specs.inner.Places.{spot, forget};
ghost use Rattle.state_text.specs.Pages.{dims_of, frame_of};
ghost use Rattle.state_reader.specs.inner.Paged.{Small};

use crate::page::read_page;
use header::Shape;
use layer::Dims;

// One layer, in as much of the space as it has candidates.
fn judge_page(
    s: &[u8],
    at: usize,
    l: usize,
    dims: Dims,
    words: &mut [u64],
    seats: &mut [i64],
) -> Option<usize>
    requires small { Small dims }
    requires size_in_bounds { (4 * dims.size ≤ length words.old) × (dims.size ≤ length seats.old) }
    ensures { spot s.now result ≡ forget ((page_format (frame_of dims) l).read (drop at s.now)) }
{
    let mut nothing = [0i64; 1];
    let n = dims.size;
    let e = 4 * n;
    let (_, end) = read_page(
        s,
        at,
        l,
        dims,
        &mut nothing,
        &mut words[..e],
        &mut seats[..n],
    )?;
    Some(end)
}

// Every layer.
pub fn judge_layers(s: &[u8], at: usize, shape: Shape) -> Option<usize>
    requires { Accepted shape }
    ensures { spot s.now result ≡ forget (pages_r (frame_of (dims_of shape)) 0 shape.layers (drop at s.now)) }
{
    let mut words = [0u64; 4 * Shape::MAX_HEAP_SIZE];
    let mut seats = [0i64; Shape::MAX_HEAP_SIZE];
    let dims = Dims {
        rows: shape.mouse_rows,
        cols: shape.mouse_cols,
        size: shape.heap_size,
    };
    let mut p = at;
    for l in 0..shape.layers {
        p = judge_page(s, p, l, dims, &mut words, &mut seats)?;
    }
    Some(p)
}
