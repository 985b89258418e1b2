// Where layers stand in the slices that a caller lends, and hashes in a key's record. For the crates of
// this repository, which show first that the shape is accepted.

#![tactic(auto)]

mod lending;
mod lists;
mod parts;

ghost use Rattle.std.specs.Prelude.{◌≡◌, ℕ, ◌+◌, ◌*◌, ◌≤◌, ◌<◌, length};
ghost use Rattle.words.specs.Tests.{number};
ghost use Rattle.refusal.specs.Refusals.{refused};
ghost use Rattle.header.specs.Shape.{max_layers};
ghost use Rattle.header.specs.inner.Accepted.{Accepted};
ghost use Rattle.layout.specs.State.{dims_at, cell_off, norm_off};
ghost use Rattle.layout.specs.Slices.{lengths_ok, extent_of, lent};
ghost use Rattle.layout.specs.Outcomes.{lent_tests};
ghost use Rattle.layout.specs.inner.Spans.{span_of};
ghost use Rattle.layout.specs.Records.{item_at};

use header::{Header, Shape};
use heap_moves::Item;
use layer::Dims;
pub use lending::{LentLayer, LentState};
pub use lists::zero_places;
pub use parts::{cells_at, norms_at, seats_at, words_at};
use refusal::Refusal;

// Counters, norm words, entry words and counts of a shape.
#[derive(Clone, Copy, PartialEq, Eq)]
pub struct Extent {
    pub cells: usize,
    pub norms: usize,
    pub words: usize,
    pub seats: usize,
}

// Counters and rows of the layers before one.
#[derive(Clone, Copy)]
struct Start {
    cells: usize,
    rows: usize,
}

fn start_of(shape: Shape, l: usize) -> Start
    requires accepted { Accepted shape }
    requires l_le_layers { l ≤ shape.layers }
    ensures { (result.cells ≡ cell_off shape l) × (result.rows ≡ norm_off shape l) }
{
    let elephants = l.min(shape.elephant_layers);
    let mice = l - elephants;
    let elephant_rows = elephants * shape.elephant_rows;
    let mouse_rows = mice * shape.mouse_rows;
    Start {
        cells: elephant_rows * shape.elephant_cols + mouse_rows * shape.mouse_cols,
        rows: elephant_rows + mouse_rows,
    }
}

pub fn extent_of(shape: Shape) -> Extent
    requires { Accepted shape }
    ensures { result ≡ extent_of shape }
{
    let end = start_of(shape, shape.layers);
    let seats = shape.layers * shape.heap_size;
    Extent {
        cells: end.cells,
        norms: 2 * end.rows,
        words: 4 * seats,
        seats,
    }
}

// Whether four slices of these lengths are a shape's.
pub fn lengths_match(
    shape: Shape,
    counters: usize,
    norms: usize,
    entries: usize,
    counts: usize,
) -> bool
    requires { Accepted shape }
    ensures { result ≡ lengths_ok shape counters norms entries counts }
{
    let lent = Extent {
        cells: counters,
        norms,
        words: entries,
        seats: counts,
    };
    lent == extent_of(shape)
}

// Whether a header is in range and four slices are its shape's: 9.
pub fn check_lent(
    h: Header,
    counters: &[i64],
    norms: &[u64],
    entries: &[u64],
    counts: &[i64],
) -> Result<(), Refusal>
    ensures { refused result ≡ number (lent_tests (lent h counters.now norms.now entries.now counts.now)) }
{
    if !h.in_range() {
        return Err(Refusal::OutOfRange);
    }
    if !lengths_match(
        h.shape,
        counters.len(),
        norms.len(),
        entries.len(),
        counts.len(),
    ) {
        return Err(Refusal::OutOfRange);
    }
    Ok(())
}

// Where a part of a slice begins and ends. Copy, as a Range is not.
#[derive(Clone, Copy)]
pub struct Part {
    pub start: usize,
    pub end: usize,
}

// Where a layer's counters, norm words, entry words and counts stand.
#[derive(Clone, Copy)]
pub struct Span {
    pub cells: Part,
    pub norms: Part,
    pub words: Part,
    pub seats: Part,
}

pub fn span_of(shape: Shape, l: usize) -> Span
    requires accepted { Accepted shape }
    requires l_lt_layers { l < shape.layers }
    ensures { result ≡ span_of shape l }
{
    let start = start_of(shape, l);
    let d = dims(shape, l);
    let cells = start.cells;
    let norms = 2 * start.rows;
    let seats = l * d.size;
    let words = 4 * seats;
    Span {
        cells: Part {
            start: cells,
            end: cells + d.rows * d.cols,
        },
        norms: Part {
            start: norms,
            end: norms + 2 * d.rows,
        },
        words: Part {
            start: words,
            end: words + 4 * d.size,
        },
        seats: Part {
            start: seats,
            end: seats + d.size,
        },
    }
}

// Rows, columns and heap size of a layer.
pub fn dims(shape: Shape, l: usize) -> Dims
    ensures { result ≡ dims_at shape l }
{
    let (rows, cols) = if l < shape.elephant_layers {
        (shape.elephant_rows, shape.elephant_cols)
    } else {
        (shape.mouse_rows, shape.mouse_cols)
    };
    Dims {
        rows,
        cols,
        size: shape.heap_size,
    }
}

// The item that a record names, with the hash of layer l.
pub fn item_in(record: &[u64], l: usize) -> Item
    requires { (l < max_layers) × (4 + 2 * l ≤ length «record».now) }
    ensures { result ≡ item_at «record».now l }
{
    let at = 2 + 2 * l;
    Item {
        key: record[0],
        bottom: record[1],
        high: record[at],
        low: record[at + 1],
    }
}
