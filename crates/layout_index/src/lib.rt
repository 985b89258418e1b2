// Where the tables of layers stand in the index that a caller lends beside a state. For the crates of this
// repository, which show first that the shape is accepted.

#![tactic(auto)]

ghost use Rattle.refusal.specs.Refusals.{refused};
ghost use Rattle.std.specs.Prelude.{◌≡◌, ℕ, ◌+◌, ◌*◌, ◌<◌, length};
ghost use Rattle.words.specs.Tests.{number};
ghost use Rattle.header.specs.inner.Accepted.{Accepted};
ghost use Rattle.layout_index.specs.Tables.{table_length, tables_in, table_at, indexed_tests};
ghost use Rattle.layout.specs.Slices.{lent};

use header::{Header, Shape};
use refusal::Refusal;

// Where a layer's table begins and ends.
#[derive(Clone, Copy)]
pub struct TableSpan {
    pub start: usize,
    pub end: usize,
}

// The places of all tables.
pub fn tables_in(shape: Shape) -> usize
    requires { Accepted shape }
    ensures { result ≡ tables_in shape }
{
    heap_index::index_length(shape.heap_size) * shape.layers
}

pub fn table_span(shape: Shape, l: usize) -> TableSpan
    requires accepted { Accepted shape }
    requires l_lt_layers { l < shape.layers }
    ensures { (result.start ≡ table_length shape * l) × (result.end ≡ table_length shape * l + table_length shape) }
{
    let m = heap_index::index_length(shape.heap_size);
    let start = m * l;
    TableSpan {
        start,
        end: start + m,
    }
}

// The table of layer l.
pub fn table_at(shape: Shape, l: usize, index: &[u64]) -> &[u64]
    requires accepted { Accepted shape }
    requires l_lt_layers { l < shape.layers }
    requires index_len { length index.now ≡ tables_in shape }
    ensures { result.now ≡ table_at shape index.now l }
{
    let s = table_span(shape, l);
    &index[s.start..s.end]
}

// Whether a header is in range, and slices and index are its shape's: 9.
pub fn check_indexed(
    h: Header,
    counters: &[i64],
    norms: &[u64],
    entries: &[u64],
    counts: &[i64],
    index: &[u64],
) -> Result<(), Refusal>
    ensures { refused result ≡ number (indexed_tests (lent h counters.now norms.now entries.now counts.now) index.now) }
{
    layout::check_lent(h, counters, norms, entries, counts)?;
    if index.len() != tables_in(h.shape) {
        return Err(Refusal::OutOfRange);
    }
    Ok(())
}
