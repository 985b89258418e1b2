// A layer's parts of shared slices: for functions that only read. Those that write take `span_of`.
ghost use Rattle.std.specs.Prelude.{◌≡◌, ℕ, ◌*◌, ◌<◌, length};
ghost use Rattle.words.specs.Parts.{part};
ghost use Rattle.header.specs.inner.Accepted.{Accepted};
ghost use Rattle.layout.specs.State.{rows_at, cols_at, cell_off, norm_off, cand_off};
ghost use Rattle.layout.specs.Slices.{cells_in, norms_in, cands_in};

use crate::span_of;
use header::Shape;

// The counters of layer l.
pub fn cells_at(shape: Shape, l: usize, counters: &[i64]) -> &[i64]
    requires accepted { Accepted shape }
    requires l_lt_layers { l < shape.layers }
    requires counters_len { length counters.now ≡ cells_in shape }
    ensures { result.now ≡ part (cell_off shape l) (rows_at shape l * cols_at shape l) counters.now }
{
    let s = span_of(shape, l);
    &counters[s.cells.start..s.cells.end]
}

// Its norm words.
pub fn norms_at(shape: Shape, l: usize, norms: &[u64]) -> &[u64]
    requires accepted { Accepted shape }
    requires l_lt_layers { l < shape.layers }
    requires norms_len { length norms.now ≡ 2 * norms_in shape }
    ensures { result.now ≡ part (2 * norm_off shape l) (2 * rows_at shape l) norms.now }
{
    let s = span_of(shape, l);
    &norms[s.norms.start..s.norms.end]
}

// Its entry words.
pub fn words_at(shape: Shape, l: usize, entries: &[u64]) -> &[u64]
    requires accepted { Accepted shape }
    requires l_lt_layers { l < shape.layers }
    requires entries_len { length entries.now ≡ 4 * cands_in shape }
    ensures { result.now ≡ part (4 * cand_off shape l) (4 * shape.heap_size) entries.now }
{
    let s = span_of(shape, l);
    &entries[s.words.start..s.words.end]
}

// Its counts.
pub fn seats_at(shape: Shape, l: usize, counts: &[i64]) -> &[i64]
    requires accepted { Accepted shape }
    requires l_lt_layers { l < shape.layers }
    requires counts_len { length counts.now ≡ cands_in shape }
    ensures { result.now ≡ part (cand_off shape l) shape.heap_size counts.now }
{
    let s = span_of(shape, l);
    &counts[s.seats.start..s.seats.end]
}
