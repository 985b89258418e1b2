// A state as it is lent to be read, and one layer of it: for functions that only read. Those that write
// keep their slices apart, since a struct that is passed by value cannot lend them to be changed.
ghost use Rattle.std.specs.Prelude.{◌≡◌, ℕ, ◌*◌, ◌<◌, length};
ghost use Rattle.layer.specs.inner.Needs.{Housed};
ghost use Rattle.layout.specs.State.{dims_at, layer_at};
ghost use Rattle.layout.specs.Slices.{view};
ghost use Rattle.layout.specs.inner.Needs.{Standing};
ghost use Rattle.layout.specs.Lending.{lent_read};
ghost use Rattle.layout.specs.inner.Lending.{layer_read};

use crate::parts::{cells_at, norms_at, seats_at, words_at};
use header::Header;
use layer::Dims;

// A header and its four slices.
#[derive(Clone, Copy)]
pub struct LentState<'a> {
    pub header: &'a Header,
    pub counters: &'a [i64],
    pub norms: &'a [u64],
    pub entries: &'a [u64],
    pub counts: &'a [i64],
}

// A layer's parts of the slices, its dimensions, and what the header says of it.
#[derive(Clone, Copy)]
pub struct LentLayer<'a> {
    pub cells: &'a [i64],
    pub norms: &'a [u64],
    pub entries: &'a [u64],
    pub counts: &'a [i64],
    pub dims: Dims,
    pub len: usize,
    pub flag: bool,
}

impl<'a> LentState<'a> {
    // Layer l.
    pub fn layer(self, l: usize) -> LentLayer<'a>
        requires standing { Standing (lent_read self) }
        requires l_lt_layers { l < self.header.now.shape.layers }
        ensures layer { layer_read result ≡ layer_at (view (lent_read self.entry)) l }
        ensures dims { result.dims ≡ dims_at self.entry.header.now.shape l }
        ensures housed { Housed result.dims (length result.cells.now) (length result.norms.now) (length result.counts.now) result.len }
        ensures entries_len { length result.entries.now ≡ 4 * result.dims.size }
    {
        let shape = self.header.shape;
        LentLayer {
            cells: cells_at(shape, l, self.counters),
            norms: norms_at(shape, l, self.norms),
            entries: words_at(shape, l, self.entries),
            counts: seats_at(shape, l, self.counts),
            dims: crate::dims(shape, l),
            len: self.header.lens[l],
            flag: self.header.flags[l],
        }
    }
}
