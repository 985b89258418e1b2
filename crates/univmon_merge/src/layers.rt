// The layers of a second state merged into those of a first, once everything is judged. No norm of the
// second is read.
ghost use Rattle.std.specs.Prelude.{◌≡◌, ◌&&◌, ◌*◌, ◌≤◌, length, leb};
ghost use Rattle.layout.specs.State.{layer_at, put_layer, over_layers};
ghost use Rattle.layout.specs.Slices.{view, lent};
ghost use Rattle.layout.specs.inner.Needs.{Standing};
ghost use Rattle.layout.specs.inner.Telling.{put_places, tell_layers};
ghost use Rattle.layout.specs.Lending.{lent_in, lent_out, lent_read};
ghost use Rattle.univmon_merge.specs.inner.Pairs.{MergeReady, MergesReady, merges_with, answers_with};

use header::Header;
use layout::{LentState, dims, span_of};

// Whether no key was lost: the other layer's flag, and a seat for every distinct key.
pub fn seated(flag: bool, keys: usize, size: usize) -> bool
    ensures { result ≡ flag && leb keys size }
{
    flag && keys <= size
}

// Merges one layer; its places in the list tell what was done with each key.
fn merge_one(
    h: Header,
    counters: &mut [i64],
    norms: &mut [u64],
    entries: &mut [u64],
    counts: &mut [i64],
    other: LentState,
    l: usize,
    list: &mut [u64],
) -> Header
    requires merge_ready { MergeReady (lent h counters.old norms.old entries.old counts.old) (lent_read other) l }
    requires layers_in_bounds { 4 * h.shape.heap_size * h.shape.layers ≤ length list.old }
    ensures counts_value { view (lent_out result counters norms entries counts)
        ≡ put_layer (view (lent_in h counters norms entries counts)) l
        (merges_with h.shape (view (lent_read other.entry)) l
        (layer_at (view (lent_in h counters norms entries counts)) l)) }
    ensures standing { Standing (lent_out result counters norms entries counts) }
    ensures list_after { list.new
        ≡ put_places (2 * h.shape.heap_size) list.old l
        (answers_with (view (lent_in h counters norms entries counts)) (view (lent_read other.entry)) l) }
{
    let shape = h.shape;
    let s = span_of(shape, l);
    let d = dims(shape, l);
    let lens = h.lens;
    let len = lens[l];
    let second = other.layer(l);
    let ca = s.cells.start;
    let ce = s.cells.end;
    let na = s.norms.start;
    let ne = s.norms.end;
    let ea = s.words.start;
    let ee = s.words.end;
    let ta = s.seats.start;
    let te = s.seats.end;
    let width = 4 * shape.heap_size;
    let pa = width * l;
    let pe = pa + width;
    let m = layer::merge(
        &mut counters[ca..ce],
        &mut norms[na..ne],
        &mut entries[ea..ee],
        &mut counts[ta..te],
        &mut list[pa..pe],
        d,
        len,
        second.cells,
        second.entries,
        second.len,
    );
    let whole = seated(second.flag, m.keys, shape.heap_size);
    h.touched(l, m.len, whole)
}

// Merges many layers from the first on; the list has the places of every layer.
pub fn merge_layers(
    h: Header,
    counters: &mut [i64],
    norms: &mut [u64],
    entries: &mut [u64],
    counts: &mut [i64],
    other: LentState,
    many: usize,
    list: &mut [u64],
) -> Header
    requires merges_ready { MergesReady (lent h counters.old norms.old entries.old counts.old) (lent_read other) many }
    requires layers_in_bounds { 4 * h.shape.heap_size * h.shape.layers ≤ length list.old }
    ensures counts_value { view (lent_out result counters norms entries counts)
        ≡ over_layers (merges_with h.shape (view (lent_read other.entry))) many 0
        (view (lent_in h counters norms entries counts)) }
    ensures standing { Standing (lent_out result counters norms entries counts) }
    ensures list_after { list.new
        ≡ tell_layers (2 * h.shape.heap_size)
        (answers_with (view (lent_in h counters norms entries counts)) (view (lent_read other.entry))) many 0 list.old }
{
    let mut header = h;
    for l in 0..many {
        header = merge_one(header, counters, norms, entries, counts, other, l, list);
    }
    header
}
