// The lookup of a key.
ghost use Rattle.std.specs.Prelude.{◌≡◌, length};
ghost use Rattle.heap.specs.inner.Slices.{table_of};
ghost use Rattle.heap_index.specs.inner.Needs.{Cover};
ghost use Rattle.indexed_state.specs.Lookups.{looked, look_in, lookup_call};
ghost use Rattle.layout.specs.Slices.{lent};

use crate::LookedUp;
use header::Header;
use heap_index::Lookup;
use layout::LentState;
use layout_index::{check_indexed, table_at};
use refusal::Refusal;

// The lookup of a key in one layer's table: 9 for what it visits.
fn look_in(
    index: &[u64],
    entries: &[u64],
    counts: &[i64],
    len: usize,
    key: u64,
) -> Result<LookedUp, Refusal>
    requires { Cover (length entries.now) (length counts.now) len }
    ensures { looked result ≡ look_in index.now (table_of entries.now counts.now len) key }
{
    let Some(l) = heap_index::look(index, entries, counts, len, key) else {
        return Err(Refusal::OutOfRange);
    };
    match l {
        Lookup::Met(p, d) => {
            let entry = index[p] as usize - 1;
            Ok(LookedUp {
                entry: Some(entry),
                probes: d,
            })
        }
        Lookup::Vacant(_, d) => Ok(LookedUp {
            entry: None,
            probes: d,
        }),
    }
}

// A key is looked up in the index of a layer: 9, 8, 9. Nothing but the table's places and the candidates that
// they name is read.
pub fn lookup(
    header: Header,
    counters: &[i64],
    norms: &[u64],
    entries: &[u64],
    counts: &[i64],
    index: &[u64],
    layer: usize,
    key: u64,
) -> Result<LookedUp, Refusal>
    ensures { looked result ≡ lookup_call (lent header counters.now norms.now entries.now counts.now) index.now layer key }
{
    check_indexed(header, counters, norms, entries, counts, index)?;
    let shape = header.shape;
    if shape.layers <= layer {
        return Err(Refusal::OutsideShape);
    }
    let state = LentState {
        header: &header,
        counters,
        norms,
        entries,
        counts,
    };
    let part = state.layer(layer);
    look_in(
        table_at(shape, layer, index),
        part.entries,
        part.counts,
        part.len,
        key,
    )
}
