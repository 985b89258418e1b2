// The check of a state with its index: that of the state, then the index's length, then table by table.
ghost use Rattle.std.specs.Prelude.{◌≡◌, ℕ, ◌<◌};
ghost use Rattle.layout.specs.State.{layer_at};
ghost use Rattle.layout.specs.Slices.{view, lent};
ghost use Rattle.layout.specs.Lending.{lent_read};
ghost use Rattle.layout_index.specs.Tables.{table_at};
ghost use Rattle.layout_index.specs.inner.Needs.{StandingIn};
ghost use Rattle.indexed_state.specs.Check.{table_ok, tables_ok, indexed_ok};

use header::Header;
use layout::LentState;
use layout_index::{table_at, tables_in};

// The check of layer l's table.
fn table_ok(state: LentState, index: &[u64], l: usize) -> bool
    requires standing_in { StandingIn (lent_read state) index.now }
    requires l_lt_layers { l < state.header.now.shape.layers }
    ensures { result ≡ table_ok (table_at state.entry.header.now.shape index.now l) (layer_at (view (lent_read state.entry)) l) }
{
    let layer = state.layer(l);
    heap_index::index_ok(
        table_at(state.header.shape, l, index),
        layer.entries,
        layer.counts,
        layer.len,
    )
}

// The check of every table.
fn tables_ok(state: LentState, index: &[u64]) -> bool
    requires { StandingIn (lent_read state) index.now }
    ensures { result ≡ tables_ok (view (lent_read state.entry)) index.now }
{
    (0..state.header.shape.layers).all(|l| table_ok(state, index, l))
}

// Yes exactly if the state passes its check, and each layer's table holds exactly the layer's candidates, each
// once and where its key's lookup ends.
pub fn check_indexed_state(
    header: Header,
    counters: &[i64],
    norms: &[u64],
    entries: &[u64],
    counts: &[i64],
    index: &[u64],
) -> bool
    ensures { result ≡ indexed_ok (lent header counters.now norms.now entries.now counts.now) index.now }
{
    state_check::check_state(header, counters, norms, entries, counts)
        && index.len() == tables_in(header.shape)
        && tables_ok(
            LentState {
                header: &header,
                counters,
                norms,
                entries,
                counts,
            },
            index,
        )
}
