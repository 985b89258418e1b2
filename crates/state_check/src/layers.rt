// The check of a state: header and lengths, then layer by layer.
ghost use Rattle.std.specs.Prelude.{◌≡◌, ℕ, ◌*◌, length};
ghost use Rattle.layer.specs.inner.Needs.{Housed};
ghost use Rattle.layout.specs.Slices.{view, lent};
ghost use Rattle.layout.specs.inner.Needs.{Standing};
ghost use Rattle.layout.specs.Lending.{lent_read};
ghost use Rattle.layout.specs.inner.Lending.{layer_read};
ghost use Rattle.state_check.specs.Check.{layer_ok, layers_ok, state_ok};

use crate::candidates::seats_ok;
use crate::rows::rows_ok;
use header::Header;
use layout::{LentLayer, LentState};

// The check of one layer.
fn layer_ok(layer: LentLayer) -> bool
    requires housed { Housed layer.dims (length layer.cells.now) (length layer.norms.now) (length layer.counts.now) layer.len }
    requires entries_len { length layer.entries.now ≡ 4 * layer.dims.size }
    ensures { result ≡ layer_ok layer.entry.dims (layer_read layer.entry) }
{
    let dims = layer.dims;
    rows_ok(layer.cells, layer.norms, dims.rows, dims.cols)
        && seats_ok(layer.entries, layer.counts, dims.size, layer.len)
}

// The check of every layer.
fn layers_ok(state: LentState) -> bool
    requires { Standing (lent_read state) }
    ensures { result ≡ layers_ok (view (lent_read state.entry)) }
{
    (0..state.header.shape.layers).all(|l| layer_ok(state.layer(l)))
}

// Yes exactly if lengths and ranges hold, each norm equals its row's sum, no count in a layer is
// below its heap parent's, and unused entries are zero.
pub fn check_state(
    header: Header,
    counters: &[i64],
    norms: &[u64],
    entries: &[u64],
    counts: &[i64],
) -> bool
    ensures { result ≡ state_ok (lent header counters.now norms.now entries.now counts.now) }
{
    header.in_range()
        && layout::lengths_match(
            header.shape,
            counters.len(),
            norms.len(),
            entries.len(),
            counts.len(),
        )
        && layers_ok(LentState {
            header: &header,
            counters,
            norms,
            entries,
            counts,
        })
}
