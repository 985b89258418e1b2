// A state's text, laid from the first line on.
ghost use Rattle.std.specs.Prelude.{◌≡◌, ℕ, ◌*◌, length};
ghost use Rattle.header.specs.OneTier.{OneTiered};
ghost use Rattle.layer.specs.inner.Needs.{Housed};
ghost use Rattle.layout.specs.Slices.{view, lent};
ghost use Rattle.layout.specs.inner.Needs.{Standing};
ghost use Rattle.layout.specs.Lending.{lent_read};
ghost use Rattle.layout.specs.inner.Lending.{layer_read};
ghost use Rattle.state_forms.specs.Grammar.{first_format, num_line, head_format, page_format, pages_text};
ghost use Rattle.state_forms.specs.inner.Laying.{TextRoom, LaidText};
ghost use Rattle.state_text.specs.Pages.{first_of, dims_of, frame_of, page_of, pages_of, text_of};
ghost use Rattle.state_text.specs.Calls.{copied, write_call, written_by};

use header::{Header, Shape, Totals};
use layout::{LentLayer, LentState};
use refusal::Refusal;
use state_forms::keys::lay_page;
use state_forms::lay::{lay_number, lay_word};

// `(WORD N)` and a newline.
fn lay_line(out: &mut [u8], at: usize, word: &[u8], n: u64) -> usize
    requires { TextRoom at ((num_line word.now 0).write n) }
    ensures { LaidText out.old at ((num_line word.now 0).write n) out.new result }
{
    let a = lay_word(out, at, word);
    let b = lay_number(out, a, n, b')');
    lay_word(out, b, b"\n")
}

// `(univmon HEAP ROWS COLS LAYERS)`
fn lay_first(out: &mut [u8], at: usize, shape: Shape) -> usize
    requires { TextRoom at (first_format.write (first_of shape)) }
    ensures { LaidText out.old at (first_format.write (first_of shape)) out.new result }
{
    let a = lay_word(out, at, b"(univmon ");
    let b = lay_number(out, a, shape.heap_size as u64, b' ');
    let d = lay_number(out, b, shape.mouse_rows as u64, b' ');
    let e = lay_number(out, d, shape.mouse_cols as u64, b' ');
    let f = lay_number(out, e, shape.layers as u64, b')');
    lay_word(out, f, b"\n")
}

// `(weight W)`, `(updates U)`, `(mode M)`
fn lay_head(out: &mut [u8], at: usize, totals: Totals, mode: u64) -> usize
    requires { TextRoom at (head_format.write (totals.weight, (totals.updates, mode))) }
    ensures { LaidText out.old at (head_format.write (totals.weight, (totals.updates, mode))) out.new result }
{
    let a = lay_line(out, at, b"(weight ", totals.weight);
    let b = lay_line(out, a, b"(updates ", totals.updates);
    lay_line(out, b, b"(mode ", mode)
}

// One layer: the page of number l.
fn lay_layer(out: &mut [u8], at: usize, layer: LentLayer, l: usize) -> usize
    requires housed { Housed layer.dims (length layer.cells.now) (length layer.norms.now) (length layer.counts.now) layer.len }
    requires entries_len { length layer.entries.now ≡ 4 * layer.dims.size }
    requires text_room { TextRoom at ((page_format (frame_of layer.dims) l).write (page_of layer.dims (layer_read layer))) }
    ensures { LaidText out.old at
        ((page_format (frame_of layer.entry.dims) l).write (page_of layer.entry.dims (layer_read layer.entry)))
        out.new result }
{
    let dims = layer.dims;
    lay_page(
        out,
        at,
        l,
        layer.flag,
        dims.rows,
        dims.cols,
        layer.cells,
        layer.len,
        layer.entries,
        layer.counts,
    )
}

// Every layer.
fn lay_layers(out: &mut [u8], at: usize, state: LentState) -> usize
    requires one_tiered { OneTiered state.header.now.shape }
    requires standing { Standing (lent_read state) }
    requires text_room { TextRoom at (pages_text (frame_of (dims_of state.header.now.shape)) 0 (pages_of (view (lent_read state)) state.header.now.shape.layers 0)) }
    ensures { LaidText out.old at
        (pages_text (frame_of (dims_of state.entry.header.now.shape)) 0 (pages_of (view (lent_read state.entry)) state.entry.header.now.shape.layers 0))
        out.new result }
{
    let mut p = at;
    for l in 0..state.header.shape.layers {
        p = lay_layer(out, p, state.layer(l), l);
    }
    p
}

// The whole text, from the slice's start on.
fn lay_state(out: &mut [u8], state: LentState) -> usize
    requires one_tiered { OneTiered state.header.now.shape }
    requires standing { Standing (lent_read state) }
    requires text_room { TextRoom 0 (text_of (view (lent_read state))) }
    ensures { LaidText out.old 0 (text_of (view (lent_read state.entry))) out.new result }
{
    let shape = state.header.shape;
    let mode = state.header.mode;
    let a = lay_first(out, 0, shape);
    let m = header::mode_number(mode);
    let b = lay_head(out, a, state.header.totals, m);
    lay_layers(out, b, state)
}

// 9 for a state that fails the check or has two tiers, 16 for a space that is too short; else the text at
// its start. Laid into nothing first, the text is measured.
pub fn write_state(
    header: Header,
    counters: &[i64],
    norms: &[u64],
    entries: &[u64],
    counts: &[i64],
    out: &mut [u8],
) -> Result<usize, Refusal>
    ensures { copied (written_by result) out.new ≡ write_call (lent header counters.now norms.now entries.now counts.now) out.old }
{
    if !state_check::check_state(header, counters, norms, entries, counts) {
        return Err(Refusal::OutOfRange);
    }
    if !header.shape.is_one_tier() {
        return Err(Refusal::OutOfRange);
    }
    let mut nothing = [0u8; 1];
    let state = LentState {
        header: &header,
        counters,
        norms,
        entries,
        counts,
    };
    let n = lay_state(&mut nothing, state);
    if out.len() < n {
        return Err(Refusal::TooShort);
    }
    Ok(lay_state(out, state))
}
