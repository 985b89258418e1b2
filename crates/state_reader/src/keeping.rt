// Every layer's lines kept, once they are judged.
ghost use Rattle.std.specs.Prelude.{◌≡◌, List, ℕ, ◌<◌, drop, get_or};
ghost use Rattle.header.specs.OneTier.{OneTiered};
ghost use Rattle.layout.specs.State.{put_layer, over_layers};
ghost use Rattle.layout.specs.Slices.{view, lent};
ghost use Rattle.layout.specs.inner.Needs.{Standing};
ghost use Rattle.layout.specs.Lending.{lent_in, lent_out};
ghost use Rattle.state_forms.specs.Formats.{got};
ghost use Rattle.state_forms.specs.Grammar.{Page, page_format, pages_r};
ghost use Rattle.state_text.specs.Pages.{dims_of, frame_of, layer_from, no_page};
ghost use Rattle.state_reader.specs.inner.Paged.{Legible};

use crate::page::fill_page;
use header::Header;
use layout::{dims, span_of};

// The header with a layer's lines kept, and the place past them.
#[derive(Clone, Copy)]
struct Kept {
    header: Header,
    at: usize,
}

// One layer.
fn keep_layer(
    s: &[u8],
    at: usize,
    h: Header,
    counters: &mut [i64],
    norms: &mut [u64],
    entries: &mut [u64],
    counts: &mut [i64],
    l: usize,
) -> Kept
    requires one_tiered { OneTiered h.shape }
    requires standing { Standing (lent h counters.old norms.old entries.old counts.old) }
    requires l_lt_layers { l < h.shape.layers }
    requires legible { Legible ((page_format (frame_of (dims_of h.shape)) l).read (drop at s.now)) }
    ensures counts_value { (p : Page) (t : List ℕ) → (page_format (frame_of (dims_of h.shape)) l).read (drop at s.now) ≡ got p t
        → (view (lent_out result.header counters norms entries counts)
        ≡ put_layer (view (lent_in h counters norms entries counts)) l (layer_from (dims_of h.shape) p))
        × (drop result.at s.now ≡ t) }
    ensures standing_2 { Standing (lent_out result.header counters norms entries counts) }
{
    let shape = h.shape;
    let span = span_of(shape, l);
    let d = dims(shape, l);
    let ca = span.cells.start;
    let ce = span.cells.end;
    let na = span.norms.start;
    let ne = span.norms.end;
    let ea = span.words.start;
    let ee = span.words.end;
    let ta = span.seats.start;
    let te = span.seats.end;
    let x = fill_page(
        s,
        at,
        l,
        d,
        &mut counters[ca..ce],
        &mut norms[na..ne],
        &mut entries[ea..ee],
        &mut counts[ta..te],
    );
    let Some(((flag, len), p)) = x else {
        return Kept { header: h, at };
    };
    Kept {
        header: h.with_layer(l, len, flag),
        at: p,
    }
}

// Every layer.
pub fn keep_layers(
    s: &[u8],
    at: usize,
    h: Header,
    counters: &mut [i64],
    norms: &mut [u64],
    entries: &mut [u64],
    counts: &mut [i64],
) -> Header
    requires one_tiered { OneTiered h.shape }
    requires standing { Standing (lent h counters.old norms.old entries.old counts.old) }
    requires legible { Legible (pages_r (frame_of (dims_of h.shape)) 0 h.shape.layers (drop at s.now)) }
    ensures counts_value { (ps : List Page) (t : List ℕ) → pages_r (frame_of (dims_of h.shape)) 0 h.shape.layers (drop at s.now) ≡ got ps t
        → view (lent_out result counters norms entries counts)
        ≡ over_layers (λ l y. layer_from (dims_of h.shape) (get_or ps l no_page)) h.shape.layers 0 (view (lent_in h counters norms entries counts)) }
    ensures standing_2 { Standing (lent_out result counters norms entries counts) }
{
    let mut header = h;
    let mut p = at;
    for l in 0..h.shape.layers {
        let k = keep_layer(s, p, header, counters, norms, entries, counts, l);
        header = k.header;
        p = k.at;
    }
    header
}
