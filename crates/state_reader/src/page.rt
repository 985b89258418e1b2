// A layer read from text.
ghost use Rattle.std.specs.Prelude.{◌≡◌, List, ℕ, ◌*◌, length, drop};
ghost use Rattle.std.proofs.lemmas.List.Edits.{sets};
ghost use Rattle.heap_moves.specs.Flat.{cands_of};
ghost use Rattle.layer.specs.inner.Needs.{layer_of, Housed};
ghost use Rattle.state_forms.specs.Formats.{got};
ghost use Rattle.state_forms.specs.Grammar.{Page, join_rows, page_format};
ghost use Rattle.state_lines.specs.inner.Places.{value_spot};
ghost use Rattle.state_text.specs.Pages.{table_from, frame_of, layer_from};
ghost use Rattle.state_reader.specs.inner.Paged.{PageRoom, paged};

use layer::Dims;
use state_check::seats_ok;
use state_lines::heads::flag_at;
use state_lines::keys::read_keys;
use state_lines::rows::read_rows;

// Counters, entries and counts as a layer's lines say them: its flag and the number of its candidates.
pub fn read_page(
    s: &[u8],
    at: usize,
    l: usize,
    dims: Dims,
    cells: &mut [i64],
    entries: &mut [u64],
    counts: &mut [i64],
) -> Option<((bool, usize), usize)>
    requires { PageRoom dims (length entries.old) (length counts.old) }
    ensures result_value { value_spot s.now result ≡ paged ((page_format (frame_of dims) l).read (drop at s.now)) }
    ensures cells_after { (p : Page) (t : List ℕ) → (page_format (frame_of dims) l).read (drop at s.now) ≡ got p t
        → (cells.new ≡ sets cells.old 0 (join_rows p.rows))
        × (cands_of entries.new counts.new ≡ (table_from dims.size p.keys).cands) }
{
    let (flag, p) = flag_at(s, at, l)?;
    let q = read_rows(s, p, l, dims.rows, dims.cols, cells)?;
    entries.fill(0);
    counts.fill(0);
    let (len, end) = read_keys(s, q, l, dims.size, entries, counts)?;
    if !seats_ok(&*entries, &*counts, dims.size, len) {
        return None;
    }
    Some(((flag, len), end))
}

// The same with the norms, which are worked out.
pub fn fill_page(
    s: &[u8],
    at: usize,
    l: usize,
    dims: Dims,
    cells: &mut [i64],
    norms: &mut [u64],
    entries: &mut [u64],
    counts: &mut [i64],
) -> Option<((bool, usize), usize)>
    requires housed { Housed dims (length cells.old) (length norms.old) (length counts.old) 0 }
    requires entries_len { length entries.old ≡ 4 * dims.size }
    ensures result_value { value_spot s.now result ≡ paged ((page_format (frame_of dims) l).read (drop at s.now)) }
    ensures flag_after { (p : Page) (t : List ℕ) → (page_format (frame_of dims) l).read (drop at s.now) ≡ got p t
        → layer_of dims cells.new norms.new entries.new counts.new (length p.keys) p.flag ≡ layer_from dims p }
{
    let x = read_page(s, at, l, dims, cells, entries, counts);
    countsketch_l2_norm::row_norms(&*cells, norms, dims.rows, dims.cols);
    x
}
