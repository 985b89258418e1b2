// The rows of a layer.
ghost use Rattle.std.specs.Prelude.{◌≡◌, List, ℕ, suc, ◌+◌, ◌*◌, ◌<◌, ◌≤◌, drop, ℤ};
ghost use Rattle.std.proofs.lemmas.List.Edits.{sets};
ghost use Rattle.state_forms.specs.Formats.{got};
ghost use Rattle.state_forms.specs.Sparse.{sparse_r};
ghost use Rattle.state_forms.specs.Grammar.{row_listing, join_rows};
ghost use Rattle.state_lines.specs.inner.Places.{most_side, spot, value_spot, forget, row_head_r};

use crate::cells::{keep_none, read_cells};
use crate::parts::{layer_at, word_at};
use text::decimals::field;
use text::word::has_word;

// `(row L R` at a place: the row's number, and the place of the space behind it.
#[tactic(auto, unfolding(state_forms::specs::Formats::then_read, crate::specs::inner::Places::row_head_r))]
pub fn row_head(s: &[u8], at: usize, l: usize) -> Option<(u64, usize)>
    ensures { value_spot s.now result ≡ row_head_r l (drop at s.now) }
{
    let p = word_at(s, at, b"(row ")?;
    let p = layer_at(s, p, l)?;
    let (r, end) = field(s, p, b' ')?;
    Some((r, end - 1))
}

// `(row L R ..)` for each row that is not all zeros, by rising number.
pub fn read_rows(
    s: &[u8],
    at: usize,
    l: usize,
    rows: usize,
    cols: usize,
    cells: &mut [i64],
) -> Option<usize>
    requires { (rows ≤ most_side) × (cols ≤ most_side) }
    ensures result_value { spot s.now result ≡ forget (sparse_r (row_listing l cols) (suc rows) 0 rows (drop at s.now)) }
    ensures cells_after { (xs : List (List ℤ)) (t : List ℕ) → sparse_r (row_listing l cols) (suc rows) 0 rows (drop at s.now) ≡ got xs t
        → cells.new ≡ sets cells.old 0 (join_rows xs) }
{
    let mut p = at;
    let mut r = 0;
    while r <= rows {
        let a = r * cols;
        if !has_word(s, p, b"(row ") {
            let e = rows * cols;
            keep_none(cells, a, e);
            return Some(p);
        }
        let (j, n) = row_head(s, p, l)?;
        let k = j as usize;
        if k < r {
            return None;
        }
        if rows <= k {
            return None;
        }
        let b = k * cols;
        keep_none(cells, a, b);
        let m = read_cells(s, n, cols, cells, b)?;
        p = word_at(s, m, b")\n")?;
        r = k + 1;
    }
    None
}
