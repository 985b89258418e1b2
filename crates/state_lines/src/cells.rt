// The counters of a row.
ghost use Rattle.std.specs.Prelude.{◌≡◌, Bool, not, ◌&&◌, List, ℕ, suc, ◌+◌, ◌-◌, ◌<◌, ◌≤◌, set, drop, replicate, ℤ, pos};
ghost use Rattle.std.proofs.lemmas.List.Edits.{sets};
ghost use Rattle.words.specs.Num.{in_range};
ghost use Rattle.state_forms.specs.Formats.{got};
ghost use Rattle.state_forms.specs.Sparse.{sparse_r};
ghost use Rattle.state_forms.specs.Grammar.{is_zero, cell_format, cell_listing};
ghost use Rattle.state_lines.specs.inner.Places.{spot, value_spot, forget};

use crate::parts::{number_at, signed_at, word_at};
use state_forms::cells::is_zero;
use text::word::has_word;

// Whether a counter may stand in a text: not zero, and in range.
fn may_stand(v: i64) -> bool
    ensures { result ≡ (not (is_zero v) && in_range v) }
{
    !is_zero(v) && words::in_range(v)
}

// ` (C V)` at a place: a column and its counter.
#[tactic(auto, unfolding(state_forms::specs::Formats::then_read, text::specs::Decimals::is_digit))]
pub fn pair_at(s: &[u8], at: usize) -> Option<((u64, i64), usize)>
    ensures { value_spot s.now result ≡ cell_format.read (drop at s.now) }
{
    let p = word_at(s, at, b" (")?;
    let (c, p) = number_at(s, p, b' ')?;
    let (v, end) = signed_at(s, p, b')')?;
    if !may_stand(v) {
        return None;
    }
    Some(((c, v), end))
}

// Keeps a counter at a place, where there is one.
fn keep(cells: &mut [i64], at: usize, v: i64)
    ensures { cells.new ≡ set cells.old at v }
{
    if at < cells.len() {
        cells[at] = v;
    }
}

// Zeros from a place up to another.
pub fn keep_none(cells: &mut [i64], from: usize, to: usize)
    requires { from ≤ to }
    ensures { cells.new ≡ sets cells.old from (replicate (to - from) (pos 0)) }
{
    for i in from..to {
        keep(cells, i, 0);
    }
}

// ` (C V)` for each counter of a row that is not zero, by rising column; kept from `base` on.
pub fn read_cells(s: &[u8], at: usize, cols: usize, cells: &mut [i64], base: usize) -> Option<usize>
    requires { base + cols < 9223372036854775808 }
    ensures result_value { spot s.now result ≡ forget (sparse_r cell_listing (suc cols) 0 cols (drop at s.now)) }
    ensures cells_after { (xs : List ℤ) (t : List ℕ) → sparse_r cell_listing (suc cols) 0 cols (drop at s.now) ≡ got xs t
        → cells.new ≡ sets cells.old base xs }
{
    let mut p = at;
    let mut c = 0;
    while c <= cols {
        if !has_word(s, p, b" ") {
            keep_none(cells, base + c, base + cols);
            return Some(p);
        }
        let ((j, v), n) = pair_at(s, p)?;
        let k = j as usize;
        if k < c {
            return None;
        }
        if cols <= k {
            return None;
        }
        keep_none(cells, base + c, base + k);
        keep(cells, base + k, v);
        c = k + 1;
        p = n;
    }
    None
}
