// The counters of a layer as lines.
ghost use Rattle.std.specs.Prelude.{◌≡◌, Bool, ℕ, ◌+◌, ◌*◌, ◌<◌, length, ℤ};
ghost use Rattle.std.specs.List.{list_all};
ghost use Rattle.state_forms.specs.Sparse.{sparse_text};
ghost use Rattle.state_forms.specs.Grammar.{is_zero, cell_format, cell_listing, row_listing, rows_of};
ghost use Rattle.state_forms.specs.inner.Laying.{TextRoom, LaidText, one_text};

use crate::lay::{lay_byte, lay_decimal, lay_signed, lay_word};

pub fn is_zero(v: i64) -> bool
    ensures { result ≡ is_zero v }
{
    v == 0
}

// Whether every counter of a row is zero.
fn all_zero(cells: &[i64]) -> bool
    ensures { result ≡ list_all is_zero cells.now }
{
    cells.iter().all(|v| is_zero(*v))
}

// ` (C V)`
fn lay_cell(out: &mut [u8], at: usize, c: usize, v: i64) -> usize
    requires { TextRoom at (cell_format.write (c, v)) }
    ensures { LaidText out.old at (cell_format.write (c, v)) out.new result }
{
    let i = lay_word(out, at, b" (");
    let j = lay_decimal(out, i, c as u64);
    let k = lay_byte(out, j, b' ');
    let m = lay_signed(out, k, v);
    lay_byte(out, m, b')')
}

// Nothing for a counter that is zero.
fn lay_some(out: &mut [u8], at: usize, c: usize, v: i64) -> usize
    requires { TextRoom at (one_text cell_listing c v) }
    ensures { LaidText out.old at (one_text cell_listing c v) out.new result }
{
    if is_zero(v) {
        return at;
    }
    lay_cell(out, at, c, v)
}

// The counters of a row that are not zero.
fn lay_cells(out: &mut [u8], at: usize, cells: &[i64]) -> usize
    requires { TextRoom at (sparse_text cell_listing 0 cells.now) }
    ensures { LaidText out.old at (sparse_text cell_listing 0 cells.now) out.new result }
{
    let mut p = at;
    for (c, v) in cells.iter().enumerate() {
        p = lay_some(out, p, c, *v);
    }
    p
}

// `(row L R ..)`, or nothing for a row of zeros.
pub fn lay_row(out: &mut [u8], at: usize, l: usize, r: usize, cells: &[i64]) -> usize
    requires { TextRoom at (one_text (row_listing l (length cells.now)) r cells.now) }
    ensures { LaidText out.old at (one_text (row_listing l (length cells.now)) r cells.now) out.new result }
{
    if all_zero(cells) {
        return at;
    }
    let a = lay_word(out, at, b"(row ");
    let b = lay_decimal(out, a, l as u64);
    let c = lay_byte(out, b, b' ');
    let d = lay_decimal(out, c, r as u64);
    let e = lay_cells(out, d, cells);
    lay_word(out, e, b")\n")
}

// The lines of n rows, which the counters of a layer are.
pub fn lay_rows(
    out: &mut [u8],
    at: usize,
    l: usize,
    rows: usize,
    cols: usize,
    cells: &[i64],
) -> usize
    requires cells_len { length cells.now ≡ rows * cols }
    requires text_room { TextRoom at (sparse_text (row_listing l cols) 0 (rows_of cols rows cells.now)) }
    ensures { LaidText out.old at (sparse_text (row_listing l cols) 0 (rows_of cols rows cells.now)) out.new result }
{
    let mut p = at;
    for r in 0..rows {
        let a = r * cols;
        p = lay_row(out, p, l, r, &cells[a..a + cols]);
    }
    p
}
