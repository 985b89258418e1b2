// The candidates of a layer as lines, and a layer whole.
ghost use Rattle.std.specs.Prelude.{◌≡◌, Bool, ℕ, ◌+◌, ◌*◌, ◌<◌, ◌≤◌, length, take, ℤ};
ghost use Rattle.heap_moves.specs.Cands.{most_cands};
ghost use Rattle.heap_moves.specs.Flat.{cands_of, cand_of};
ghost use Rattle.state_forms.specs.Grammar.{flag_format, key_format, keys_text, page_text};
ghost use Rattle.state_forms.specs.inner.Laying.{TextRoom, LaidText};

use crate::cells::lay_rows;
use crate::lay::{lay_number, lay_signed, lay_word};
use heap_moves::Item;

// `(key L KEY BOTTOM HI LO COUNT)`
fn lay_key(out: &mut [u8], at: usize, l: usize, item: Item, count: i64) -> usize
    requires { TextRoom at ((key_format l).write (cand_of item count)) }
    ensures { LaidText out.old at ((key_format l).write (cand_of item count)) out.new result }
{
    let a = lay_word(out, at, b"(key ");
    let b = lay_number(out, a, l as u64, b' ');
    let c = lay_number(out, b, item.key, b' ');
    let d = lay_number(out, c, item.bottom, b' ');
    let e = lay_number(out, d, item.high, b' ');
    let f = lay_number(out, e, item.low, b' ');
    let g = lay_signed(out, f, count);
    lay_word(out, g, b")\n")
}

// The candidates in use, in heap order.
fn lay_keys(
    out: &mut [u8],
    at: usize,
    l: usize,
    len: usize,
    entries: &[u64],
    counts: &[i64],
) -> usize
    requires len_in_bounds { (len ≤ length counts.now) × (4 * len ≤ length entries.now) }
    requires len_le_most_cands { len ≤ most_cands }
    requires text_room { TextRoom at (keys_text l (take len (cands_of entries.now counts.now))) }
    ensures { LaidText out.old at (keys_text l (take len (cands_of entries.now counts.now))) out.new result }
{
    let mut p = at;
    for i in 0..len {
        let item = heap_moves::item_at(entries, i);
        p = lay_key(out, p, l, item, counts[i]);
    }
    p
}

// `(flag L F)`
fn lay_flag(out: &mut [u8], at: usize, l: usize, flag: bool) -> usize
    requires { TextRoom at ((flag_format l).write flag) }
    ensures { LaidText out.old at ((flag_format l).write flag) out.new result }
{
    let a = lay_word(out, at, b"(flag ");
    let b = lay_number(out, a, l as u64, b' ');
    let c = lay_number(out, b, u64::from(flag), b')');
    lay_word(out, c, b"\n")
}

// A layer: its flag, its rows, its candidates.
pub fn lay_page(
    out: &mut [u8],
    at: usize,
    l: usize,
    flag: bool,
    rows: usize,
    cols: usize,
    cells: &[i64],
    len: usize,
    entries: &[u64],
    counts: &[i64],
) -> usize
    requires cells_len { length cells.now ≡ rows * cols }
    requires len_in_bounds { (len ≤ length counts.now) × (4 * len ≤ length entries.now) }
    requires len_le_most_cands { len ≤ most_cands }
    requires text_room { TextRoom at (page_text l flag rows cols cells.now (take len (cands_of entries.now counts.now))) }
    ensures { LaidText out.old at
        (page_text l flag rows cols cells.now (take len (cands_of entries.now counts.now))) out.new result }
{
    let a = lay_flag(out, at, l, flag);
    let b = lay_rows(out, a, l, rows, cols, cells);
    lay_keys(out, b, l, len, entries, counts)
}
