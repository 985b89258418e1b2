// The candidates of a layer.
ghost use Rattle.std.specs.Prelude.{◌≡◌, List, ℕ, ◌*◌, ◌≤◌, length, drop};
ghost use Rattle.std.proofs.lemmas.List.Edits.{sets};
ghost use Rattle.heap_moves.specs.Cands.{Cand};
ghost use Rattle.heap_moves.specs.Flat.{cands_of};
ghost use Rattle.state_forms.specs.Formats.{got};
ghost use Rattle.state_forms.specs.Grammar.{key_format, keys_r};
ghost use Rattle.state_lines.specs.inner.Places.{value_spot, key_spot, how_many};

use crate::parts::{layer_at, number_at, signed_at, word_at};
use heap_moves::{Item, put_cand};
use text::word::has_word;

// `(key L KEY BOTTOM HI LO COUNT)` and a newline, at a place: a candidate and its count.
#[tactic(auto, unfolding(state_forms::specs::Formats::then_read, text::specs::Decimals::is_digit))]
pub fn key_at(s: &[u8], at: usize, l: usize) -> Option<((Item, i64), usize)>
    ensures { key_spot s.now result ≡ (key_format l).read (drop at s.now) }
{
    let p = word_at(s, at, b"(key ")?;
    let p = layer_at(s, p, l)?;
    let (key, p) = number_at(s, p, b' ')?;
    let (bottom, p) = number_at(s, p, b' ')?;
    let (high, p) = number_at(s, p, b' ')?;
    let (low, p) = number_at(s, p, b' ')?;
    let (count, p) = signed_at(s, p, b')')?;
    let end = word_at(s, p, b"\n")?;
    let item = Item {
        key,
        bottom,
        high,
        low,
    };
    Some(((item, count), end))
}

// `(key L ..)` for each candidate in use, at most as many as there are seats: how many there are.
pub fn read_keys(
    s: &[u8],
    at: usize,
    l: usize,
    size: usize,
    entries: &mut [u64],
    counts: &mut [i64],
) -> Option<(usize, usize)>
    requires { (size ≤ length counts.old) × (length entries.old ≡ 4 * length counts.old) }
    ensures result_value { value_spot s.now result ≡ how_many (keys_r l size (drop at s.now)) }
    ensures counts_after { (cs : List Cand) (t : List ℕ) → keys_r l size (drop at s.now) ≡ got cs t
        → cands_of entries.new counts.new ≡ sets (cands_of entries.old counts.old) 0 cs }
{
    let mut p = at;
    for i in 0..size {
        if !has_word(s, p, b"(key ") {
            return Some((i, p));
        }
        let ((item, count), next) = key_at(s, p, l)?;
        put_cand(entries, counts, i, item, count);
        p = next;
    }
    if has_word(s, p, b"(key ") {
        return None;
    }
    Some((size, p))
}
