// Lookups: of a key, and of an entry's key under the entry's number. Nothing is written here.
ghost use Rattle.std.specs.Prelude.{◌≡◌, List, ℕ, ◌+◌, ◌*◌, ◌≤◌, ◌<◌, length, unwrap_or, IfSome};
ghost use Rattle.heap_moves.specs.Flat.{cands_of};
ghost use Rattle.heap_index.specs.Index;
ghost use Rattle.heap_index.specs.Index.{is_name, found_under};
ghost use Rattle.heap_index.specs.inner.Needs.{Cover};

use crate::{Lookup, after, home_of};

// Whether a word names one of the n candidates, and that one is in range.
pub fn is_name(counts: &[i64], n: usize, w: u64) -> bool
    requires { (n ≤ length counts.now) × (0 < w) }
    ensures { (es : List ℕ) → result ≡ is_name n (cands_of es counts.now) w }
{
    let i = w as usize;
    i <= n && words::in_range(counts[i - 1])
}

// The lookup of a key among the n candidates; `None` where it is refused.
pub fn look(index: &[u64], entries: &[u64], counts: &[i64], n: usize, key: u64) -> Option<Lookup>
    requires { Cover (length entries.now) (length counts.now) n }
    ensures { result ≡ Rattle.heap_index.specs.Index.look index.now n (cands_of entries.now counts.now) key }
{
    let m = index.len();
    if m == 0 {
        return None;
    }
    let mut p = home_of(m, key);
    for d in 0..m {
        let w = index[p];
        if w == 0 {
            return Some(Lookup::Vacant(p, d + 1));
        }
        if !is_name(counts, n, w) {
            return None;
        }
        let i = w as usize - 1;
        if entries[4 * i] == key {
            return Some(Lookup::Met(p, d + 1));
        }
        p = after(m, p);
    }
    None
}

// The place where the key of entry i stands under i, if it does.
pub fn found_under(
    index: &[u64],
    entries: &[u64],
    counts: &[i64],
    n: usize,
    i: usize,
) -> Option<usize>
    requires cover { Cover (length entries.now) (length counts.now) n }
    requires i_in_bounds { i < length counts.now }
    ensures place { unwrap_or result (length index.now) ≡ found_under index.now n (cands_of entries.now counts.now) i }
    ensures within { IfSome result (λ p. p < length index.now) }
{
    match look(index, entries, counts, n, entries[4 * i])? {
        Lookup::Met(p, _) => (index[p] == i as u64 + 1).then_some(p),
        Lookup::Vacant(..) => None,
    }
}
