// The check of an index: it holds exactly its layer's candidates, each once and where its key's lookup
// ends.
ghost use Rattle.std.specs.Prelude.{◌≡◌, ℕ, ◌<◌, length};
ghost use Rattle.heap_moves.specs.Flat.{cands_of};
ghost use Rattle.heap_index.specs.Index.{entries_ok, place_ok, places_ok, index_ok};
ghost use Rattle.heap_index.specs.inner.Needs.{Cover};

use crate::lookups::found_under;

// Whether each of the n entries is where its key's lookup ends.
fn entries_ok(index: &[u64], entries: &[u64], counts: &[i64], n: usize) -> bool
    requires { Cover (length entries.now) (length counts.now) n }
    ensures { result ≡ entries_ok n index.now n (cands_of entries.now counts.now) 0 }
{
    for i in 0..n {
        if found_under(index, entries, counts, n, i).is_none() {
            return false;
        }
    }
    true
}

// Whether the place p is empty, or names a candidate whose key's lookup ends there.
fn place_ok(index: &[u64], entries: &[u64], counts: &[i64], n: usize, p: usize) -> bool
    requires cover { Cover (length entries.now) (length counts.now) n }
    requires p_in_bounds { p < length index.now }
    ensures { result ≡ place_ok index.now n (cands_of entries.now counts.now) p }
{
    let w = index[p];
    if w == 0 {
        return true;
    }
    let i = w as usize;
    i <= n && found_under(index, entries, counts, n, i - 1) == Some(p)
}

// Whether all places are so.
fn places_ok(index: &[u64], entries: &[u64], counts: &[i64], n: usize) -> bool
    requires { Cover (length entries.now) (length counts.now) n }
    ensures { result ≡ places_ok (length index.now) index.now n (cands_of entries.now counts.now) 0 }
{
    for p in 0..index.len() {
        if !place_ok(index, entries, counts, n, p) {
            return false;
        }
    }
    true
}

// Whether the index holds exactly the n candidates, each once and where its key's lookup ends.
pub fn index_ok(index: &[u64], entries: &[u64], counts: &[i64], n: usize) -> bool
    requires { Cover (length entries.now) (length counts.now) n }
    ensures { result ≡ index_ok index.now n (cands_of entries.now counts.now) }
{
    entries_ok(index, entries, counts, n) && places_ok(index, entries, counts, n)
}
