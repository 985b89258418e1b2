// Keys that come in and go out, and entries that change places.
ghost use Rattle.std.specs.Prelude.{◌≡◌, cond, ℕ, ◌+◌, ◌*◌, ◌<◌, length, set, leb};
ghost use Rattle.heap_moves.specs.Flat.{cands_of};
ghost use Rattle.heap_index.specs.Index;
ghost use Rattle.heap_index.specs.Index.{dist, word, close};
ghost use Rattle.heap_index.specs.inner.Needs.{Cover};

use crate::lookups::{found_under, is_name, look};
use crate::{after, home_of, steps};

// The key of entry i comes in where its lookup ends; whether it was not refused.
pub fn insert(
    index: &mut [u64],
    entries: &[u64],
    counts: &[i64],
    n: usize,
    key: u64,
    i: usize,
) -> bool
    requires cover { Cover (length entries.now) (length counts.now) n }
    requires i_in_bounds { i < length counts.now }
    ensures value { result ≡ (Rattle.heap_index.specs.Index.insert index.old n (cands_of entries.now counts.now) key i).fine }
    ensures index_after { index.new ≡ (Rattle.heap_index.specs.Index.insert index.old n (cands_of entries.now counts.now) key i).table }
{
    let Some(l) = look(&*index, entries, counts, n, key) else {
        return false;
    };
    index[l.place()] = i as u64 + 1;
    true
}

// The entry at p moves into the gap at g if its lookup, from its home h, passes it; the gap's place then.
fn shift(index: &mut [u64], h: usize, g: usize, p: usize) -> usize
    requires { (h < length index.old) × ((g < length index.old) × (p < length index.old)) }
    ensures value { result ≡ cond (leb (dist (length index.old) g p) (dist (length index.old) h p)) p g }
    ensures index_after { index.new ≡ cond (leb (dist (length index.old) g p) (dist (length index.old) h p)) (set (set index.old g (word index.old p)) p 0) index.old }
{
    let m = index.len();
    let back = steps(m, g, p);
    let way = steps(m, h, p);
    if back <= way {
        let w = index[p];
        index[g] = w;
        index[p] = 0;
        return p;
    }
    g
}

// Closes the gap at `gap`, looking at `many` places from `start` on, up to the next empty one; whether each
// named a candidate and an empty one came.
pub fn close_from(
    index: &mut [u64],
    entries: &[u64],
    counts: &[i64],
    n: usize,
    gap: usize,
    start: usize,
    many: usize,
) -> bool
    requires cover { Cover (length entries.now) (length counts.now) n }
    requires gap_in_bounds { (gap < length index.old) × (start < length index.old) }
    ensures value { result ≡ (close many index.old n (cands_of entries.now counts.now) gap start).fine }
    ensures index_after { index.new ≡ (close many index.old n (cands_of entries.now counts.now) gap start).table }
{
    let m = index.len();
    let mut g = gap;
    let mut p = start;
    for _ in 0..many {
        let w = index[p];
        if w == 0 {
            return true;
        }
        if !is_name(counts, n, w) {
            return false;
        }
        let i = w as usize - 1;
        let h = home_of(m, entries[4 * i]);
        g = shift(index, h, g, p);
        p = after(m, p);
    }
    false
}

// The key of entry i goes out; whether it was not refused.
pub fn remove(index: &mut [u64], entries: &[u64], counts: &[i64], n: usize, i: usize) -> bool
    requires cover { Cover (length entries.now) (length counts.now) n }
    requires i_in_bounds { i < length counts.now }
    ensures value { result ≡ (Rattle.heap_index.specs.Index.remove index.old n (cands_of entries.now counts.now) i).fine }
    ensures index_after { index.new ≡ (Rattle.heap_index.specs.Index.remove index.old n (cands_of entries.now counts.now) i).table }
{
    let Some(gap) = found_under(&*index, entries, counts, n, i) else {
        return false;
    };
    index[gap] = 0;
    let m = index.len();
    let start = after(m, gap);
    close_from(index, entries, counts, n, gap, start, m)
}

// The numbers of the entries i and j are exchanged; whether both keys were found under them.
pub fn exchange(
    index: &mut [u64],
    entries: &[u64],
    counts: &[i64],
    n: usize,
    i: usize,
    j: usize,
) -> bool
    requires cover { Cover (length entries.now) (length counts.now) n }
    requires i_in_bounds { (i < length counts.now) × (j < length counts.now) }
    ensures value { result ≡ (Rattle.heap_index.specs.Index.exchange index.old n (cands_of entries.now counts.now) i j).fine }
    ensures index_after { index.new ≡ (Rattle.heap_index.specs.Index.exchange index.old n (cands_of entries.now counts.now) i j).table }
{
    let Some(p) = found_under(&*index, entries, counts, n, i) else {
        return false;
    };
    let Some(q) = found_under(&*index, entries, counts, n, j) else {
        return false;
    };
    index[p] = j as u64 + 1;
    index[q] = i as u64 + 1;
    true
}
