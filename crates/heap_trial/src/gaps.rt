// The gap that a displaced key leaves, closed and the new key come in, tried.
ghost use Rattle.std.specs.Prelude.{◌≡◌, cond, IfSome, ℕ, suc, ◌*◌, ◌≤◌, ◌<◌, length, set};
ghost use Rattle.heap_moves.specs.Flat.{cands_of, cand_of};
ghost use Rattle.heap.specs.inner.Slices.{table_of};
ghost use Rattle.heap_index.specs.Index.{word, close, next_place};
ghost use Rattle.heap_index.specs.inner.Needs.{Cover};
ghost use Rattle.heap_indexed.specs.Moves;
ghost use Rattle.heap_indexed.specs.Offers.{come_in};
ghost use Rattle.heap_trial.specs.inner.Trials.{enter_sink, then_in, Small};

use crate::Spot;
use crate::paths::try_sink;
use heap_moves::Item;

// How many entries may move into a gap before the rest is made on a copy.
pub const DEPTH: usize = 64;

// Whether the entry at the root, put at the place p, could move down.
fn try_at(index: &mut [u64], entries: &mut [u64], counts: &mut [i64], n: usize, p: usize) -> bool
    requires cover { Cover (length entries.old) (length counts.old) n }
    requires n_nonzero { (0 < n) × (p < length index.old) }
    ensures value { result ≡ (Rattle.heap_indexed.specs.Moves.sink n n (set index.old p 1) (cands_of entries.old counts.old) 0).fine }
    ensures index_unchanged { index.new ≡ index.old }
    ensures counts_unchanged { cands_of entries.new counts.new ≡ cands_of entries.old counts.old }
{
    let word = index[p];
    index[p] = 1;
    let r = try_sink(index, entries, counts, n, 0);
    index[p] = word;
    r
}

// Whether the root's key could come in, and its entry move down.
fn try_insert(
    index: &mut [u64],
    entries: &mut [u64],
    counts: &mut [i64],
    n: usize,
    key: u64,
) -> bool
    requires cover { Cover (length entries.old) (length counts.old) n }
    requires n_nonzero { 0 < n }
    ensures value { result ≡ (enter_sink n index.old (cands_of entries.old counts.old) key).fine }
    ensures index_unchanged { index.new ≡ index.old }
    ensures counts_unchanged { cands_of entries.new counts.new ≡ cands_of entries.old counts.old }
{
    let Some(l) = heap_index::look(&*index, &*entries, &*counts, n, key) else {
        return false;
    };
    try_at(index, entries, counts, n, l.place())
}

// Whether a new key could come in for the root's, which is out of the index.
fn try_come_in(
    index: &mut [u64],
    entries: &mut [u64],
    counts: &mut [i64],
    n: usize,
    w: Item,
    v: i64,
) -> bool
    requires cover { Cover (length entries.old) (length counts.old) n }
    requires n_nonzero { 0 < n }
    ensures value { result ≡ (come_in index.old (table_of entries.old counts.old n) (cand_of w v)).fine }
    ensures index_unchanged { index.new ≡ index.old }
    ensures counts_unchanged { cands_of entries.new counts.new ≡ cands_of entries.old counts.old }
{
    let item = heap_moves::item_at(&*entries, 0);
    let old = counts[0];
    heap_moves::put_cand(entries, counts, 0, w, v);
    let r = try_insert(index, entries, counts, n, w.key);
    heap_moves::put_cand(entries, counts, 0, item, old);
    r
}

// Whether the lookup of the candidate named at the place p passes the gap at g, so that the word moves there;
// `None` where no candidate is named.
fn passes_gap(
    index: &[u64],
    entries: &[u64],
    counts: &[i64],
    n: usize,
    g: usize,
    p: usize,
) -> Option<bool>
    requires cover { Cover (length entries.now) (length counts.now) n }
    requires g_in_bounds { (g < length index.now) × (p < length index.now) }
    ensures { IfSome result (λ moves. (f : ℕ) → close (suc f) index.now n (cands_of entries.now counts.now) g p
        ≡ cond moves (close f (set (set index.now g (word index.now p)) p 0) n (cands_of entries.now counts.now) p (next_place (length index.now) p))
        (close f index.now n (cands_of entries.now counts.now) g (next_place (length index.now) p))) }
{
    let x = index[p];
    if x == 0 {
        return None;
    }
    if !heap_index::is_name(counts, n, x) {
        return None;
    }
    let m = index.len();
    let i = x as usize - 1;
    let h = heap_index::home_of(m, entries[4 * i]);
    let back = heap_index::steps(m, g, p);
    let way = heap_index::steps(m, h, p);
    Some(back <= way)
}

// From p on, over at most `many` places, those whose entries' lookups do not pass the gap at g: where they end,
// and how many places are left.
fn skip(
    index: &[u64],
    entries: &[u64],
    counts: &[i64],
    n: usize,
    g: usize,
    start: usize,
    many: usize,
) -> Spot
    requires cover { Cover (length entries.now) (length counts.now) n }
    requires g_in_bounds { (g < length index.now) × (start < length index.now) }
    ensures { (close result.left index.now n (cands_of entries.now counts.now) g result.place
        ≡ close many index.now n (cands_of entries.now counts.now) g start) × ((result.place < length index.now) × (result.left ≤ many)) }
{
    let m = index.len();
    let mut place = start;
    for passed in 0..many {
        let Some(false) = passes_gap(index, entries, counts, n, g, place) else {
            return Spot {
                place,
                left: many - passed,
            };
        };
        place = heap_index::after(m, place);
    }
    Spot { place, left: 0 }
}

// The gap at g is closed from p on, over at most `many` places, and the new key comes in; whether nothing was
// refused.
fn close_and_come_in(
    index: &mut [u64],
    entries: &mut [u64],
    counts: &mut [i64],
    n: usize,
    w: Item,
    v: i64,
    g: usize,
    p: usize,
    many: usize,
) -> bool
    requires cover { Cover (length entries.old) (length counts.old) n }
    requires n_nonzero { 0 < n }
    requires g_in_bounds { (g < length index.old) × (p < length index.old) }
    ensures { result ≡ then_in (close many index.old n (cands_of entries.old counts.old) g p) (table_of entries.old counts.old n) (cand_of w v) }
{
    if !heap_index::close_from(index, &*entries, &*counts, n, g, p, many) {
        return false;
    }
    heap_indexed::come_in(index, entries, counts, n, w, v)
}

// Whether the gap at g could be closed from p on, over at most `many` places, and the new key come in: made on
// a copy of the layer. For gaps with many moves, which only odd keys or a damaged table have.
fn close_on_copy(
    index: &[u64],
    entries: &[u64],
    counts: &[i64],
    n: usize,
    w: Item,
    v: i64,
    g: usize,
    p: usize,
    many: usize,
) -> bool
    requires cover { Cover (length entries.now) (length counts.now) n }
    requires n_nonzero { 0 < n }
    requires g_in_bounds { (g < length index.now) × (p < length index.now) }
    requires small { Small (length index.now) (length counts.now) }
    ensures { result ≡ then_in (close many index.now n (cands_of entries.now counts.now) g p) (table_of entries.now counts.now n) (cand_of w v) }
{
    let mut places = [0u64; 2 * heap_moves::MAX_HEAP_SIZE];
    let mut words = [0u64; 4 * heap_moves::MAX_HEAP_SIZE];
    let mut numbers = [0i64; heap_moves::MAX_HEAP_SIZE];
    let places = &mut places[..index.len()];
    let words = &mut words[..entries.len()];
    let numbers = &mut numbers[..counts.len()];
    places.copy_from_slice(index);
    words.copy_from_slice(entries);
    numbers.copy_from_slice(counts);
    close_and_come_in(places, words, numbers, n, w, v, g, p, many)
}

// Whether the gap at g could be closed from p on, over at most f places, and the new key come in. Entries that
// stay are passed over; one that moves is moved, the rest tried, and moved back. After `depth` moves the rest is
// made on a copy, so that the stack has a bound.
pub fn try_close(
    index: &mut [u64],
    entries: &mut [u64],
    counts: &mut [i64],
    n: usize,
    w: Item,
    v: i64,
    g: usize,
    p: usize,
    f: usize,
    depth: usize,
) -> bool
    requires cover { Cover (length entries.old) (length counts.old) n }
    requires n_nonzero { 0 < n }
    requires g_in_bounds { (g < length index.old) × ((p < length index.old) × (word index.old g ≡ 0)) }
    requires small { Small (length index.old) (length counts.old) }
    ensures value { result ≡ then_in (close f index.old n (cands_of entries.old counts.old) g p) (table_of entries.old counts.old n) (cand_of w v) }
    ensures index_unchanged { index.new ≡ index.old }
    ensures counts_unchanged { cands_of entries.new counts.new ≡ cands_of entries.old counts.old }
{
    let s = skip(&*index, &*entries, &*counts, n, g, p, f);
    let q = s.place;
    let left = s.left;
    if left == 0 {
        return false;
    }
    let x = index[q];
    if x == 0 {
        return try_come_in(index, entries, counts, n, w, v);
    }
    if depth == 0 {
        return close_on_copy(&*index, &*entries, &*counts, n, w, v, g, q, left);
    }
    let Some(true) = passes_gap(&*index, &*entries, &*counts, n, g, q) else {
        return close_on_copy(&*index, &*entries, &*counts, n, w, v, g, q, left);
    };
    let m = index.len();
    let next = heap_index::after(m, q);
    index[g] = x;
    index[q] = 0;
    let r = try_close(
        index,
        entries,
        counts,
        n,
        w,
        v,
        q,
        next,
        left - 1,
        depth - 1,
    );
    index[g] = 0;
    index[q] = x;
    r
}
