// The offer, tried.
ghost use Rattle.std.specs.Prelude.{◌≡◌, ℕ, ◌+◌, ◌<◌, length};
ghost use Rattle.heap_moves.specs.Flat.{cands_of, cand_of};
ghost use Rattle.heap.specs.inner.Slices.{Room, table_of};
ghost use Rattle.heap_index.specs.inner.Needs.{Cover};
ghost use Rattle.heap_indexed.specs.Offers.{rescore_in, seat_in, replace_in, displace_in, offer_in};
ghost use Rattle.heap_trial.specs.inner.Trials.{Small};

use crate::gaps::{DEPTH, try_close};
use crate::paths::{try_climb, try_resettle};
use heap_index::Lookup;
use heap_moves::Item;

// Whether a known key's new count would not be refused.
fn try_rescore(
    index: &mut [u64],
    entries: &mut [u64],
    counts: &mut [i64],
    n: usize,
    i: usize,
    w: Item,
    v: i64,
) -> bool
    requires cover { Cover (length entries.old) (length counts.old) n }
    requires i_lt_n { i < n }
    ensures value { result ≡ (rescore_in index.old (table_of entries.old counts.old n) i (cand_of w v)).fine }
    ensures index_unchanged { index.new ≡ index.old }
    ensures counts_unchanged { cands_of entries.new counts.new ≡ cands_of entries.old counts.old }
{
    let old = counts[i];
    counts[i] = v;
    let r = try_resettle(index, entries, counts, n, i);
    counts[i] = old;
    r
}

// Whether a new key could be seated.
fn try_seat(
    index: &mut [u64],
    entries: &mut [u64],
    counts: &mut [i64],
    len: usize,
    p: usize,
    w: Item,
    v: i64,
) -> bool
    requires cover { Cover (length entries.old) (length counts.old) (len + 1) }
    requires p_in_bounds { p < length index.old }
    ensures value { result ≡ (seat_in index.old (table_of entries.old counts.old len) p (cand_of w v)).fine }
    ensures index_unchanged { index.new ≡ index.old }
    ensures counts_unchanged { cands_of entries.new counts.new ≡ cands_of entries.old counts.old }
{
    let word = index[p];
    let item = heap_moves::item_at(&*entries, len);
    let old = counts[len];
    index[p] = len as u64 + 1;
    heap_moves::put_cand(entries, counts, len, w, v);
    let r = try_climb(index, entries, counts, len + 1, len);
    heap_moves::put_cand(entries, counts, len, item, old);
    index[p] = word;
    r
}

// Whether the root's key could go out and a new one come in.
fn try_replace(
    index: &mut [u64],
    entries: &mut [u64],
    counts: &mut [i64],
    n: usize,
    w: Item,
    v: i64,
) -> bool
    requires cover { Cover (length entries.old) (length counts.old) n }
    requires n_nonzero { 0 < n }
    requires small { Small (length index.old) (length counts.old) }
    ensures value { result ≡ (replace_in index.old (table_of entries.old counts.old n) (cand_of w v)).fine }
    ensures index_unchanged { index.new ≡ index.old }
    ensures counts_unchanged { cands_of entries.new counts.new ≡ cands_of entries.old counts.old }
{
    let Some(g) = heap_index::found_under(&*index, &*entries, &*counts, n, 0) else {
        return false;
    };
    let m = index.len();
    let q = heap_index::after(m, g);
    index[g] = 0;
    let r = try_close(index, entries, counts, n, w, v, g, q, m, DEPTH);
    index[g] = 1;
    r
}

// Whether a candidate offered to a full table would not be refused.
fn try_displace(
    index: &mut [u64],
    entries: &mut [u64],
    counts: &mut [i64],
    n: usize,
    w: Item,
    v: i64,
) -> bool
    requires cover { Cover (length entries.old) (length counts.old) n }
    requires n_nonzero { 0 < n }
    requires small { Small (length index.old) (length counts.old) }
    ensures value { result ≡ (displace_in index.old (table_of entries.old counts.old n) (cand_of w v)).after.fine }
    ensures index_unchanged { index.new ≡ index.old }
    ensures counts_unchanged { cands_of entries.new counts.new ≡ cands_of entries.old counts.old }
{
    if !words::in_range(counts[0]) {
        return false;
    }
    if counts[0] < v {
        return try_replace(index, entries, counts, n, w, v);
    }
    true
}

// Whether `offer` would not be refused; everything is as it was.
pub fn try_offer(
    index: &mut [u64],
    entries: &mut [u64],
    counts: &mut [i64],
    size: usize,
    len: usize,
    w: Item,
    v: i64,
) -> bool
    requires room { Room (length entries.old) (length counts.old) size len }
    requires small { Small (length index.old) (length counts.old) }
    ensures value { result ≡ (offer_in size index.old (table_of entries.old counts.old len) (cand_of w v)).after.fine }
    ensures index_unchanged { index.new ≡ index.old }
    ensures counts_unchanged { cands_of entries.new counts.new ≡ cands_of entries.old counts.old }
{
    let Some(l) = heap_index::look(&*index, &*entries, &*counts, len, w.key) else {
        return false;
    };
    match l {
        Lookup::Met(p, _) => {
            let i = index[p] as usize - 1;
            try_rescore(index, entries, counts, len, i, w, v)
        }
        Lookup::Vacant(p, _) => {
            if len < size {
                return try_seat(index, entries, counts, len, p, w, v);
            }
            try_displace(index, entries, counts, len, w, v)
        }
    }
}
