// The offer of a candidate, with the index kept.
ghost use Rattle.std.specs.Prelude.{◌≡◌, ℕ, ◌+◌, ◌<◌, length};
ghost use Rattle.heap_moves.specs.Flat.{cand_of};
ghost use Rattle.heap.specs.inner.Slices.{Room, table_of};
ghost use Rattle.heap_index.specs.inner.Needs.{Cover};
ghost use Rattle.heap_indexed.specs.Offers.{rescore_in, seat_in, come_in, replace_in, displace_in, offer_in};
ghost use Rattle.heap_indexed.specs.inner.Slices.{cands_with, offered_with};

use crate::TriedOffer;
use crate::moves::{climb, resettle, sink};
use heap::Answer;
use heap_index::Lookup;
use heap_moves::Item;

// A known key's new count: its entry keeps its words, and moves.
fn rescore(
    index: &mut [u64],
    entries: &mut [u64],
    counts: &mut [i64],
    n: usize,
    i: usize,
    w: Item,
    v: i64,
) -> bool
    requires cover { Cover (length entries.old) (length counts.old) n }
    requires i_lt_n { i < n }
    ensures { cands_with index.new entries.new counts.new result ≡ rescore_in index.old (table_of entries.old counts.old n) i (cand_of w v) }
{
    counts[i] = v;
    resettle(index, entries, counts, n, i)
}

// A new key takes the first free entry and the empty place p, and moves up.
fn seat(
    index: &mut [u64],
    entries: &mut [u64],
    counts: &mut [i64],
    len: usize,
    p: usize,
    w: Item,
    v: i64,
) -> bool
    requires cover { Cover (length entries.old) (length counts.old) (len + 1) }
    requires p_in_bounds { p < length index.old }
    ensures { cands_with index.new entries.new counts.new result ≡ seat_in index.old (table_of entries.old counts.old len) p (cand_of w v) }
{
    index[p] = len as u64 + 1;
    heap_moves::put_cand(entries, counts, len, w, v);
    climb(index, entries, counts, len + 1, len)
}

// A new key comes in for the root's, which is out of the index, and moves down.
pub fn come_in(
    index: &mut [u64],
    entries: &mut [u64],
    counts: &mut [i64],
    len: usize,
    w: Item,
    v: i64,
) -> bool
    requires cover { Cover (length entries.old) (length counts.old) len }
    requires len_nonzero { 0 < len }
    ensures { cands_with index.new entries.new counts.new result ≡ come_in index.old (table_of entries.old counts.old len) (cand_of w v) }
{
    heap_moves::put_cand(entries, counts, 0, w, v);
    if !heap_index::insert(index, &*entries, &*counts, len, w.key, 0) {
        return false;
    }
    sink(index, entries, counts, len, 0)
}

// The root's key goes out, the new one comes in.
fn replace(
    index: &mut [u64],
    entries: &mut [u64],
    counts: &mut [i64],
    len: usize,
    w: Item,
    v: i64,
) -> bool
    requires cover { Cover (length entries.old) (length counts.old) len }
    requires len_nonzero { 0 < len }
    ensures { cands_with index.new entries.new counts.new result ≡ replace_in index.old (table_of entries.old counts.old len) (cand_of w v) }
{
    if !heap_index::remove(index, &*entries, &*counts, len, 0) {
        return false;
    }
    come_in(index, entries, counts, len, w, v)
}

// A full table: a strictly greater count takes the root's place.
fn displace(
    index: &mut [u64],
    entries: &mut [u64],
    counts: &mut [i64],
    len: usize,
    w: Item,
    v: i64,
) -> TriedOffer
    requires cover { Cover (length entries.old) (length counts.old) len }
    requires len_nonzero { 0 < len }
    ensures { offered_with index.new entries.new counts.new result ≡ displace_in index.old (table_of entries.old counts.old len) (cand_of w v) }
{
    if !words::in_range(counts[0]) {
        return TriedOffer {
            made: false,
            answer: Answer::TurnedAway,
        };
    }
    if counts[0] < v {
        let out = entries[0];
        let made = replace(index, entries, counts, len, w, v);
        return TriedOffer {
            made,
            answer: Answer::Displaced(out),
        };
    }
    TriedOffer {
        made: true,
        answer: Answer::TurnedAway,
    }
}

// A candidate with its count is offered to a table with an index. Where it is not made, what was done until
// then stands: callers try first (`heap_trial`).
pub fn offer(
    index: &mut [u64],
    entries: &mut [u64],
    counts: &mut [i64],
    size: usize,
    len: usize,
    w: Item,
    v: i64,
) -> TriedOffer
    requires { Room (length entries.old) (length counts.old) size len }
    ensures { offered_with index.new entries.new counts.new result ≡ offer_in size index.old (table_of entries.old counts.old len) (cand_of w v) }
{
    let Some(l) = heap_index::look(&*index, &*entries, &*counts, len, w.key) else {
        return TriedOffer {
            made: false,
            answer: Answer::TurnedAway,
        };
    };
    match l {
        Lookup::Met(p, _) => {
            let i = index[p] as usize - 1;
            let made = rescore(index, entries, counts, len, i, w, v);
            TriedOffer {
                made,
                answer: Answer::Rescored,
            }
        }
        Lookup::Vacant(p, _) => {
            if len < size {
                let made = seat(index, entries, counts, len, p, w, v);
                return TriedOffer {
                    made,
                    answer: Answer::Seated,
                };
            }
            displace(index, entries, counts, len, w, v)
        }
    }
}
