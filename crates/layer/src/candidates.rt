// The candidates of two layers made one: each distinct key once, in first entry order, with its count
// from the merged counters.
ghost use Rattle.std.specs.Prelude.{◌≡◌, ◌++◌, ℕ, ◌+◌, ◌*◌, ◌≤◌, ◌<◌, length};
ghost use Rattle.heap_moves.specs.Cands.{most_cands};
ghost use Rattle.layer.specs.inner.Gather.{gathered_in, gathered_out, merge_table, offer_one, gather, items_of, keys_of, first_at, CountersRead, Seats, Entries, Sofar};

use crate::{Dims, Merged};
use heap_moves::Item;

// Offers one more key, with its count, and tells what the offer did in the next place of the list.
fn offer_one(
    entries: &mut [u64],
    counts: &mut [i64],
    list: &mut [u64],
    d: Dims,
    g: Merged,
    w: Item,
    counters: &[i64],
) -> Merged
    requires seats { Seats d (length entries.old) (length counts.old) }
    requires sofar { Sofar d g (2 * most_cands) }
    requires counters_read { CountersRead d counters.now }
    requires keys_in_bounds { 2 * g.keys + 2 ≤ length list.old }
    ensures { gathered_out entries counts list result ≡ offer_one d counters.now w (gathered_in entries counts list g) }
{
    let count = countsketch_l2_norm::count_with_hash(counters, d.rows, d.cols, w.high, w.low);
    let a = heap::offer(entries, counts, d.size, g.len, w, count);
    let len = heap::len_after(g.len, a);
    heap::tell_at(list, g.keys, a);
    Merged {
        len,
        keys: g.keys + 1,
    }
}

// Offers the i-th entry of the source, unless its key stands in an entry before it there or in one of
// the first m entries of `before`.
fn offer_first(
    entries: &mut [u64],
    counts: &mut [i64],
    list: &mut [u64],
    d: Dims,
    g: Merged,
    source: &[u64],
    i: usize,
    before: &[u64],
    m: usize,
    counters: &[i64],
) -> Merged
    requires seats { Seats d (length entries.old) (length counts.old) }
    requires sofar { Sofar d g (2 * most_cands) }
    requires counters_read { CountersRead d counters.now }
    requires entries { Entries (length source.now) (i + 1) }
    requires entries_2 { Entries (length before.now) m }
    requires keys_in_bounds { 2 * g.keys + 2 ≤ length list.old }
    ensures { gathered_out entries counts list result
        ≡ first_at d counters.now before.now m source.now i (gathered_in entries counts list g) }
{
    let w = heap_moves::item_at(source, i);
    if heap::find(before, m, w.key).is_some() || heap::find(source, i, w.key).is_some() {
        return g;
    }
    offer_one(entries, counts, list, d, g, w, counters)
}

// Offers the first n entries of the source, each key once, but no key of the first m of `before`.
fn offer_firsts(
    entries: &mut [u64],
    counts: &mut [i64],
    list: &mut [u64],
    d: Dims,
    start: Merged,
    source: &[u64],
    n: usize,
    before: &[u64],
    m: usize,
    counters: &[i64],
) -> Merged
    requires seats { Seats d (length entries.old) (length counts.old) }
    requires sofar { Sofar d start most_cands }
    requires counters_read { CountersRead d counters.now }
    requires entries { Entries (length source.now) n }
    requires entries_2 { Entries (length before.now) m }
    requires n_in_bounds { 2 * (start.keys + n) ≤ length list.old }
    ensures { (gathered_out entries counts list result
        ≡ gather d counters.now (keys_of before.now m) (items_of source.now n) (gathered_in entries counts list start))
        × Sofar d result (start.keys + n) }
{
    let mut g = start;
    for i in 0..n {
        g = offer_first(entries, counts, list, d, g, source, i, before, m, counters);
    }
    g
}

// Offers the layer's own candidates, then the other's. The slices are zeroed and filled anew, so the
// layer's entries are copied out first; no old count is read, since all are counted anew. The list has
// a place for every key of both.
pub fn merge_candidates(
    entries: &mut [u64],
    counts: &mut [i64],
    list: &mut [u64],
    d: Dims,
    len: usize,
    other: &[u64],
    other_len: usize,
    counters: &[i64],
) -> Merged
    requires seats { Seats d (length entries.old) (length counts.old) }
    requires len_le_size { len ≤ d.size }
    requires counters_read { CountersRead d counters.now }
    requires entries { Entries (length other.now) other_len }
    requires other_len_le_size { (other_len ≤ d.size) × (length list.old ≡ 4 * d.size) }
    ensures { gathered_out entries counts list result ≡ merge_table d counters.now (items_of entries.old len ++ items_of other.now other_len) }
{
    let mut copy = [0u64; 4 * heap_moves::MAX_HEAP_SIZE];
    copy[..4 * len].copy_from_slice(&entries[..4 * len]);
    entries.fill(0);
    counts.fill(0);
    list.fill(0);
    let none = Merged { len: 0, keys: 0 };
    let g = offer_firsts(
        entries, counts, list, d, none, &copy, len, &copy, 0, counters,
    );
    offer_firsts(
        entries, counts, list, d, g, other, other_len, &copy, len, counters,
    )
}
