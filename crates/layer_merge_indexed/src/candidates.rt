// The candidates of two layers made one, with the index made anew: each distinct key once, in first entry order,
// with its count from the merged counters.
ghost use Rattle.std.specs.Prelude.{◌≡◌, [], ◌++◌, ℕ, ◌+◌, ◌*◌, ◌≤◌, length, replicate};
ghost use Rattle.heap_moves.specs.Cands.{most_cands};
ghost use Rattle.heap_index.specs.Index.{index_length};
ghost use Rattle.layer.specs.Layer.{no_table};
ghost use Rattle.layer.specs.Merge.{firsts};
ghost use Rattle.layer.specs.inner.Gather.{gathered_out, merge_table, items_of, CountersRead, Seats, Entries, Sofar};
ghost use Rattle.layer_indexed.specs.Merging.{offer_all_in};
ghost use Rattle.layer_merge_indexed.specs.inner.Offering.{gathered_with_in, gathered_with_out, offer_one_in, offers_in};

use crate::distinct::take_firsts;
use heap_moves::Item;
use layer::{Dims, Merged};

// Offers one more key, with its count, and tells what the offer did in the next place of the list.
fn offer_one(
    entries: &mut [u64],
    counts: &mut [i64],
    index: &mut [u64],
    list: &mut [u64],
    d: Dims,
    g: Merged,
    w: Item,
    counters: &[i64],
) -> Merged
    requires seats { Seats d (length entries.old) (length counts.old) }
    requires sofar { Sofar d g (2 * most_cands) }
    requires counters_read { CountersRead d counters.now }
    requires keys_in_bounds { 2 * g.keys + 2 ≤ length list.old }
    ensures { gathered_with_out index entries counts list result ≡ offer_one_in d counters.now w (gathered_with_in index entries counts list g) }
{
    let count = countsketch_l2_norm::count_with_hash(counters, d.rows, d.cols, w.high, w.low);
    let a = heap_indexed::offer(index, entries, counts, d.size, g.len, w, count).answer;
    let len = heap::len_after(g.len, a);
    heap::tell_at(list, g.keys, a);
    Merged {
        len,
        keys: g.keys + 1,
    }
}

// Offers the first n entries of the source in turn, to a table that has none.
fn offer_firsts(
    entries: &mut [u64],
    counts: &mut [i64],
    index: &mut [u64],
    list: &mut [u64],
    d: Dims,
    source: &[u64],
    n: usize,
    counters: &[i64],
) -> Merged
    requires seats { Seats d (length entries.old) (length counts.old) }
    requires counters_read { CountersRead d counters.now }
    requires n_in_bounds { (4 * n ≤ length source.now) × (n ≤ 2 * most_cands) }
    requires n_in_bounds_2 { 2 * n ≤ length list.old }
    ensures { gathered_with_out index entries counts list result
        ≡ offers_in d counters.now (items_of source.now n) (gathered_with_in index entries counts list (record { len = 0; keys = 0 })) }
{
    let mut g = Merged { len: 0, keys: 0 };
    for i in 0..n {
        let w = heap_moves::item_at(source, i);
        g = offer_one(entries, counts, index, list, d, g, w, counters);
    }
    g
}

// The first entries of distinct keys, the layer's own and then the other's, are set aside; then the slices are
// zeroed, and these entries are offered in turn. Until it is zeroed the list is the index by which a key's first
// entry is known: it has more places than both layers have entries. No old count is read.
pub fn merge_candidates(
    entries: &mut [u64],
    counts: &mut [i64],
    index: &mut [u64],
    list: &mut [u64],
    d: Dims,
    len: usize,
    other: &[u64],
    other_len: usize,
    counters: &[i64],
) -> Merged
    requires seats { Seats d (length entries.old) (length counts.old) }
    requires len_le_size { len ≤ d.size }
    requires counters_read { CountersRead d counters.now }
    requires entries { Entries (length other.now) other_len }
    requires other_len_le_size { (other_len ≤ d.size) × ((length list.old ≡ 4 * d.size) × (length index.old ≡ index_length d.size)) }
    ensures result_value { gathered_out entries counts list result ≡ merge_table d counters.now (items_of entries.old len ++ items_of other.now other_len) }
    ensures index_after { index.new
        ≡ offer_all_in d counters.now (firsts [] (items_of entries.old len ++ items_of other.now other_len)) (replicate (index_length d.size) 0) (no_table d.size) }
{
    let mut aside = [0u64; 8 * heap_moves::MAX_HEAP_SIZE];
    let mut zeros = [0i64; 2 * heap_moves::MAX_HEAP_SIZE];
    list.fill(0);
    let own = take_firsts(list, &mut aside, &mut zeros, 0, &*entries, len);
    let both = take_firsts(list, &mut aside, &mut zeros, own, other, other_len);
    entries.fill(0);
    counts.fill(0);
    index.fill(0);
    list.fill(0);
    offer_firsts(entries, counts, index, list, d, &aside, both, counters)
}
