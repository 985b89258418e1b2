// A new index.
ghost use Rattle.std.specs.Prelude.{◌≡◌, ℕ, ◌≤◌, ◌<◌, length};
ghost use Rattle.heap_moves.specs.Cands.{most_cands};
ghost use Rattle.heap_moves.specs.Flat.{cands_of};
ghost use Rattle.heap_index.specs.Index;
ghost use Rattle.heap_index.specs.Index.{key_at, index_length, enter_by};
ghost use Rattle.heap_index.specs.inner.Needs.{Cover};

use crate::Lookup;
use crate::lookups::look;

// The length of an index for a heap of `size` entries: the first power of two that is not below twice the size.
pub fn index_length(size: usize) -> usize
    requires { size ≤ most_cands }
    ensures { result ≡ index_length size }
{
    (2 * size).next_power_of_two()
}

// Entry i comes in, where the first i have, unless its key is found.
fn enter(index: &mut [u64], entries: &[u64], counts: &[i64], i: usize)
    requires cover { Cover (length entries.now) (length counts.now) i }
    requires i_in_bounds { i < length counts.now }
    ensures { index.new ≡ enter_by index.old i (Rattle.heap_index.specs.Index.look index.old i (cands_of entries.now counts.now) (key_at (cands_of entries.now counts.now) i)) }
{
    let Some(l) = look(&*index, entries, counts, i, entries[4 * i]) else {
        return;
    };
    if let Lookup::Vacant(p, _) = l {
        index[p] = i as u64 + 1;
    }
}

// The index of n candidates, built in heap order, a key's second entry left out.
pub fn build(index: &mut [u64], entries: &[u64], counts: &[i64], n: usize)
    requires { Cover (length entries.now) (length counts.now) n }
    ensures { index.new ≡ Rattle.heap_index.specs.Index.build (length index.old) n (cands_of entries.now counts.now) }
{
    index.fill(0);
    for i in 0..n {
        enter(index, entries, counts, i);
    }
}
