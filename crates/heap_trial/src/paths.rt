// The moves of the heap, tried.
ghost use Rattle.std.specs.Prelude.{◌≡◌, ℕ, ◌+◌, ◌<◌, length, set};
ghost use Rattle.heap_moves.specs.Cands.{swapped};
ghost use Rattle.heap_moves.specs.inner.Post.{Two};
ghost use Rattle.heap_moves.specs.Flat.{cands_of};
ghost use Rattle.heap_index.specs.inner.Needs.{Cover};
ghost use Rattle.heap_indexed.specs.Moves;

// Exchanges the entries i and j, and their numbers at the places a and b.
fn swap_at(
    index: &mut [u64],
    entries: &mut [u64],
    counts: &mut [i64],
    i: usize,
    j: usize,
    a: usize,
    b: usize,
)
    requires two { Two (length entries.old) (length counts.old) i j }
    requires a_in_bounds { (a < length index.old) × (b < length index.old) }
    ensures index_after { index.new ≡ set (set index.old a (j + 1)) b (i + 1) }
    ensures counts_after { cands_of entries.new counts.new ≡ swapped (cands_of entries.old counts.old) i j }
{
    index[a] = j as u64 + 1;
    index[b] = i as u64 + 1;
    heap_moves::swap_entries(entries, counts, i, j);
}

// Whether `climb` from i would not be refused.
pub fn try_climb(
    index: &mut [u64],
    entries: &mut [u64],
    counts: &mut [i64],
    n: usize,
    i: usize,
) -> bool
    requires cover { Cover (length entries.old) (length counts.old) n }
    requires i_lt_n { i < n }
    ensures value { result ≡ (Rattle.heap_indexed.specs.Moves.climb i n index.old (cands_of entries.old counts.old) i).fine }
    ensures index_unchanged { index.new ≡ index.old }
    ensures counts_unchanged { cands_of entries.new counts.new ≡ cands_of entries.old counts.old }
{
    if i == 0 {
        return true;
    }
    let p = (i - 1) / 2;
    if !heap_indexed::child_in(&*counts, n, p) {
        return false;
    }
    if !heap_moves::should_swap(&*counts, p, i) {
        return true;
    }
    let Some(a) = heap_index::found_under(&*index, &*entries, &*counts, n, p) else {
        return false;
    };
    let Some(b) = heap_index::found_under(&*index, &*entries, &*counts, n, i) else {
        return false;
    };
    swap_at(index, entries, counts, p, i, a, b);
    let r = try_climb(index, entries, counts, n, p);
    swap_at(index, entries, counts, i, p, a, b);
    r
}

// Whether `sink` from i would not be refused.
pub fn try_sink(
    index: &mut [u64],
    entries: &mut [u64],
    counts: &mut [i64],
    n: usize,
    i: usize,
) -> bool
    requires cover { Cover (length entries.old) (length counts.old) n }
    requires i_lt_n { i < n }
    ensures value { result ≡ (Rattle.heap_indexed.specs.Moves.sink n n index.old (cands_of entries.old counts.old) i).fine }
    ensures index_unchanged { index.new ≡ index.old }
    ensures counts_unchanged { cands_of entries.new counts.new ≡ cands_of entries.old counts.old }
{
    if !heap_indexed::child_in(&*counts, n, 2 * i + 1) {
        return false;
    }
    if !heap_indexed::child_in(&*counts, n, 2 * i + 2) {
        return false;
    }
    let j = heap_moves::lowest(&*counts, n, i);
    if j == i {
        return true;
    }
    let Some(a) = heap_index::found_under(&*index, &*entries, &*counts, n, i) else {
        return false;
    };
    let Some(b) = heap_index::found_under(&*index, &*entries, &*counts, n, j) else {
        return false;
    };
    swap_at(index, entries, counts, i, j, a, b);
    let r = try_sink(index, entries, counts, n, j);
    swap_at(index, entries, counts, j, i, a, b);
    r
}

// Whether `resettle` at i would not be refused.
pub fn try_resettle(
    index: &mut [u64],
    entries: &mut [u64],
    counts: &mut [i64],
    n: usize,
    i: usize,
) -> bool
    requires cover { Cover (length entries.old) (length counts.old) n }
    requires i_lt_n { i < n }
    ensures value { result ≡ (Rattle.heap_indexed.specs.Moves.resettle n index.old (cands_of entries.old counts.old) i).fine }
    ensures index_unchanged { index.new ≡ index.old }
    ensures counts_unchanged { cands_of entries.new counts.new ≡ cands_of entries.old counts.old }
{
    if !heap_indexed::child_in(&*counts, n, 2 * i + 1) {
        return false;
    }
    if !heap_indexed::child_in(&*counts, n, 2 * i + 2) {
        return false;
    }
    let j = heap_moves::lowest(&*counts, n, i);
    if j == i {
        return try_climb(index, entries, counts, n, i);
    }
    try_sink(index, entries, counts, n, i)
}
