// The moves of the heap, each swap with the exchange of its two numbers in the index.
ghost use Rattle.std.specs.Prelude.{◌≡◌, List, ℕ, ◌≤◌, ◌<◌, length};
ghost use Rattle.heap_moves.specs.Flat.{cands_of};
ghost use Rattle.heap_index.specs.inner.Needs.{Cover};
ghost use Rattle.heap_indexed.specs.Moves;
ghost use Rattle.heap_indexed.specs.Moves.{child_in, swap_in};
ghost use Rattle.heap_indexed.specs.inner.Slices.{cands_with};

// Whether the entry at j, if it is one of the n, is in range.
pub fn child_in(counts: &[i64], n: usize, j: usize) -> bool
    requires { n ≤ length counts.now }
    ensures { (es : List ℕ) → result ≡ child_in n (cands_of es counts.now) j }
{
    n <= j || words::in_range(counts[j])
}

// Exchanges two entries and their numbers; whether both keys were found.
fn swap(
    index: &mut [u64],
    entries: &mut [u64],
    counts: &mut [i64],
    n: usize,
    i: usize,
    j: usize,
) -> bool
    requires cover { Cover (length entries.old) (length counts.old) n }
    requires i_in_bounds { (i < length counts.old) × (j < length counts.old) }
    ensures { cands_with index.new entries.new counts.new result ≡ swap_in n index.old (cands_of entries.old counts.old) i j }
{
    if !heap_index::exchange(index, &*entries, &*counts, n, i, j) {
        return false;
    }
    heap_moves::swap_entries(entries, counts, i, j);
    true
}

// Moves the entry at `start` up while it is smaller than its parent.
pub fn climb(
    index: &mut [u64],
    entries: &mut [u64],
    counts: &mut [i64],
    n: usize,
    start: usize,
) -> bool
    requires cover { Cover (length entries.old) (length counts.old) n }
    requires start_lt_n { start < n }
    ensures { cands_with index.new entries.new counts.new result ≡ Rattle.heap_indexed.specs.Moves.climb start n index.old (cands_of entries.old counts.old) start }
{
    let mut i = start;
    while i > 0 {
        let p = (i - 1) / 2;
        if !child_in(&*counts, n, p) {
            return false;
        }
        if !heap_moves::should_swap(&*counts, p, i) {
            return true;
        }
        if !swap(index, entries, counts, n, p, i) {
            return false;
        }
        i = p;
    }
    true
}

// Moves the entry at `start` down among the first n while a child is smaller.
pub fn sink(
    index: &mut [u64],
    entries: &mut [u64],
    counts: &mut [i64],
    n: usize,
    start: usize,
) -> bool
    requires cover { Cover (length entries.old) (length counts.old) n }
    requires start_lt_n { start < n }
    ensures { cands_with index.new entries.new counts.new result ≡ Rattle.heap_indexed.specs.Moves.sink n n index.old (cands_of entries.old counts.old) start }
{
    let mut i = start;
    loop {
        if !child_in(&*counts, n, 2 * i + 1) {
            return false;
        }
        if !child_in(&*counts, n, 2 * i + 2) {
            return false;
        }
        let j = heap_moves::lowest(&*counts, n, i);
        if j == i {
            return true;
        }
        if !swap(index, entries, counts, n, i, j) {
            return false;
        }
        i = j;
    }
}

// Moves the entry at i, whose count changed: down, or else up.
pub fn resettle(
    index: &mut [u64],
    entries: &mut [u64],
    counts: &mut [i64],
    n: usize,
    i: usize,
) -> bool
    requires cover { Cover (length entries.old) (length counts.old) n }
    requires i_lt_n { i < n }
    ensures { cands_with index.new entries.new counts.new result ≡ Rattle.heap_indexed.specs.Moves.resettle n index.old (cands_of entries.old counts.old) i }
{
    if !child_in(&*counts, n, 2 * i + 1) {
        return false;
    }
    if !child_in(&*counts, n, 2 * i + 2) {
        return false;
    }
    let j = heap_moves::lowest(&*counts, n, i);
    if j == i {
        return climb(index, entries, counts, n, i);
    }
    sink(index, entries, counts, n, i)
}
