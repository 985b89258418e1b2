// One layer's candidates as an array heap: four words for each entry, a signed count for each in a
// second slice, the smallest count at the root. The moves are those of the Rust's `CommonHeap` under
// `RetainLargest`; an entry's words and its count move together.
//
// These functions are called by the other crates of this repository, which show what they require.

#![tactic(auto)]

ghost use Rattle.std.specs.Prelude.{◌≡◌, ℕ, ◌+◌, ◌≤◌, ◌<◌, ◌*◌, not, List, length, set};
ghost use Rattle.heap_moves.specs.Cands.{smaller, swapped, up, left_or, lower, down, stays, update_at};
ghost use Rattle.heap_moves.specs.Flat.{cands_of, item_of, cand_of};
ghost use Rattle.heap_moves.specs.inner.Post.{store4, Two};

// The greatest heap size: the most candidates of a layer.
pub const MAX_HEAP_SIZE: usize = 1024;

// An item: a key, its bottom hash, and the halves of one layer's hash.
#[derive(Clone, Copy)]
pub struct Item {
    pub key: u64,
    pub bottom: u64,
    pub high: u64,
    pub low: u64,
}

// The entry at place i.
pub fn item_at(entries: &[u64], i: usize) -> Item
    requires { 4 * i + 4 ≤ length entries.now }
    ensures { result ≡ item_of entries.now i }
{
    let a = 4 * i;
    Item {
        key: entries[a],
        bottom: entries[a + 1],
        high: entries[a + 2],
        low: entries[a + 3],
    }
}

// Stores an entry's four words at place i.
fn put_item(entries: &mut [u64], i: usize, w: Item)
    requires { 4 * i + 4 ≤ length entries.old }
    ensures { entries.new ≡ store4 entries.old i w }
{
    let a = 4 * i;
    entries[a] = w.key;
    entries[a + 1] = w.bottom;
    entries[a + 2] = w.high;
    entries[a + 3] = w.low;
}

// Stores an entry and its count at place i.
pub fn put_cand(entries: &mut [u64], counts: &mut [i64], i: usize, w: Item, n: i64)
    requires { Two (length entries.old) (length counts.old) i i }
    ensures { cands_of entries.new counts.new ≡ set (cands_of entries.old counts.old) i (cand_of w n) }
{
    put_item(entries, i, w);
    counts[i] = n;
}

// Exchanges two entries with their counts. `counts.swap(i, j)` would first ask which of i and j is less: two
// jumps more for each exchange of the hot path.
pub fn swap_entries(entries: &mut [u64], counts: &mut [i64], i: usize, j: usize)
    requires { Two (length entries.old) (length counts.old) i j }
    ensures { cands_of entries.new counts.new ≡ swapped (cands_of entries.old counts.old) i j }
{
    let w = item_at(entries, i);
    let v = item_at(entries, j);
    let n = counts[i];
    let m = counts[j];
    put_item(entries, i, v);
    put_item(entries, j, w);
    counts[i] = m;
    counts[j] = n;
}

// `should_swap` of `RetainLargest`: whether the count at `child` is strictly smaller.
pub fn should_swap(counts: &[i64], parent: usize, child: usize) -> bool
    requires { (parent < length counts.now) × (child < length counts.now) }
    ensures { (es : List ℕ) → result ≡ smaller (cands_of es counts.now) child parent }
{
    counts[child] < counts[parent]
}

// `bubble_up_with`: moves the entry at `start` up while it is smaller than its parent.
pub fn bubble_up(entries: &mut [u64], counts: &mut [i64], start: usize)
    requires { Two (length entries.old) (length counts.old) start start }
    ensures { cands_of entries.new counts.new ≡ up start (cands_of entries.old counts.old) start }
{
    let mut i = start;
    while i > 0 {
        let p = (i - 1) / 2;
        if should_swap(&*counts, p, i) {
            swap_entries(entries, counts, p, i);
            i = p;
        } else {
            return;
        }
    }
}

// The place of the left child if its count is smaller than that at i, else i.
fn left_or(counts: &[i64], n: usize, i: usize) -> usize
    requires { (i < n) × (n ≤ length counts.now) }
    ensures { ((es : List ℕ) → result ≡ left_or n (cands_of es counts.now) i) × ((i ≤ result) × (result < n)) }
{
    let left = 2 * i + 1;
    if left < n && should_swap(counts, i, left) {
        return left;
    }
    i
}

// The place of the smallest of the counts at i and at its children. The right child is held
// against the smaller of the other two.
pub fn lowest(counts: &[i64], n: usize, i: usize) -> usize
    requires { (i < n) × (n ≤ length counts.now) }
    ensures { ((es : List ℕ) → result ≡ lower n (cands_of es counts.now) i) × ((i ≤ result) × (result < n)) }
{
    let j = left_or(counts, n, i);
    let right = 2 * i + 2;
    if right < n && should_swap(counts, j, right) {
        return right;
    }
    j
}

// `bubble_down_with`: moves the entry at `start` down among the first n; whether it moved.
pub fn bubble_down(entries: &mut [u64], counts: &mut [i64], n: usize, start: usize) -> bool
    requires two { Two (length entries.old) (length counts.old) start start }
    requires start_lt_n { (start < n) × (n ≤ length counts.old) }
    ensures counts_after { cands_of entries.new counts.new ≡ down n n (cands_of entries.old counts.old) start }
    ensures value { result ≡ not (stays n (cands_of entries.old counts.old) start) }
{
    let mut i = start;
    loop {
        let j = lowest(&*counts, n, i);
        if j == i {
            return i != start;
        }
        swap_entries(entries, counts, i, j);
        i = j;
    }
}

// `update_at_with`: moves the entry at i, whose count changed, among the first n: down, or else up.
pub fn update_at(entries: &mut [u64], counts: &mut [i64], n: usize, i: usize)
    requires two { Two (length entries.old) (length counts.old) i i }
    requires i_lt_n { (i < n) × (n ≤ length counts.old) }
    ensures { cands_of entries.new counts.new ≡ update_at n (cands_of entries.old counts.old) i }
{
    if !bubble_down(entries, counts, n, i) {
        bubble_up(entries, counts, i);
    }
}
