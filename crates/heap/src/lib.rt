// One layer's candidates (the Rust's `TopKHeap`): the first `len` of `size` places are used.
//
// These functions are called by the other crates of this repository, which show what they require.

#![tactic(auto)]

mod blocks;
mod tell;

ghost use Rattle.std.specs.Prelude.{◌≡◌, ℕ, ◌≤◌, ◌<◌, ◌*◌, List, length, take, unwrap_or, IfSome, ℤ};
ghost use Rattle.words.specs.Num.{all_in};
ghost use Rattle.heap_moves.specs.Cands.{most_cands, recount, update_at};
ghost use Rattle.heap_moves.specs.Flat.{cands_of, cand_of, entries_of, counts_of};
ghost use Rattle.heap_moves.specs.inner.Post.{Two};
ghost use Rattle.heap.specs.Offer;
ghost use Rattle.heap.specs.Offer.{kept_by, len_by};
ghost use Rattle.heap.specs.inner.Slices.{Room, table_of, offered_of, offered};

pub use tell::tell_at;

// What an offered candidate did: got a new count, was seated, displaced a key, or was turned away.
#[derive(Clone, Copy)]
pub enum Answer {
    Rescored,
    Seated,
    Displaced(u64),
    TurnedAway,
}

// The first of the n entries with the key, if there is one. A scan over every fourth word.
pub fn find(entries: &[u64], n: usize, key: u64) -> Option<usize>
    requires { 4 * n ≤ length entries.now }
    ensures first_match { (ns : List ℤ) → n ≤ length ns → unwrap_or result n ≡ Rattle.heap.specs.Offer.find key (take n (cands_of entries.now ns)) }
    ensures within { IfSome result (λ i. i < n) }
{
    let seen = blocks::front_other(entries, n, key);
    (seen..n).find(|i| entries[4 * *i] == key)
}

// A known key's new count: its entry keeps its words, and moves down or else up.
fn rescore(entries: &mut [u64], counts: &mut [i64], n: usize, i: usize, v: i64)
    requires two { Two (length entries.old) (length counts.old) i i }
    requires i_lt_n { (i < n) × (n ≤ length counts.old) }
    ensures { cands_of entries.new counts.new ≡ update_at n (recount (cands_of entries.old counts.old) i v) i }
{
    counts[i] = v;
    heap_moves::update_at(entries, counts, n, i);
}

// A new key takes the first free place, and moves up.
fn seat(entries: &mut [u64], counts: &mut [i64], len: usize, w: heap_moves::Item, v: i64)
    requires { Two (length entries.old) (length counts.old) len len }
    ensures { cands_of entries.new counts.new ≡ (Rattle.heap.specs.Offer.seat (table_of entries.old counts.old len) (cand_of w v)).cands }
{
    heap_moves::put_cand(entries, counts, len, w, v);
    heap_moves::bubble_up(entries, counts, len);
}

// A full table: a strictly greater count takes the root's place, and moves down.
fn displace(
    entries: &mut [u64],
    counts: &mut [i64],
    len: usize,
    w: heap_moves::Item,
    v: i64,
) -> Answer
    requires two { Two (length entries.old) (length counts.old) 0 0 }
    requires len_nonzero { (0 < len) × (len ≤ length counts.old) }
    ensures { offered_of entries.new counts.new len result ≡ Rattle.heap.specs.Offer.displace (table_of entries.old counts.old len) (cand_of w v) }
{
    if counts[0] < v {
        let out = entries[0];
        heap_moves::put_cand(entries, counts, 0, w, v);
        heap_moves::bubble_down(entries, counts, len, 0);
        return Answer::Displaced(out);
    }
    Answer::TurnedAway
}

// The Rust's `update`: a candidate with its count is offered to a table.
pub fn offer(
    entries: &mut [u64],
    counts: &mut [i64],
    size: usize,
    len: usize,
    w: heap_moves::Item,
    v: i64,
) -> Answer
    requires { Room (length entries.old) (length counts.old) size len }
    ensures entries_after { entries.new ≡ entries_of (offered entries.old counts.old size len w v).table.cands }
    ensures counts_after { counts.new ≡ counts_of (offered entries.old counts.old size len w v).table.cands }
    ensures value { result ≡ (offered entries.old counts.old size len w v).answer }
    ensures len_value { len_by result len ≡ (offered entries.old counts.old size len w v).table.len }
{
    if let Some(at) = find(&*entries, len, w.key) {
        rescore(entries, counts, len, at, v);
        return Answer::Rescored;
    }
    if len < size {
        seat(entries, counts, len, w, v);
        return Answer::Seated;
    }
    displace(entries, counts, len, w, v)
}

// The length after an offer.
pub fn len_after(len: usize, a: Answer) -> usize
    requires { len ≤ most_cands }
    ensures { result ≡ len_by a len }
{
    match a {
        Answer::Seated => len + 1,
        Answer::Rescored | Answer::Displaced(_) | Answer::TurnedAway => len,
    }
}

// The Rust's true or false: whether no key was lost.
pub fn kept(a: Answer) -> bool
    ensures { result ≡ kept_by a }
{
    matches!(a, Answer::Rescored | Answer::Seated)
}

// Whether the counts of the first n candidates lie within ±2^52.
pub fn counts_in_range(counts: &[i64], n: usize) -> bool
    requires { n ≤ length counts.now }
    ensures { result ≡ all_in (take n counts.now) }
{
    words::first_in_range(counts, n)
}
