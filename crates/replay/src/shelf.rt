// The shelf: all that the program holds, as words of one slice, since each slice that a function passes on
// makes its proof longer. It has eight places for a relay: in the first stands the one at work, in the last
// the second one, which a merge reads. Behind them are the records, and the words of the call.
ghost use Rattle.std.specs.Prelude.{◌≤◌};

use crate::heads::HEAD_WORDS;
use header::Shape;

// The greatest state that is run: counters, counts, norm words, two for each row of each layer, and entry words,
// four for each count.
pub const CELLS: usize = 12288;

pub const SEATS: usize = 2048;

pub const NORM_WORDS: usize = 2 * Shape::MAX_LAYERS * Shape::MAX_ROWS;

pub const ENTRY_WORDS: usize = 4 * SEATS;

// A place has the header's words, how much of each slice is lent, and the slices.
pub const LENT_COUNTERS: usize = HEAD_WORDS;

pub const LENT_NORMS: usize = LENT_COUNTERS + 1;

pub const LENT_ENTRIES: usize = LENT_NORMS + 1;

pub const LENT_COUNTS: usize = LENT_ENTRIES + 1;

pub const COUNTERS: usize = LENT_COUNTS + 1;

pub const COUNTS: usize = COUNTERS + CELLS;

pub const NORMS: usize = COUNTS + SEATS;

pub const ENTRIES: usize = NORMS + NORM_WORDS;

pub const PLACE: usize = ENTRIES + ENTRY_WORDS;

pub const PLACES: u64 = 8;

pub const SECOND: usize = (PLACES as usize - 1) * PLACE;

pub const SECOND_COUNTERS: usize = SECOND + COUNTERS;

pub const SECOND_COUNTS: usize = SECOND + COUNTS;

pub const SECOND_NORMS: usize = SECOND + NORMS;

pub const SECOND_ENTRIES: usize = SECOND + ENTRIES;

// Records: key, bottom hash, and two words for each layer.
pub const RECORDS: usize = PLACES as usize * PLACE;

pub const RECORD_WORDS: usize = 2 + 2 * Shape::MAX_LAYERS;

pub const KEPT_RECORDS: u64 = 256;

// The words of a call.
pub const WORDS: usize = RECORDS + KEPT_RECORDS as usize * RECORD_WORDS;

pub const CALL_WORDS: usize = 48;

// The eighth of them is how many words of a list the call is lent, 0 for the calls that are lent none. The greatest
// list is a merge's, as long as the entries, and some words more.
pub const LENT_LIST: usize = 7;

pub const LIST_WORDS: usize = ENTRY_WORDS + 16;

pub const ALL: usize = WORDS + CALL_WORDS;

// The word i places behind place `at`; 0 past the end.
pub fn get(xs: &[u64], at: usize, i: usize) -> u64 {
    if at < xs.len() && i < xs.len() - at {
        xs[at + i]
    } else {
        0
    }
}

pub fn set(xs: &mut [u64], at: usize, i: usize, x: u64) {
    if at < xs.len() && i < xs.len() - at {
        xs[at + i] = x;
    }
}

// How much of a slice is lent: the word i places behind place `at`, but at most `most`.
pub fn lent(xs: &[u64], at: usize, i: usize, most: usize) -> usize
    ensures { result ≤ most }
{
    most.min(get(xs, at, i) as usize)
}

// Copies n words from place `from` to place `to` of the same slice.
pub fn shift(xs: &mut [u64], from: usize, to: usize, n: usize) {
    for i in 0..n {
        let x = get(&*xs, from, i);
        set(xs, to, i, x);
    }
}

// The same from one slice to another.
pub fn copy(xs: &[u64], from: usize, ys: &mut [u64], to: usize, n: usize) {
    for i in 0..n {
        set(ys, to, i, get(xs, from, i));
    }
}

// Fills `ys` with the words from place `from` on, read as signed numbers; 0 past the end.
pub fn take_signed(xs: &[u64], from: usize, ys: &mut [i64]) {
    let have = xs.len().saturating_sub(from).min(ys.len());
    for i in 0..have {
        ys[i] = vectors::signed(xs[from + i]);
    }
    ys[have..].fill(0);
}

// Writes the first n signed numbers as words, from place `to` on.
pub fn put_signed(xs: &[i64], ys: &mut [u64], to: usize, n: usize) {
    for (i, x) in xs.iter().take(n).enumerate() {
        set(ys, to, i, vectors::unsigned(*x));
    }
}
