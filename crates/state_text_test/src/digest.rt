// A header and four slices as one number, that of oracle/model.py.
use header::{Header, Shape};

const WEIGHT: usize = 4;

const UPDATES: usize = WEIGHT + 1;

const MODE: usize = UPDATES + 1;

const FLAGS: usize = MODE + 1;

const LENS: usize = FLAGS + Shape::MAX_LAYERS;

const HEAD_WORDS: usize = LENS + Shape::MAX_LAYERS;

// The words of a header.
fn words_of(h: Header) -> [u64; HEAD_WORDS] {
    let lens = h.lens;
    let flags = h.flags;
    let mode = h.mode;
    let mut words = [0u64; HEAD_WORDS];
    words[0] = h.shape.heap_size as u64;
    words[1] = h.shape.mouse_rows as u64;
    words[2] = h.shape.mouse_cols as u64;
    words[3] = h.shape.layers as u64;
    words[WEIGHT] = h.totals.weight;
    words[UPDATES] = h.totals.updates;
    words[MODE] = header::mode_number(mode);
    for l in 0..Shape::MAX_LAYERS {
        words[l + FLAGS] = u64::from(flags[l]);
        words[l + LENS] = lens[l] as u64;
    }
    words
}

fn of_words(start: u64, xs: &[u64]) -> u64 {
    xs.iter().fold(start, |d, x| vectors::mixed(d, *x))
}

fn of_signed(start: u64, xs: &[i64]) -> u64 {
    xs.iter()
        .fold(start, |d, x| vectors::mixed(d, vectors::unsigned(*x)))
}

// The same for n times one word.
pub fn repeated(word: u64, n: usize) -> u64 {
    (0..n).fold(0, |d, _| vectors::mixed(d, word))
}

pub fn whole(h: Header, counters: &[i64], norms: &[u64], entries: &[u64], counts: &[i64]) -> u64 {
    let words = words_of(h);
    let a = of_words(0, &words);
    let b = of_signed(a, counters);
    let c = of_words(b, norms);
    let d = of_words(c, entries);
    of_signed(d, counts)
}
