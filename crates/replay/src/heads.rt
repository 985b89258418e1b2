// Headers as words: the shape's seven, weight, updates, mode, a flag for each layer, a length for each layer.
use crate::shelf::get;
use header::{Header, Shape, Totals, mode_number, mode_of};

const WEIGHT: usize = 7;

const UPDATES: usize = WEIGHT + 1;

const MODE: usize = UPDATES + 1;

const FLAGS: usize = MODE + 1;

pub const LENS: usize = FLAGS + Shape::MAX_LAYERS;

pub const HEAD_WORDS: usize = LENS + Shape::MAX_LAYERS;

// The words of a header.
pub fn words_of(h: Header) -> [u64; HEAD_WORDS] {
    let mut words = [0u64; HEAD_WORDS];
    words[0] = h.shape.heap_size as u64;
    words[1] = h.shape.layers as u64;
    words[2] = h.shape.elephant_layers as u64;
    words[3] = h.shape.elephant_rows as u64;
    words[4] = h.shape.elephant_cols as u64;
    words[5] = h.shape.mouse_rows as u64;
    words[6] = h.shape.mouse_cols as u64;
    words[WEIGHT] = h.totals.weight;
    words[UPDATES] = h.totals.updates;
    words[MODE] = mode_number(h.mode);
    for l in 0..Shape::MAX_LAYERS {
        words[l + FLAGS] = u64::from(h.flags[l]);
        words[l + LENS] = h.lens[l] as u64;
    }
    words
}

// The header whose words stand from place `at` on; a number that is no mode is read as unset.
pub fn header_of(xs: &[u64], at: usize) -> Header {
    let mut lens = [0usize; Shape::MAX_LAYERS];
    let mut flags = [false; Shape::MAX_LAYERS];
    for l in 0..Shape::MAX_LAYERS {
        flags[l] = get(xs, at, l + FLAGS) != 0;
        lens[l] = get(xs, at, l + LENS) as usize;
    }
    let shape = Shape {
        heap_size: get(xs, at, 0) as usize,
        layers: get(xs, at, 1) as usize,
        elephant_layers: get(xs, at, 2) as usize,
        elephant_rows: get(xs, at, 3) as usize,
        elephant_cols: get(xs, at, 4) as usize,
        mouse_rows: get(xs, at, 5) as usize,
        mouse_cols: get(xs, at, 6) as usize,
    };
    Header {
        shape,
        totals: Totals {
            weight: get(xs, at, WEIGHT),
            updates: get(xs, at, UPDATES),
        },
        lens,
        flags,
        mode: mode_of(get(xs, at, MODE)),
    }
}
