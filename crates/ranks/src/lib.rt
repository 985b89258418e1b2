// The working space of a terminal sum: three arrays, with a place in each for a candidate's key,
// bottom hash and count. Candidates are taken in, put in order, cut and summed. Marks beside the arrays
// tell which keys are new.
//
// These functions are called by the other crates of this repository, which show what they require.

#![tactic(auto)]

mod blocks;
mod marks;
mod order;
mod parts;
mod step;

pub use marks::{SPOTS, mark_first};
pub use order::absorb_one;
pub use parts::rank;
pub use step::{close, cut, sum_level};
use sums::G;

// What is asked: g, whether every key counts, and the heap size.
#[derive(Clone, Copy)]
pub struct Ask {
    pub g: G,
    pub every: bool,
    pub size: usize,
}

// A layer: its flag, its L2 times its L2, whether it is the last one, and the bit that signs.
#[derive(Clone, Copy)]
pub struct Place {
    pub flag: bool,
    pub square: f64,
    pub last: bool,
    pub bit: u32,
}

// What a layer hands up: how many candidates it retained, which stand in the working space, whether
// no flag fell so far, the squares and the sum so far.
#[derive(Clone, Copy)]
pub struct Level {
    pub n: usize,
    pub whole: bool,
    pub squares: f64,
    pub sum: f64,
}
