// One layer whole: counters, norms and candidates in four slices, for any rows, columns and heap
// size.
//
// These functions are called by the other crates of this repository, which show what they require:
// those that answer yes or no judge, those that store do not judge again, and `add_if_ready` does both.

#![tactic(auto)]

mod adding;
mod candidates;
mod deltas;
mod merging;

pub use adding::{add, add_if_ready, add_reads, add_ready};
pub use deltas::{apply_delta, delta_fits, delta_reads};
pub use merging::{merge, merge_fits, merge_reads};

// Rows, columns and heap size of a layer.
#[derive(Clone, Copy)]
pub struct Dims {
    pub rows: usize,
    pub cols: usize,
    pub size: usize,
}

// What a merge leaves: the number of candidates, and of the distinct keys that were offered.
#[derive(Clone, Copy)]
pub struct Merged {
    pub len: usize,
    pub keys: usize,
}
