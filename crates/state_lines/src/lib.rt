// Lines of a state's text, read into slices as far as these go: lent slices of no use, a reading only judges.
//
// These functions are for the other crates of this repository: each caller proves what they require.

#![tactic(auto)]

pub mod cells;
pub mod heads;
pub mod keys;
mod parts;
pub mod rows;
