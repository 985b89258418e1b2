// Numbers and words in byte slices: read at a place, and written from a place on.
//
// These functions are for the other crates of this repository: each caller proves what they require.

#![tactic(auto)]

pub mod decimals;
pub mod hex;
pub mod signed;
pub mod word;
