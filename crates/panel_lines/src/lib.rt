// Lines of the program `panel`: cut out of its input, read, and answered.
//
// These functions are for the other crates of this repository: each caller proves what they require.

#![tactic(auto)]

pub mod answer;
pub mod line;
pub mod split;
