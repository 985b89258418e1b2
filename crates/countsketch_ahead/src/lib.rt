// The count that an update would leave, with nothing stored: an update of a layer with an index is judged
// by it before anything is touched. `countsketch_l2_norm::update_if_ready` makes the update.
//
// These functions are called by the other crates of this repository, which show what they require.

#![tactic(auto)]

mod rows;
mod straight;

pub use rows::count_if_ready;
