// The state check: whether a header and four slices have what every accepted call keeps. It goes once
// over each slice, and answers on any numbers.

#![tactic(auto)]

mod candidates;
mod layers;
mod rows;

pub use candidates::seats_ok;
pub use layers::check_state;
