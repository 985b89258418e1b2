// The updates of a state with an index: a table for each layer, lent in one slice beside the four. Weight,
// mode, counters and lists are what they are without an index; keys are sought by the tables. Forms by value
// and with lengths and flags lent, as in `univmon`.

#![tactic(auto)]

mod calls;
mod judge;
mod lent;
mod send;
mod stages;

pub use calls::{update_weighted_indexed, update_weighted_terminal_indexed};
pub use lent::{update_weighted_indexed_lent, update_weighted_terminal_indexed_lent};
