// The merge of a second state into a first that has an index. The second's index is not lent: no old table is
// read.

#![tactic(auto)]

mod calls;
mod layers;

pub use calls::merge_indexed;
