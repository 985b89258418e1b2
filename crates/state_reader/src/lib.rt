// A state read from text: everything is judged before anything is written.

#![tactic(auto)]

mod call;
mod judge;
mod keeping;
mod page;

pub use call::read_state;
