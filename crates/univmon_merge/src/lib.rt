// UnivMon's merge: the call that merges a second state into a first. A state is a `Header` by value and
// four slices that the caller lends, as in `univmon`; the second state's are only read. What stands behind the
// call here is for `univmon_merge_indexed`.

#![tactic(auto)]

mod calls;
mod judge;
mod layers;

pub use calls::merge;
pub use judge::check_merge;
pub use layers::seated;
