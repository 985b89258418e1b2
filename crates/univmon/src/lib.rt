// UnivMon: the calls that change one state; the merge of two is in `univmon_merge`. A state is a
// `Header` by value and four slices that the caller lends: counters, norms, entries and counts. For
// updates lengths and flags may be lent too. What stands behind the calls here is for `univmon_indexed`, which
// shows what it requires: steps of an update that an index does not change.

#![tactic(auto)]

mod calls;
mod fresh;
mod judge;
mod lent;
mod marks;
mod stages;
mod update;

pub use calls::{update_weighted, update_weighted_terminal};
pub use fresh::{clear, new, new_two_tier};
pub use lent::{update_weighted_lent, update_weighted_terminal_lent};
pub use marks::{mark_candidates_incomplete, mark_layer_candidates_incomplete, set_total_weight};
pub use stages::{begins, bottom_word, check_sizes, first_sent, mode_of};
pub use update::note;

// How an update sends its key to layers.
#[derive(Clone, Copy)]
pub enum Kind {
    Standard,
    Terminal,
}
