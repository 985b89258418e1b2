// One layer with an index: counters, norms and candidates in four slices, and the table of its index, for
// any rows, columns and heap size. What is done to the counters is what `layer` does; the key is sought by
// the index, and the index is kept.
//
// These functions are called by the other crates of this repository, which show what they require. Those
// that judge leave everything as it was lent.

#![tactic(auto)]

mod adding;
mod deltas;
mod grades;
mod looks;

pub use adding::{add, add_grade, add_if_fine};
pub use deltas::{apply_delta, delta_grade};
pub use grades::Grade;
