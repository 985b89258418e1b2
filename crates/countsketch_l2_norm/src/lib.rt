// One layer's Count Sketch: rows × cols counters, by row, then column, and two words a row for the
// row's sum of capped squares, its norm.
//
// These functions are called by the other crates of this repository, which show what they require:
// the functions that answer yes or no judge, the functions that store do not judge again, and
// `update_if_ready` does both.

#![tactic(auto)]

mod cells;
mod estimate;
mod merging;
mod norm;
mod straight;
mod update;

pub use cells::{apply_delta, cell_fits, cell_read, norm_of};
pub use estimate::{cells_in, count_with_hash, estimate_with_hash, row_estimate};
pub use merging::{add_all, all_in, merge, row_norm, row_norms, sums_fit};
pub use norm::{l2, l2_squared, norms_in};
pub use straight::row_ready_at;
pub use update::{
    place, rows_fit, rows_read, rows_ready, update_and_count, update_if_ready,
    update_weighted_with_hash,
};
