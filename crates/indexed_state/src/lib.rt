// A state with an index: the tables of all layers, lent in one slice beside the four. Its check, the index
// built from the entries, and the lookup of a key.

#![tactic(auto)]

mod building;
mod check;
mod lookups;

pub use building::build_index;
pub use check::check_indexed_state;
pub use lookups::lookup;

// What a lookup answers: the key's entry, if it was found, and the places that were probed.
#[derive(Clone, Copy)]
pub struct LookedUp {
    pub entry: Option<usize>,
    pub probes: usize,
}
