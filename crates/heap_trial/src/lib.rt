// Whether an offer to a layer with an index would be refused, with everything left as it was: it is made and
// taken back. A pass that only reads would not do: where a damaged table has a number twice, what a swap
// exchanges changes what the second place names, and later lookups see it.
//
// The stack is the journal: a function makes one step, calls itself for the rest, and takes its own step back.
//
// These functions are called by the other crates of this repository, which show what they require.

#![tactic(auto)]

mod gaps;
mod offers;
mod paths;

pub use offers::try_offer;

// A place, and how many are left from it on.
#[derive(Clone, Copy)]
struct Spot {
    place: usize,
    left: usize,
}
