// One layer's candidates with an index: the heap's moves, each swap with the exchange of its two
// numbers, and the offer. Nothing is assumed of the index: where a lookup leads nowhere a move
// stops, and says so.
//
// These functions are called by the other crates of this repository, which show what they require.

#![tactic(auto)]

mod moves;
mod offers;

use heap::Answer;
pub use moves::child_in;
pub use offers::{come_in, offer};

// What an offer did, and whether it was made: a lookup of its moves may have been refused. Not an `Option` of
// the answer: the clauses of `layer_indexed::add` and `apply_delta` tell the answer where it was not made, too.
#[derive(Clone, Copy)]
pub struct TriedOffer {
    pub made: bool,
    pub answer: Answer,
}
