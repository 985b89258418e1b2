// A state's text, form by form: what each line is, and the lines of a layer laid. Who lays a text stores what the slice has
// room for and answers the place past the whole text: lent a slice of no use, it only measures.
//
// These functions are for the other crates of this repository: each caller proves what they require.

#![tactic(auto)]

pub mod cells;
pub mod keys;
pub mod lay;
