// UnivMonTwoTier for programs in C and Rust: wide top layers, under plain names with the prefix
// `univmon_two_tier_`. Each call takes the header apart, calls what the calls of one tier call, and puts
// the answer together. What crosses besides headers is as in `univmon_c`, and so are the bodies here: an
// export to C has no type parameter, so each of the two headers has its own.

#![tactic(auto)]

pub mod answering;
pub mod changing;
mod crossing;
pub mod lending;

use header::Shape;

// A header as C has it: the seven dimensions, then what a header of one tier has.
#[repr(C)]
#[derive(Clone, Copy)]
pub struct CTwoTier {
    pub heap_size: usize,
    pub layers: usize,
    pub elephant_layers: usize,
    pub elephant_rows: usize,
    pub elephant_cols: usize,
    pub mouse_rows: usize,
    pub mouse_cols: usize,
    pub weight: u64,
    pub updates: u64,
    pub mode: u64,
    pub lens: [usize; Shape::MAX_LAYERS],
    pub flags: [bool; Shape::MAX_LAYERS],
}

// What a call that changes a state answers: a refusal and the header as it was, or 0 and the new one.
#[repr(C)]
#[derive(Clone, Copy)]
pub struct CTwoTierAnswered {
    pub refusal: u64,
    pub header: CTwoTier,
}

// Dimensions, for calls that have no header by value.
#[repr(C)]
#[derive(Clone, Copy)]
pub struct CTwoTierShape {
    pub heap_size: usize,
    pub layers: usize,
    pub elephant_layers: usize,
    pub elephant_rows: usize,
    pub elephant_cols: usize,
    pub mouse_rows: usize,
    pub mouse_cols: usize,
}
