// UnivMon for programs in C and Rust: the public calls under plain names with the prefix `univmon_`. Its
// header has four dimensions; those of `UnivMonTwoTier` are in `univmon_two_tier`.
// A header crosses by value with its mode as a number, a slice as a pointer and a length. For updates
// the header's lengths and flags may be lent instead, so that nothing large is copied.

#![tactic(auto)]

pub mod answering;
pub mod changing;
pub mod crossing;
pub mod lending;
pub mod texts;

use header::Shape;

// A header as C has it: mode 0 is unset, 1 standard, 2 terminal; another number is refused with 9.
#[repr(C)]
#[derive(Clone, Copy)]
pub struct CHeader {
    pub heap_size: usize,
    pub rows: usize,
    pub cols: usize,
    pub layers: usize,
    pub weight: u64,
    pub updates: u64,
    pub mode: u64,
    pub lens: [usize; Shape::MAX_LAYERS],
    pub flags: [bool; Shape::MAX_LAYERS],
}

// What a call that changes a state answers: a refusal and the header as it was, or 0 and the new one.
#[repr(C)]
#[derive(Clone, Copy)]
pub struct CAnswered {
    pub refusal: u64,
    pub header: CHeader,
}

// A refusal and layer 0, or 0 and the last layer that a key reaches.
#[repr(C)]
#[derive(Clone, Copy)]
pub struct CBottom {
    pub refusal: u64,
    pub layer: usize,
}

// A refusal and +0.0, or 0 and the answer.
#[repr(C)]
#[derive(Clone, Copy)]
pub struct CAnswer {
    pub refusal: u64,
    pub value: f64,
}

// A refusal and +0.0 three times, or 0 and the three answers.
#[repr(C)]
#[derive(Clone, Copy)]
pub struct CPanel {
    pub refusal: u64,
    pub l1: f64,
    pub l2: f64,
    pub cardinality: f64,
}

// A refusal and 0, or 0 and the number of bytes written.
#[repr(C)]
#[derive(Clone, Copy)]
pub struct CWritten {
    pub refusal: u64,
    pub bytes: usize,
}

// Dimensions, for calls that have no header by value.
#[repr(C)]
#[derive(Clone, Copy)]
pub struct CShape {
    pub heap_size: usize,
    pub rows: usize,
    pub cols: usize,
    pub layers: usize,
}

// A refusal and weight, updates and mode as they were, or 0 and the new ones.
#[repr(C)]
#[derive(Clone, Copy)]
pub struct CStep {
    pub refusal: u64,
    pub weight: u64,
    pub updates: u64,
    pub mode: u64,
}
