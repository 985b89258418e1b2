// What a state answers: norms, sums over candidates, cardinality.

#![tactic(auto)]

pub mod anew;
mod calls;
mod norms;
mod reads;
mod standard;
mod terminal;

pub use calls::{estimate_cardinality, estimate_g_sum, estimate_l1, estimate_l2, panel_answer};

// A refusal's number and +0.0 three times, or 0 and the three answers.
#[derive(Clone, Copy)]
pub struct PanelAnswer {
    pub l1: f64,
    pub l2: f64,
    pub cardinality: f64,
    pub refusal: u64,
}
