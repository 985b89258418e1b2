// One line of the program `panel`: what it is answered, and what it leaves of the state.

#![tactic(auto)]

use header::Header;

mod calls;
mod extent;
mod step;

pub use extent::{MAX_CANDIDATES, MAX_COUNTERS};
pub use step::{LONGEST, answer_line};

// The header after a line, and how many bytes its answer has. Both are always there, and the clause of `answer_line` names them.
#[derive(Clone, Copy)]
pub struct LineAnswered {
    pub header: Header,
    pub len: usize,
}
