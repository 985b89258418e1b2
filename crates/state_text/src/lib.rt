// States carried home as text: what a state's text is and which texts are read (`specs/`), and the writer's call.

#![tactic(auto)]

mod write;

pub use write::write_state;
