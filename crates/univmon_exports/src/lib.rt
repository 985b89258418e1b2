// The archive for C and Rust, libunivmon_c.a: one export for each call of `univmon_c`, under the same name and with the
// same clauses. Each only forwards, since `pub use` exports nothing to C.

#![tactic(auto)]

mod answering;
mod changing;
mod lending;
mod texts;
