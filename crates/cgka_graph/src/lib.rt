#![tactic(auto)]
// The key operation graph: the public calls, their refusals and the kinds of operations, in modules as the Rust has them. No call has a requirement.
pub mod operation;
pub mod predecessors;

pub use rules::{Kind, Refusal};
