//! The laws of ops: a signature tells the name and the types of its op, and what is true of each op of a module that breaks no rule.
//! Lemmas for texts whose parts end at a sign.
#![tactic(auto)]

mod law;

pub use law::{ops_have_facts, signature_tells_op};
