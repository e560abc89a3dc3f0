//! The law of shapes: a thread of shaped code finds its operands and is never stuck, and behind each instruction it is a thread of the
//! shapes again. Lemmas for each way in which an instruction goes on.
#![tactic(auto)]

mod law;

pub use law::shaped_code_is_never_stuck;
