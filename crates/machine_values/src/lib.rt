//! Values of the threads of a LYNX process, and what operators make of them.
#![tactic(auto)]

mod arithmetic;
mod numbers;
mod value;
mod written;

pub use arithmetic::{add, divide, multiply, negate, reduce, subtract};
pub use numbers::Numbers;
pub use typing_rules::{Exception, Row16, ShortText};
pub use value::{LinkRef, Value};
pub use written::{written_number, written_truth};
