//! Code of LYNX modules: its instructions and parts, which code a module has, how it is listed, and copies of it.
#![tactic(auto)]

mod code;
mod copies;
mod instruction;
mod kept_text;
mod texts;

pub use code::{Code, CodeOp, Part};
pub use instruction::{Instruction, Literal};
pub use kept_text::KeptText;
pub use texts::listing;
