//! The compiler of LYNX: a module's code.
#![tactic(auto)]

mod compiling;

pub use compiler_emission::CompileFault;
pub use compiling::compile;
pub use lynx_code::{Code, CodeOp, Instruction, Literal, Part, listing};
