//! From the bytes of a module to its code.
#![tactic(auto)]

mod compiling;
mod law;

pub use compiling::compile_source;
pub use law::one_compilation;
