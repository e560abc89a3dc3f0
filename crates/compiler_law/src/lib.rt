//! The law of the compiler: the code of a module does what its source means, part by part. The law, and its proof for the ends of parts,
//! the names of a module and the places of its parts in the code.
#![tactic(auto)]

mod law;

pub use law::source_and_code_agree;
