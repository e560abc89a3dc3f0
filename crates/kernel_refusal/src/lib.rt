//! For which cause a kernel refuses a call, if it does.
#![tactic(auto)]

mod causes;

pub use causes::refusal;
