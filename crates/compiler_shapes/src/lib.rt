//! The law of code and shapes: the code of each module that obeys the typing rules is shaped. Lemmas for expressions, statements and
//! parts, which go along with the recursion that makes code.
#![tactic(auto)]

mod law;

pub use law::module_code_is_shaped;
