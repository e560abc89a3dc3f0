//! Typing of LYNX modules: `check` tells whether a module breaks a rule, and which is the first; exceptions, the values of texts and rows,
//! and the signatures of operations.
#![tactic(auto)]

mod checked;
mod checking;
mod declaration;
mod entry;
mod fault;
mod width;

pub use checked::Checked;
pub use checking::check;
pub use fault::TypeFault;
pub use typing_rules::{Exception, Row16, ShortText, signature};
