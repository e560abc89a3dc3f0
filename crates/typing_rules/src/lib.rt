//! Typing of LYNX modules from below: the rules that a module obeys, as definitions; what names mean, and the types of expressions; the
//! values of texts and rows, exceptions, and the signatures of operations.
//!
//! A walk over a part is told by three clauses: where it ends, the first of the faults so far and those of the part (`first_with`), and
//! what is known of the part's type. Where a function answers a bool, it tells that no rule failed.
#![tactic(auto)]

mod compare;
mod exception;
mod expressions;
mod held;
mod key;
mod names;
mod row;
pub mod rule;
mod scope;
mod short_text;
mod spelling;
mod variables;
mod walk;

pub use exception::Exception;
pub use expressions::{expression, member, operand};
pub use held::{Held, agree, fits, has_length, is_link, is_row_or_link};
pub use key::Key;
pub use names::{Named, Names, arguments_of, is_entry, results_of};
pub use row::Row16;
pub use scope::Scope;
pub use short_text::ShortText;
pub use spelling::signature;
pub use variables::{link, variable};
pub use walk::{Found, Walk};
