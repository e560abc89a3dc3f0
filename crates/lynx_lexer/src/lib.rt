//! Tokens of LYNX modules: a source is cut into its longest tokens, and the first fault is found.
//!
//! The lexer finds the shape and the length of a piece, and no value. Blanks are passed over one by one, before a front is looked for: they
//! are a third of the pieces of a usual source.
#![tactic(auto)]

mod class;
mod fault;
mod front;
mod ident;
mod keyword;
mod law;
mod lexeme;
mod lexemes;
mod memory;
mod reading;
mod sign;
mod text;
mod token;

pub use fault::LexFault;
pub use ident::{Ident, IdentRef};
pub use keyword::Keyword;
pub use law::one_list;
pub use lexeme::{Lexeme, Shape};
pub use lexemes::{Left, Lexemes};
pub use memory::NoMemory;
pub use reading::{read_lexemes, tokens};
pub use sign::Sign;
pub use text::{TextLit, TextRef};
pub use token::{Kind, Token};
