//! The next token.

use lynx_lexer::{Keyword, Sign};

/// What the next token is, without its value.
#[derive(Clone, Copy, Debug)]
pub enum Ahead {
    Keyword(Keyword),
    Sign(Sign),
    Name,
    Number,
    Text,
    End,
}
