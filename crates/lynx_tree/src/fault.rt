//! Why tokens are no module.

/// Why there is no tree.
#[derive(Clone, Copy, Debug, PartialEq, Eq)]
pub enum SyntaxFault {
    /// The first token that ends no prefix of a module, counted from 0, or the number of tokens where the
    /// end comes too soon.
    At { token: u32 },
    /// The opening token that would be the 65th open bracket or statement.
    TooDeep { token: u32 },
    /// There was not memory enough.
    NoMemory,
}
