//! Why a source is no module.

use crate::place::Place;

/// Why a source is no module, and where. A fault of an earlier stage comes first: tokens, grammar and nesting, typing rules, code.
#[derive(Clone, Copy, Debug, PartialEq, Eq)]
pub enum SourceFault {
    /// The first lexical fault, with its number; it stands at the first byte of its token. 1: no token and no separator
    /// begins with that byte. 2: a text is not closed. 3: a number is above 9223372036854775807. 4: a text has more than
    /// 64 bytes. 5: a name has more than 32 bytes.
    Lex { at: Place, no: u8 },
    /// The first token that goes on with no module, or the end of the source where it comes too soon.
    Syntax { at: Place },
    /// The token that would open a 65th bracket or statement.
    Deep { at: Place },
    /// The least typing rule, 1 to 24, that fails at the first place where one does.
    Rule { at: Place, rule: u8 },
    /// The code has more than 65,535 instructions. It comes where a source is compiled: no call of this crate makes code.
    CodeTooLong,
    /// There was not memory enough.
    NoMemory,
}
