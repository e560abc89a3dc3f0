//! The signs.

ghost use Rattle.std.specs.Prelude.{◌≡◌, ◌≢◌, ◌≤◌, ◌++◌, List, ℕ, length, IfSome, IfNone};
ghost use Rattle.lynx_lexer.specs.declared.sign.Sign.{Sign};
ghost use Rattle.lynx_lexer.specs.Words.{sign_of};
ghost use Rattle.lynx_lexer.specs.Fronts.{IsLongestSign};

/// A sign: one or two bytes that are neither letters nor digits.
#[derive(Clone, Copy, Debug, PartialEq, Eq)]
pub enum Sign {
    /// `;`
    Semicolon,
    /// `.`
    Dot,
    /// `(`
    Open,
    /// `)`
    Close,
    /// `:`
    Colon,
    /// `,`
    Comma,
    /// `[`
    OpenRow,
    /// `]`
    CloseRow,
    /// `:=`
    Becomes,
    /// `=`
    Equal,
    /// `<>`
    NotEqual,
    /// `<`
    Less,
    /// `<=`
    AtMost,
    /// `>`
    Greater,
    /// `>=`
    AtLeast,
    /// `+`
    Plus,
    /// `-`
    Minus,
    /// `*`
    Times,
    /// `/`
    Over,
}

impl Sign {
    /// The sign's spelling.
    pub fn as_slice(self) -> &'static [u8]
        ensures { result.now ≡ sign_of self }
    {
        match self {
            Sign::Semicolon => b";",
            Sign::Dot => b".",
            Sign::Open => b"(",
            Sign::Close => b")",
            Sign::Colon => b":",
            Sign::Comma => b",",
            Sign::OpenRow => b"[",
            Sign::CloseRow => b"]",
            Sign::Becomes => b":=",
            Sign::Equal => b"=",
            Sign::NotEqual => b"<>",
            Sign::Less => b"<",
            Sign::AtMost => b"<=",
            Sign::Greater => b">",
            Sign::AtLeast => b">=",
            Sign::Plus => b"+",
            Sign::Minus => b"-",
            Sign::Times => b"*",
            Sign::Over => b"/",
        }
    }

    /// The longest sign at the front of bytes.
    pub fn at_front(bytes: &[u8]) -> Option<Sign>
        ensures found { IfSome result (λ sign. IsLongestSign sign bytes.now) }
        ensures none { IfNone result ((sign : Sign) (rest : List ℕ) → bytes.now ≢ sign_of sign ++ rest) }
    {
        match bytes {
            [b':', b'=', ..] => Some(Sign::Becomes),
            [b'<', b'>', ..] => Some(Sign::NotEqual),
            [b'<', b'=', ..] => Some(Sign::AtMost),
            [b'>', b'=', ..] => Some(Sign::AtLeast),
            [b';', ..] => Some(Sign::Semicolon),
            [b'.', ..] => Some(Sign::Dot),
            [b'(', ..] => Some(Sign::Open),
            [b')', ..] => Some(Sign::Close),
            [b':', ..] => Some(Sign::Colon),
            [b',', ..] => Some(Sign::Comma),
            [b'[', ..] => Some(Sign::OpenRow),
            [b']', ..] => Some(Sign::CloseRow),
            [b'=', ..] => Some(Sign::Equal),
            [b'<', ..] => Some(Sign::Less),
            [b'>', ..] => Some(Sign::Greater),
            [b'+', ..] => Some(Sign::Plus),
            [b'-', ..] => Some(Sign::Minus),
            [b'*', ..] => Some(Sign::Times),
            [b'/', ..] => Some(Sign::Over),
            _ => None,
        }
    }
}
