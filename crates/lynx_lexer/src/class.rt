//! Bytes by what can begin with them.

ghost use Rattle.std.specs.Prelude.{◌≡◌};
ghost use Rattle.lynx_lexer.specs.Bytes.{class_of, is_blank};

/// What can begin with a byte.
#[derive(Clone, Copy, Debug, PartialEq, Eq)]
pub enum Class {
    /// A separator of one byte.
    Blank,
    /// A name or a keyword.
    Letter,
    /// A number.
    Digit,
    /// Nothing, but it goes on a name.
    Underscore,
    /// A text.
    Quote,
    /// A sign, a comment or nothing.
    Other,
}

impl Class {
    /// The class of a byte.
    #[tactic(auto, unfolding(crate::specs::Bytes::class_of))]
    pub fn from_byte(byte: u8) -> Class
        ensures { result ≡ class_of byte }
    {
        // a letter is asked for first, since most pieces are words
        if byte.is_ascii_alphabetic() {
            return Class::Letter;
        }
        match byte {
            b' ' | b'\t' | b'\n' | b'\r' => Class::Blank,
            b'0'..=b'9' => Class::Digit,
            b'_' => Class::Underscore,
            b'\'' => Class::Quote,
            _ => Class::Other,
        }
    }
}

/// Whether the byte is a separator.
pub fn is_blank(byte: u8) -> bool
    ensures { result ≡ is_blank byte }
{
    byte <= b' ' && matches!(byte, b' ' | b'\n' | b'\t' | b'\r')
}
