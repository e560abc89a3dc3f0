//! What stands behind a word or a byte in a text that begins with it. `None` promises nothing.
ghost use Rattle.std.specs.Prelude.{◌≡◌, ◌∷◌, ◌++◌, IfSome};

/// Behind a word.
#[inline(always)]
pub fn behind_word<'a>(text: &'a [u8], word: &[u8]) -> Option<&'a [u8]>
    ensures { IfSome result (λ rest. text.now ≡ word.now ++ rest.now) }
{
    text.strip_prefix(word)
}

/// Behind a word of a few bytes, which are compared one by one.
#[inline(always)]
pub fn behind_short<'a>(text: &'a [u8], word: &[u8]) -> Option<&'a [u8]>
    ensures { IfSome result (λ rest. text.now ≡ word.now ++ rest.now) }
{
    let mut rest = text;
    for byte in word {
        rest = behind_byte(rest, *byte)?;
    }
    Some(rest)
}

/// Behind a byte.
#[inline(always)]
pub fn behind_byte(text: &[u8], byte: u8) -> Option<&[u8]>
    ensures { IfSome result (λ rest. text.now ≡ byte ∷ rest.now) }
{
    match text {
        [first, rest @ ..] if *first == byte => Some(rest),
        _ => None,
    }
}
