//! The number that a text begins with.
ghost use Rattle.std.specs.Prelude.{◌≡◌, ◌<◌, ◌≤◌, ◌∷◌, ◌++◌, IfSome};
ghost use Rattle.charlotte_text.specs.Spelling.{number_text};

/// Behind a greater number no further digit is read.
const MOST: u64 = 1 << 59;

/// The decimal number that a text begins with, and what stands behind it.
#[inline(always)]
pub fn leading_number(text: &[u8]) -> Option<(u64, &[u8])>
    ensures { IfSome result (λ x. text.now ≡ number_text x.0 ++ x.1.now) }
{
    let (digit, rest) = first_digit(text)?;
    more_digits(u64::from(digit - b'0'), rest)
}

/// The digit that a text begins with, and what stands behind it.
#[inline(always)]
fn first_digit(text: &[u8]) -> Option<(u8, &[u8])>
    ensures low { IfSome result (λ x. 48 ≤ x.0) }
    ensures high { IfSome result (λ x. x.0 ≤ 57) }
    ensures split { IfSome result (λ x. text.now ≡ x.0 ∷ x.1.now) }
{
    match text {
        [first, rest @ ..] if b'0' <= *first && *first <= b'9' => Some((*first, rest)),
        _ => None,
    }
}

/// A number of one digit and the digits behind it, as one number. Behind a zero stands no digit.
#[inline(always)]
fn more_digits(front: u64, text: &[u8]) -> Option<(u64, &[u8])>
    requires { front < 10 }
    ensures { IfSome result (λ x. number_text front ++ text.now ≡ number_text x.0 ++ x.1.now) }
{
    if front == 0 {
        return Some((front, text));
    }
    let mut number = front;
    let mut rest = text;
    while let Some((digit, behind)) = first_digit(rest) {
        if number > MOST {
            return None;
        }
        number = 10 * number + u64::from(digit - b'0');
        rest = behind;
    }
    Some((number, rest))
}
