//! The separator or token at the front of bytes.

ghost use Rattle.std.specs.Prelude.{◌≡◌, ℕ, ◌≤◌, ◌<◌, ◌^◌, pos, length, drop, IfOk, IfErr, IfNone, IfSome, IsTrue};
ghost use Rattle.std.specs.List.{prefix_len, list_all};
ghost use Rattle.lynx_lexer.specs.declared.class.Class.TheVariants.{Blank, Letter, Digit, Quote, Other};
ghost use Rattle.lynx_lexer.specs.Pieces.{is_name_byte, is_digit, is_text_byte, is_comment_byte, decimal};
ghost use Rattle.lynx_lexer.specs.Source.{HasFault};
ghost use Rattle.lynx_lexer.specs.Fronts.{StandsAs, Begins};

use crate::class::Class;
use crate::fault::FaultKind;
use crate::ident::MOST_NAME;
use crate::keyword::Keyword;
use crate::lexeme::Shape;
use crate::sign::Sign;

/// The most bytes of a text.
const MOST_TEXT: usize = 64;

/// The longest piece at the front of bytes: the shape of a token, or None for a separator, and its length.
#[derive(Clone, Copy)]
pub struct Front {
    pub shape: Option<Shape>,
    pub length: usize,
}

/// Whether the byte goes on a name. The commonest letters are asked for first.
#[tactic(auto, unfolding(crate::specs::Bytes::class_of))]
fn is_name_byte(byte: u8) -> bool
    ensures { result ≡ is_name_byte byte }
{
    if byte >= b'a' {
        return byte <= b'z';
    }
    byte >= b'0' && (byte <= b'9' || byte == b'_' || byte.is_ascii_uppercase())
}

fn is_text_byte(byte: u8) -> bool
    ensures { result ≡ is_text_byte byte }
{
    (32..=126).contains(&byte) && byte != b'\''
}

fn name_length(bytes: &[u8]) -> usize
    ensures { result ≡ prefix_len is_name_byte bytes.now }
{
    bytes.iter().take_while(|byte| is_name_byte(**byte)).count()
}

fn digits_length(bytes: &[u8]) -> usize
    ensures { result ≡ prefix_len is_digit bytes.now }
{
    bytes
        .iter()
        .take_while(|byte| byte.is_ascii_digit())
        .count()
}

fn text_length(bytes: &[u8]) -> usize
    ensures value { result ≡ prefix_len is_text_byte bytes.now }
    ensures fits { result ≤ length bytes.now }
{
    bytes.iter().take_while(|byte| is_text_byte(**byte)).count()
}

fn line_length(bytes: &[u8]) -> usize
    ensures value { result ≡ prefix_len is_comment_byte bytes.now }
    ensures fits { result ≤ length bytes.now }
{
    bytes.iter().take_while(|byte| **byte != b'\n').count()
}

/// The number that digits stand for. None exactly where it is above the greatest i64.
#[tactic(auto, using(crate::proofs::Decimals::decimal_step, crate::proofs::Decimals::decimal_front))]
pub fn number(digits: &[u8]) -> Option<i64>
    requires { IsTrue (list_all is_digit digits.now) }
    ensures found { IfSome result (λ n. n ≡ pos (decimal digits.now)) }
    ensures fits { IfSome result (λ n. decimal digits.now < 2 ^ 63) }
    ensures wide { IfNone result (2 ^ 63 ≤ decimal digits.now) }
{
    let mut value: u64 = 0;
    for digit in digits {
        value = value
            .checked_mul(10)?
            .checked_add(u64::from(*digit - b'0'))?;
    }
    i64::try_from(value).ok()
}

/// The name or keyword at the front.
fn word_at(bytes: &[u8]) -> Result<Front, FaultKind>
    requires { Begins Letter bytes.now }
    ensures ok { IfOk result (λ front. StandsAs front.shape front.length bytes.now) }
    ensures err { IfErr result (λ kind. HasFault kind bytes.now) }
{
    let length = name_length(bytes);
    let word = &bytes[..length];
    if let Some(keyword) = Keyword::from_slice(word) {
        return Ok(Front {
            shape: Some(Shape::Keyword(keyword)),
            length,
        });
    }
    if length > MOST_NAME {
        return Err(FaultKind::NameTooLong);
    }
    Ok(Front {
        shape: Some(Shape::Name),
        length,
    })
}

/// The number at the front.
fn number_at(bytes: &[u8]) -> Result<Front, FaultKind>
    requires { Begins Digit bytes.now }
    ensures ok { IfOk result (λ front. StandsAs front.shape front.length bytes.now) }
    ensures err { IfErr result (λ kind. HasFault kind bytes.now) }
{
    let length = digits_length(bytes);
    let Some(_value) = number(&bytes[..length]) else {
        return Err(FaultKind::NumberTooWide);
    };
    Ok(Front {
        shape: Some(Shape::Number),
        length,
    })
}

/// The bytes behind the first n.
pub fn behind(bytes: &[u8], n: usize) -> &[u8]
    requires { n ≤ length bytes.now }
    ensures { result.now ≡ drop n bytes.now }
{
    &bytes[n..]
}

/// The text at the front.
fn text_at(bytes: &[u8]) -> Result<Front, FaultKind>
    requires { Begins Quote bytes.now }
    ensures ok { IfOk result (λ front. StandsAs front.shape front.length bytes.now) }
    ensures err { IfErr result (λ kind. HasFault kind bytes.now) }
{
    let rest = behind(bytes, 1);
    let length = text_length(rest);
    if length == rest.len() || rest[length] != b'\'' {
        return Err(FaultKind::OpenText);
    }
    if length > MOST_TEXT {
        return Err(FaultKind::TextTooLong);
    }
    Ok(Front {
        shape: Some(Shape::Text),
        length: length + 2,
    })
}

/// The comment or sign at the front.
fn mark_at(bytes: &[u8]) -> Result<Front, FaultKind>
    requires { Begins Other bytes.now }
    ensures ok { IfOk result (λ front. StandsAs front.shape front.length bytes.now) }
    ensures err { IfErr result (λ kind. HasFault kind bytes.now) }
{
    if bytes.starts_with(b"--") {
        return Ok(Front {
            shape: None,
            length: 2 + line_length(behind(bytes, 2)),
        });
    }
    let Some(sign) = Sign::at_front(bytes) else {
        return Err(FaultKind::BadByte);
    };
    Ok(Front {
        shape: Some(Shape::Sign(sign)),
        length: sign.as_slice().len(),
    })
}

/// The longest piece at the front, or the fault there.
pub fn front_at(bytes: &[u8]) -> Result<Front, FaultKind>
    requires { 0 < length bytes.now }
    ensures ok { IfOk result (λ front. StandsAs front.shape front.length bytes.now) }
    ensures err { IfErr result (λ kind. HasFault kind bytes.now) }
{
    match Class::from_byte(bytes[0]) {
        Class::Blank => Ok(Front {
            shape: None,
            length: 1,
        }),
        Class::Letter => word_at(bytes),
        Class::Digit => number_at(bytes),
        Class::Quote => text_at(bytes),
        Class::Other => mark_at(bytes),
        Class::Underscore => Err(FaultKind::BadByte),
    }
}
