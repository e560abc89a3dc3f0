ghost use Rattle.std.specs.Prelude.{◌≡◌, ◌+◌, ◌<◌, ◌≤◌, ◌^◌, [], ◌∷◌, ◌++◌, ℕ, OnOk, OnErr, IfOk, IsTrue};
ghost use Rattle.std.specs.List.{list_all};
ghost use Rattle.std.specs.Char.{is_ascii_digit};
ghost use Rattle.std.specs.Str.Parse.{digits_value};
ghost use Rattle.charlotte_text.specs.Spelling.{number_text};
ghost use Rattle.charlotte_text.specs.Reading.{is_number, sized, number_of, number_below};

use crate::fault::Fault;
use charlotte_calls::NoMemory;
use itoa::Buffer;
use std::str::from_utf8;

/// A number of a line, which may be of any size.
#[derive(Clone, Copy, Debug, PartialEq, Eq)]
pub enum Number {
    /// This number.
    Is(u64),
    /// A number of 2 to the 64 or more.
    Large,
}

/// Appends a decimal number without leading zeros.
#[inline(always)]
pub fn push_number(out: &mut Vec<u8>, number: u64) -> Result<(), NoMemory>
    ensures ok { OnOk result (out.new.items ≡ out.old.items ++ number_text number) }
    ensures err { OnErr result (out.new.items ≡ out.old.items) }
{
    if number < 10 {
        return push_digit(out, number as u8);
    }
    push_digits(out, number)
}

// A number of two digits or more.
fn push_digits(out: &mut Vec<u8>, number: u64) -> Result<(), NoMemory>
    requires { 10 ≤ number }
    ensures ok { OnOk result (out.new.items ≡ out.old.items ++ number_text number) }
    ensures err { OnErr result (out.new.items ≡ out.old.items) }
{
    if number < 100 {
        return push_two_digits(out, number as u8);
    }
    if number < 100_000 {
        return push_up_to_five_digits(out, number as u32);
    }
    let mut buffer = Buffer::new();
    out.extend_from_slice(buffer.format(number).as_bytes())?;
    Ok(())
}

// Most numbers of a line have one digit, and few have more than five: no buffer is made for them.
#[inline(always)]
#[tactic(auto, using(std::proofs::lemmas::Fmt::decimal_digit))]
fn push_digit(out: &mut Vec<u8>, digit: u8) -> Result<(), NoMemory>
    requires { digit < 10 }
    ensures ok { OnOk result (out.new.items ≡ out.old.items ++ number_text digit) }
    ensures err { OnErr result (out.new.items ≡ out.old.items) }
{
    out.push(b'0' + digit)?;
    Ok(())
}

#[tactic(auto, using(crate::proofs::Numbers::two_digits))]
fn push_two_digits(out: &mut Vec<u8>, number: u8) -> Result<(), NoMemory>
    requires two { 10 ≤ number }
    requires no_more { number < 100 }
    ensures ok { OnOk result (out.new.items ≡ out.old.items ++ number_text number) }
    ensures err { OnErr result (out.new.items ≡ out.old.items) }
{
    out.extend_from_slice(&[b'0' + number / 10, b'0' + number % 10])?;
    Ok(())
}

fn push_up_to_five_digits(out: &mut Vec<u8>, number: u32) -> Result<(), NoMemory>
    requires three { 100 ≤ number }
    requires no_more { number < 100000 }
    ensures ok { OnOk result (out.new.items ≡ out.old.items ++ number_text number) }
    ensures err { OnErr result (out.new.items ≡ out.old.items) }
{
    if number < 1_000 {
        return push_three_digits(out, number);
    }
    if number < 10_000 {
        return push_four_digits(out, number);
    }
    push_five_digits(out, number)
}

#[tactic(auto, using(crate::proofs::Numbers::three_digits))]
fn push_three_digits(out: &mut Vec<u8>, number: u32) -> Result<(), NoMemory>
    requires three { 100 ≤ number }
    requires no_more { number < 1000 }
    ensures ok { OnOk result (out.new.items ≡ out.old.items ++ number_text number) }
    ensures err { OnErr result (out.new.items ≡ out.old.items) }
{
    let front = number / 10;
    out.extend_from_slice(&[digit(front / 10), digit(front % 10), digit(number % 10)])?;
    Ok(())
}

#[tactic(auto, using(crate::proofs::Numbers::four_digits))]
fn push_four_digits(out: &mut Vec<u8>, number: u32) -> Result<(), NoMemory>
    requires four { 1000 ≤ number }
    requires no_more { number < 10000 }
    ensures ok { OnOk result (out.new.items ≡ out.old.items ++ number_text number) }
    ensures err { OnErr result (out.new.items ≡ out.old.items) }
{
    let front = number / 10;
    let first = front / 10;
    out.extend_from_slice(&[
        digit(first / 10),
        digit(first % 10),
        digit(front % 10),
        digit(number % 10),
    ])?;
    Ok(())
}

#[tactic(auto, using(crate::proofs::Numbers::five_digits))]
fn push_five_digits(out: &mut Vec<u8>, number: u32) -> Result<(), NoMemory>
    requires five { 10000 ≤ number }
    requires no_more { number < 100000 }
    ensures ok { OnOk result (out.new.items ≡ out.old.items ++ number_text number) }
    ensures err { OnErr result (out.new.items ≡ out.old.items) }
{
    let front = number / 10;
    let middle = front / 10;
    let first = middle / 10;
    out.extend_from_slice(&[
        digit(first / 10),
        digit(first % 10),
        digit(middle % 10),
        digit(front % 10),
        digit(number % 10),
    ])?;
    Ok(())
}

fn digit(number: u32) -> u8
    requires { number < 10 }
    ensures { result ≡ 48 + number }
{
    b'0' + number as u8
}

/// The decimal number that a word is, of any size.
pub fn read_number(word: &[u8]) -> Result<Number, Fault>
    ensures exact { result ≡ number_of word.now }
    ensures found { (n : ℕ) → result ≡ Ok (Number.Is n) → word.now ≡ number_text n }
    ensures only { (n : ℕ) → n < 2 ^ 64 → word.now ≡ number_text n → result ≡ Ok (Number.Is n) }
{
    parse_number(word)
}

#[tactic(auto, unfolding(crate::specs::Reading::number_of))]
fn parse_number(word: &[u8]) -> Result<Number, Fault>
    ensures { result ≡ number_of word.now }
{
    match word {
        [digit] => one_digit(*digit),
        _ if is_numeral(word) => Ok(value(word)),
        _ => Err(Fault::Form),
    }
}

// Most numbers of a line have one digit.
#[tactic(auto, using(crate::proofs::Numbers::one_digit_number))]
fn one_digit(digit: u8) -> Result<Number, Fault>
    ensures { result ≡ number_of (digit ∷ []) }
{
    match digit {
        b'0'..=b'9' => Ok(Number::Is(u64::from(digit - b'0'))),
        _ => Err(Fault::Form),
    }
}

/// The decimal number that a word is, where it is below a limit, and else `Form`.
pub fn read_below(word: &[u8], limit: u64) -> Result<u64, Fault>
    ensures exact { result ≡ number_below limit word.now }
    ensures found { IfOk result (λ n. word.now ≡ number_text n) }
    ensures within { IfOk result (λ n. n < limit) }
    ensures only { (n : ℕ) → n < limit → word.now ≡ number_text n → result ≡ Ok n }
{
    parse_below(word, limit)
}

#[tactic(auto, unfolding(crate::specs::Reading::number_below))]
fn parse_below(word: &[u8], limit: u64) -> Result<u64, Fault>
    ensures exact { result ≡ number_below limit word.now }
    ensures within { IfOk result (λ n. n < limit) }
{
    match parse_number(word)? {
        Number::Is(number) if number < limit => Ok(number),
        _ => Err(Fault::Form),
    }
}

fn is_numeral(word: &[u8]) -> bool
    ensures { result ≡ is_number word.now }
{
    match word {
        [] => false,
        [first, rest @ ..] => all_digits(word) && (rest.is_empty() || *first != b'0'),
    }
}

fn all_digits(word: &[u8]) -> bool
    ensures { result ≡ list_all is_ascii_digit word.now }
{
    word.iter().all(|byte| byte.is_ascii_digit())
}

fn value(digits: &[u8]) -> Number
    requires { IsTrue (is_number digits.now) }
    ensures { result ≡ sized (digits_value 10 digits.now) }
{
    let Ok(text) = from_utf8(digits) else {
        unreachable!()
    };
    match text.parse::<u64>() {
        Ok(number) => Number::Is(number),
        Err(_) => Number::Large,
    }
}
