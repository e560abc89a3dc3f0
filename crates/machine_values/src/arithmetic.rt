//! Numbers.

ghost use Rattle.std.specs.Prelude.{◌≡◌};
ghost use Rattle.lynx_meaning.specs.Values as meaning;
ghost use Rattle.machine_values.specs.Told.{told};

use typing_rules::Exception;

/// The sum. OVERFLOW where it is no number of 64 bits.
#[tactic(auto, using(crate::proofs::Within::in_range, crate::proofs::Within::out_of_range))]
pub fn add(a: i64, b: i64) -> Result<i64, Exception>
    ensures { told result ≡ meaning.add a b }
{
    a.checked_add(b).ok_or(Exception::Overflow)
}

/// The first number less the second. OVERFLOW where it is no number of 64 bits.
#[tactic(auto, using(crate::proofs::Within::in_range, crate::proofs::Within::out_of_range))]
pub fn subtract(a: i64, b: i64) -> Result<i64, Exception>
    ensures { told result ≡ meaning.subtract a b }
{
    a.checked_sub(b).ok_or(Exception::Overflow)
}

/// The product. OVERFLOW where it is no number of 64 bits.
#[tactic(auto, using(crate::proofs::Within::in_range, crate::proofs::Within::out_of_range))]
pub fn multiply(a: i64, b: i64) -> Result<i64, Exception>
    ensures { told result ≡ meaning.multiply a b }
{
    a.checked_mul(b).ok_or(Exception::Overflow)
}

/// The number with the other sign. OVERFLOW for the least one.
#[tactic(auto, using(crate::proofs::Within::in_range, crate::proofs::Within::out_of_range))]
pub fn negate(a: i64) -> Result<i64, Exception>
    ensures { told result ≡ meaning.negate a }
{
    a.checked_neg().ok_or(Exception::Overflow)
}

/// The quotient, towards zero. DIVIDE where the second number is 0, and OVERFLOW for the least number and -1.
#[tactic(auto, using(crate::proofs::Within::in_range, crate::proofs::Within::out_of_range, crate::proofs::Within::divided))]
pub fn divide(a: i64, b: i64) -> Result<i64, Exception>
    ensures { told result ≡ meaning.divide a b }
{
    if b == 0 {
        return Err(Exception::Divide);
    }
    a.checked_div(b).ok_or(Exception::Overflow)
}

/// The remainder, which has the sign of the first number. DIVIDE and OVERFLOW as for the quotient.
#[tactic(auto, using(crate::proofs::Within::in_range, crate::proofs::Within::out_of_range, crate::proofs::Within::divided))]
pub fn reduce(a: i64, b: i64) -> Result<i64, Exception>
    ensures { told result ≡ meaning.reduce a b }
{
    if b == 0 {
        return Err(Exception::Divide);
    }
    a.checked_rem(b).ok_or(Exception::Overflow)
}
