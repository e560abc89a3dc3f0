//! What one word of a line says.
ghost use Rattle.std.specs.Prelude.{◌≡◌};
ghost use Rattle.charlotte_text.specs.Reading.{is_number};
ghost use Rattle.transcript_reading.specs.Forms.{u8_of, u32_of, u64_of, numbered_of, pid_of, kernel_of, bit_of, cause_of, outcome_of, waits_of};

use charlotte_calls::{Cause, Outcome, Pid};
use charlotte_text::{Fault, Number, is_word, read_below, read_number};

/// Whether the word is a number, of any size.
#[tactic(auto, unfolding(charlotte_text::specs::Reading::number_of))]
pub(crate) fn is_numeral(word: &[u8]) -> bool
    ensures { result ≡ is_number word.now }
{
    read_number(word).is_ok()
}

/// A number of 8 bits.
pub(crate) fn read_u8(word: &[u8]) -> Result<u8, Fault>
    ensures { result ≡ u8_of word.now }
{
    let number = read_below(word, 256)?;
    Ok(number as u8)
}

/// A number of 32 bits.
pub(crate) fn read_u32(word: &[u8]) -> Result<u32, Fault>
    ensures { result ≡ u32_of word.now }
{
    let number = read_below(word, 4_294_967_296)?;
    Ok(number as u32)
}

/// A number of 64 bits.
#[tactic(auto, unfolding(charlotte_text::specs::Reading::number_below))]
pub(crate) fn read_u64(word: &[u8]) -> Result<u64, Fault>
    ensures { result ≡ u64_of word.now }
{
    match read_number(word)? {
        Number::Is(number) => Ok(number),
        Number::Large => Err(Fault::Form),
    }
}

/// A process, by its number.
pub(crate) fn read_numbered(word: &[u8]) -> Result<Pid, Fault>
    ensures { result ≡ numbered_of word.now }
{
    let number = read_below(word, 65536)?;
    Ok(Pid(number as u16))
}

/// A process, as `p7`.
#[tactic(auto, unfolding(transcript_reading::specs::Forms::pid_of))]
pub(crate) fn read_pid(word: &[u8]) -> Result<Pid, Fault>
    ensures { result ≡ pid_of word.now }
{
    match word {
        [b'p', number @ ..] => read_numbered(number),
        _ => Err(Fault::Form),
    }
}

/// A kernel, as `k0`.
#[tactic(auto, unfolding(transcript_reading::specs::Forms::kernel_of))]
pub(crate) fn read_kernel(word: &[u8]) -> Result<u8, Fault>
    ensures { result ≡ kernel_of word.now }
{
    match word {
        [b'k', number @ ..] => read_u8(number),
        _ => Err(Fault::Form),
    }
}

/// 1 for yes and 0 for no.
#[tactic(auto, unfolding(transcript_reading::specs::Forms::bit_of))]
pub(crate) fn read_bit(word: &[u8]) -> Result<bool, Fault>
    ensures { result ≡ bit_of word.now }
{
    let number = read_below(word, 2)?;
    Ok(number == 1)
}

/// The cause of a refusal, by its name.
#[tactic(auto, unfolding(transcript_reading::specs::Forms::cause_of))]
pub(crate) fn read_cause(word: &[u8]) -> Result<Cause, Fault>
    ensures { result ≡ cause_of word.now }
{
    if is_word(word, b"NoEnd") {
        Ok(Cause::NoEnd)
    } else if is_word(word, b"Busy") {
        Ok(Cause::Busy)
    } else if is_word(word, b"Dead") {
        Ok(Cause::Dead)
    } else if is_word(word, b"EncloseNoEnd") {
        Ok(Cause::EncloseNoEnd)
    } else if is_word(word, b"EncloseBusy") {
        Ok(Cause::EncloseBusy)
    } else if is_word(word, b"EncloseSame") {
        Ok(Cause::EncloseSame)
    } else if is_word(word, b"Late") {
        Ok(Cause::Late)
    } else if is_word(word, b"NoActivity") {
        Ok(Cause::NoActivity)
    } else if is_word(word, b"LinksFull") {
        Ok(Cause::LinksFull)
    } else if is_word(word, b"EncloseTwice") {
        Ok(Cause::EncloseTwice)
    } else {
        Err(Fault::Form)
    }
}

/// How an activity was over.
#[tactic(auto, unfolding(transcript_reading::specs::Forms::outcome_of))]
pub(crate) fn read_outcome(word: &[u8]) -> Result<Outcome, Fault>
    ensures { result ≡ outcome_of word.now }
{
    if is_word(word, b"done") {
        Ok(Outcome::Done)
    } else if is_word(word, b"destroyed") {
        Ok(Outcome::Destroyed)
    } else {
        Err(Fault::Form)
    }
}

/// Whether a process was waiting.
#[tactic(auto, unfolding(transcript_reading::specs::Forms::waits_of))]
pub(crate) fn read_waits(word: &[u8]) -> Result<bool, Fault>
    ensures { result ≡ waits_of word.now }
{
    if is_word(word, b"waits") {
        Ok(true)
    } else if is_word(word, b"nothing") {
        Ok(false)
    } else {
        Err(Fault::Form)
    }
}
