ghost use Rattle.std.specs.Prelude.{◌≡◌, ◌≢◌, ℕ, List, IfOk, option_copied};
ghost use Rattle.charlotte_text.specs.Reading.{Gives, rest_parts, words};
ghost use Rattle.charlotte_text.specs.Spelling.{blank};
ghost use Rattle.lynx_plan.specs.declared.form.Lead.TheVariants as Lead;
ghost use Rattle.lynx_plan.specs.Forms.{lead_of, one_number, two_numbers, placed, placed_at, asked, led, form_of};

use charlotte_calls::{Call, NoMemory};
use charlotte_text::{
    Fault, Number, cut, end_of_line, next_word, read_call_into, read_number, read_process,
};
use compact_calls::CompactCall;
use std::alloc::Global;

/// Which kind of line a first word begins.
#[derive(Clone, Copy, Debug)]
pub enum Lead {
    Version,
    Kernels,
    Process,
    Wire,
    Take,
    Settle,
    Other,
}

/// The form of a line of a script, with numbers of any size.
#[derive(Debug, Drop)]
pub enum Form {
    Version(Number),
    Kernels(Number),
    /// The process and its kernel.
    Process(Number, Number),
    Wire(Number, Number),
    Ask(Number, CompactCall),
    /// A call whose text has more than 256 bytes.
    LongAsk(Number),
    Take(Number, Number),
    Settle,
}

/// The form of a line of a script of this version. A call is read into a place that is lent, and kept at its own length.
#[tactic(auto, unfolding(crate::specs::Forms::form_of, crate::specs::Forms::led))]
pub(crate) fn script_form(
    alloc: Global,
    version: u8,
    line: &[u8],
    place: &mut Call,
) -> Result<Result<Form, Fault>, NoMemory>
    ensures { IfOk result (λ form. form ≡ form_of version (words line.now)) }
{
    let (word, rest) = cut(b' ', line);
    match read_lead(word) {
        Lead::Other => call_of_process(alloc, version, word, rest, place),
        lead => Ok(led_form(lead, rest)),
    }
}

/// The form of a line that is no call of a process.
#[tactic(auto, unfolding(crate::specs::Forms::led))]
pub fn led_form(lead: Lead, rest: Option<&[u8]>) -> Result<Form, Fault>
    requires { lead ≢ Lead.Other }
    ensures { (version : ℕ) (word : List ℕ) → result ≡ led version lead word (rest_parts blank (option_copied rest.entry)) }
{
    match lead {
        Lead::Version => Ok(Form::Version(number(rest)?)),
        Lead::Kernels => Ok(Form::Kernels(number(rest)?)),
        Lead::Process => {
            let (process, kernel) = process_on_kernel(rest)?;
            Ok(Form::Process(process, kernel))
        }
        Lead::Wire => {
            let (first, second) = numbers(rest)?;
            Ok(Form::Wire(first, second))
        }
        Lead::Take => {
            let (from, to) = numbers(rest)?;
            Ok(Form::Take(from, to))
        }
        Lead::Settle => {
            end_of_line(rest)?;
            Ok(Form::Settle)
        }
        Lead::Other => unreachable!(),
    }
}

/// The form of a call of a process.
#[tactic(auto, unfolding(crate::specs::Forms::asked))]
fn call_of_process(
    alloc: Global,
    version: u8,
    word: &[u8],
    rest: Option<&[u8]>,
    place: &mut Call,
) -> Result<Result<Form, Fault>, NoMemory>
    ensures { IfOk result (λ form. form ≡ asked version word.now (rest_parts blank (option_copied rest.entry))) }
{
    let process = match read_process(word) {
        Ok(process) => process,
        Err(fault) => return Ok(Err(fault)),
    };
    match read_call_into(rest, version, place) {
        Ok(()) => Ok(Ok(Form::Ask(process, CompactCall::of(alloc, place)?))),
        Err(Fault::Long) => Ok(Ok(Form::LongAsk(process))),
        Err(Fault::Form) => Ok(Err(Fault::Form)),
    }
}

/// Which kind of line a first word begins.
#[tactic(auto, unfolding(crate::specs::Forms::lead_of))]
pub fn read_lead(word: &[u8]) -> Lead
    ensures { result ≡ lead_of word.now }
{
    if word == b"version".as_slice() {
        Lead::Version
    } else if word == b"kernels".as_slice() {
        Lead::Kernels
    } else if word == b"process".as_slice() {
        Lead::Process
    } else if word == b"wire".as_slice() {
        Lead::Wire
    } else if word == b"take".as_slice() {
        Lead::Take
    } else if word == b"settle".as_slice() {
        Lead::Settle
    } else {
        Lead::Other
    }
}

/// `N`.
#[tactic(auto, unfolding(crate::specs::Forms::one_number))]
fn number(rest: Option<&[u8]>) -> Result<Number, Fault>
    ensures { result ≡ one_number (rest_parts blank (option_copied rest.entry)) }
{
    let (word, rest) = next_word(rest)?;
    let number = read_number(word)?;
    end_of_line(rest)?;
    Ok(number)
}

/// `I J`.
#[tactic(auto, unfolding(crate::specs::Forms::two_numbers))]
fn numbers(rest: Option<&[u8]>) -> Result<(Number, Number), Fault>
    ensures { result ≡ two_numbers (rest_parts blank (option_copied rest.entry)) }
{
    let (word, rest) = next_word(rest)?;
    let first = read_number(word)?;
    let second = number(rest)?;
    Ok((first, second))
}

/// `I on K`.
#[tactic(auto, unfolding(crate::specs::Forms::placed))]
fn process_on_kernel(rest: Option<&[u8]>) -> Result<(Number, Number), Fault>
    ensures { result ≡ placed (rest_parts blank (option_copied rest.entry)) }
{
    let (placed, rest) = placed_process(rest)?;
    end_of_line(rest)?;
    Ok(placed)
}

/// The process and the kernel of `I on K`, and what stands behind them.
#[tactic(auto, unfolding(crate::specs::Forms::placed_at))]
pub fn placed_process(rest: Option<&[u8]>) -> Result<((Number, Number), Option<&[u8]>), Fault>
    ensures { Gives (λ x. (x.0, rest_parts blank (option_copied x.1))) result (placed_at (rest_parts blank (option_copied rest.entry))) }
{
    let (word, rest) = next_word(rest)?;
    let process = read_number(word)?;
    let (on, rest) = next_word(rest)?;
    if on != b"on".as_slice() {
        return Err(Fault::Form);
    }
    let (word, rest) = next_word(rest)?;
    let kernel = read_number(word)?;
    Ok(((process, kernel), rest))
}
