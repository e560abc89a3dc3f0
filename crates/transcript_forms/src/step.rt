//! Service steps, from the name on.
ghost use Rattle.std.specs.Prelude.{◌≡◌};
ghost use Rattle.charlotte_text.specs.Reading.{end_of};
ghost use Rattle.transcript_reading.specs.Forms.{only_of, pid_of, suffix_of, make_of, refuse_of, send_of, cancel_of, take_of, notice_of, back_step_of, named_step_of, step_of};

use crate::packet::read_end_number;
use crate::report::read_report;
use crate::words::Words;
use charlotte_calls::{EndId, Pid};
use charlotte_text::{Fault, is_word};
use transcript_reading::ServiceLine;

/// The words of a service step, behind the dot.
#[tactic(auto, unfolding(transcript_reading::specs::Forms::step_of))]
pub(crate) fn read_step(version: u8, mut words: Words<'_>) -> Result<ServiceLine, Fault>
    ensures { result ≡ step_of version words.entry }
{
    let Some(name) = words.pop() else {
        return Err(Fault::Form);
    };
    read_named(version, name, words)
}

#[tactic(auto, unfolding(transcript_reading::specs::Forms::named_step_of))]
fn read_named(version: u8, name: &[u8], words: Words<'_>) -> Result<ServiceLine, Fault>
    ensures { result ≡ named_step_of version name.now words.entry }
{
    if is_word(name, b"make") {
        read_make(words)
    } else if is_word(name, b"refuse") {
        read_refuse(words)
    } else if is_word(name, b"destroy") {
        read_only_end(words).map(|on| ServiceLine::Destroy { on })
    } else if is_word(name, b"send") {
        read_send(version, words)
    } else if is_word(name, b"receive") {
        read_only_end(words).map(|on| ServiceLine::Receive { on })
    } else if is_word(name, b"cancel") {
        read_cancel(words)
    } else if is_word(name, b"wait") {
        read_only_pid(words).map(|p| ServiceLine::Wait { p })
    } else if is_word(name, b"report") {
        read_report(version, words)
    } else if is_word(name, b"exit") {
        read_only_pid(words).map(|p| ServiceLine::Exit { p })
    } else if is_word(name, b"match") {
        read_end_number(words).map(|(on, n)| ServiceLine::Match { on, n })
    } else if is_word(name, b"take") {
        read_take(words)
    } else if is_word(name, b"complete") {
        read_end_number(words).map(|(on, n)| ServiceLine::Complete { on, n })
    } else if is_word(name, b"withdraw") {
        read_only_end(words).map(|on| ServiceLine::Withdraw { on })
    } else if is_word(name, b"free") {
        read_only_end(words).map(|on| ServiceLine::Free { on })
    } else if is_word(name, b"notice") {
        read_notice(words)
    } else if is_word(name, b"back") {
        read_back(words)
    } else {
        Err(Fault::Form)
    }
}

/// An end, and nothing behind it.
fn read_only_end(mut words: Words<'_>) -> Result<EndId, Fault>
    ensures { result ≡ only_of end_of words.entry }
{
    let on = words.end()?;
    words.finish()?;
    Ok(on)
}

/// A process, and nothing behind it.
fn read_only_pid(mut words: Words<'_>) -> Result<Pid, Fault>
    ensures { result ≡ only_of pid_of words.entry }
{
    let p = words.pid()?;
    words.finish()?;
    Ok(p)
}

#[tactic(auto, unfolding(transcript_reading::specs::Forms::make_of))]
fn read_make(mut words: Words<'_>) -> Result<ServiceLine, Fault>
    ensures { result ≡ make_of words.entry }
{
    let a = words.end()?;
    let b = words.end()?;
    words.finish()?;
    Ok(ServiceLine::Make { a, b })
}

#[tactic(auto, unfolding(transcript_reading::specs::Forms::refuse_of))]
fn read_refuse(mut words: Words<'_>) -> Result<ServiceLine, Fault>
    ensures { result ≡ refuse_of words.entry }
{
    let p = words.pid()?;
    let cause = words.cause()?;
    words.finish()?;
    Ok(ServiceLine::Refuse { p, cause })
}

#[tactic(auto, unfolding(transcript_reading::specs::Forms::send_of))]
fn read_send(version: u8, mut words: Words<'_>) -> Result<ServiceLine, Fault>
    ensures { result ≡ send_of version words.entry }
{
    let on = words.end()?;
    let n = words.u32()?;
    let enclose = words.ends(version)?;
    Ok(ServiceLine::Send { on, n, enclose })
}

#[tactic(auto, unfolding(transcript_reading::specs::Forms::cancel_of))]
fn read_cancel(mut words: Words<'_>) -> Result<ServiceLine, Fault>
    ensures { result ≡ cancel_of words.entry }
{
    let on = words.end()?;
    let way = words.way()?;
    words.finish()?;
    Ok(ServiceLine::Cancel { on, way })
}

/// Whether this word stands behind the others.
#[tactic(auto, unfolding(transcript_reading::specs::Forms::suffix_of))]
fn read_suffix(suffix: &[u8], mut words: Words<'_>) -> Result<bool, Fault>
    ensures { result ≡ suffix_of suffix.now words.entry }
{
    let Some(word) = words.pop() else {
        return Ok(false);
    };
    if word != suffix {
        return Err(Fault::Form);
    }
    words.finish()?;
    Ok(true)
}

#[tactic(auto, unfolding(transcript_reading::specs::Forms::take_of))]
fn read_take(mut words: Words<'_>) -> Result<ServiceLine, Fault>
    ensures { result ≡ take_of words.entry }
{
    let on = words.end()?;
    let n = words.u32()?;
    let p = words.pid()?;
    let late = read_suffix(b"late", words)?;
    Ok(ServiceLine::Take { on, n, p, late })
}

#[tactic(auto, unfolding(transcript_reading::specs::Forms::notice_of))]
fn read_notice(mut words: Words<'_>) -> Result<ServiceLine, Fault>
    ensures { result ≡ notice_of words.entry }
{
    let on = words.end()?;
    let dead = read_suffix(b"dead", words)?;
    Ok(ServiceLine::Notice { on, dead })
}

#[tactic(auto, unfolding(transcript_reading::specs::Forms::back_step_of))]
fn read_back(mut words: Words<'_>) -> Result<ServiceLine, Fault>
    ensures { result ≡ back_step_of words.entry }
{
    let on = words.end()?;
    let n = words.u32()?;
    let dead = read_suffix(b"dead", words)?;
    Ok(ServiceLine::Back { on, n, dead })
}
