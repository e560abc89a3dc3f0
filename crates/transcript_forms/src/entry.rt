//! Entries: calls, and packets that were taken.
ghost use Rattle.std.specs.Prelude.{◌≡◌};
ghost use Rattle.transcript_reading.specs.Forms.{took_of, asked_of, happened_of, entry_of};

use crate::packet::read_packet;
use crate::word::{read_pid, read_u64};
use crate::words::Words;
use charlotte_packets::Picture;
use charlotte_text::{Fault, is_word};
use transcript_reading::LineKind;

/// An entry, by its first word and those behind it.
#[tactic(auto, unfolding(transcript_reading::specs::Forms::entry_of))]
pub(crate) fn read_entry(version: u8, word: &[u8], mut words: Words<'_>) -> Result<LineKind, Fault>
    ensures { result ≡ entry_of version word.now words.entry }
{
    let stamp = read_u64(word)?;
    let kernel = words.kernel()?;
    read_happened(version, stamp, kernel, words)
}

/// What happened.
#[tactic(auto, unfolding(transcript_reading::specs::Forms::happened_of))]
fn read_happened(
    version: u8,
    stamp: u64,
    kernel: u8,
    mut words: Words<'_>,
) -> Result<LineKind, Fault>
    ensures { result ≡ happened_of version stamp kernel words.entry }
{
    let Some(word) = words.pop() else {
        return Err(Fault::Form);
    };
    if is_word(word, b"from") {
        read_took(version, stamp, kernel, words)
    } else {
        read_asked(version, stamp, kernel, word, words)
    }
}

/// `from J PACKET`, behind the first word. No line shows the stamp of the packet.
#[tactic(auto, unfolding(transcript_reading::specs::Forms::took_of))]
fn read_took(version: u8, stamp: u64, kernel: u8, mut words: Words<'_>) -> Result<LineKind, Fault>
    ensures { result ≡ took_of version stamp kernel words.entry }
{
    let from = words.u8()?;
    let what = read_packet(version, words)?;
    Ok(LineKind::PacketEntry {
        stamp,
        kernel,
        from,
        picture: Picture { stamp: 0, what },
    })
}

/// `pP CALL`.
#[tactic(auto, unfolding(transcript_reading::specs::Forms::asked_of))]
fn read_asked(
    version: u8,
    stamp: u64,
    kernel: u8,
    word: &[u8],
    words: Words<'_>,
) -> Result<LineKind, Fault>
    ensures { result ≡ asked_of version stamp kernel word.now words.entry }
{
    let p = read_pid(word)?;
    let call = words.call(version)?;
    Ok(LineKind::CallEntry {
        stamp,
        kernel,
        p,
        call,
    })
}
