ghost use Rattle.std.specs.Prelude.{◌≡◌, IfOk, map};
ghost use Rattle.std.specs.List.{concat};
ghost use Rattle.transcript_lines.specs.Transcript.{packet_text, entry_lines, header_lines, transcript_lines};
ghost use Rattle.transcript_lines.specs.TranscriptText.{AreOfTranscript, IsTranscript};

use crate::end_lines::{last_line, push_note_lines};
use crate::entry_lines::{push_entry_lines, push_merged_lines};
use crate::header_lines::{number_line, push_process_lines, push_wire_lines};
use crate::packet::push_kept_packet;
use crate::{Last, Placed, ScriptNote};
use charlotte_calls::{NoMemory, Setting};
use charlotte_packets::Picture;
use compact_calls::CompactPicture;
use std::alloc::Global;

/// The text of a packet, as `want 0.0a 1 0 0`, without a line feed. It does not show the stamp.
pub fn print_picture(alloc: Global, picture: &Picture) -> Result<Vec<u8>, NoMemory>
    ensures { IfOk result (λ text. text.items ≡ packet_text picture.now.what) }
{
    let mut text = Vec::new(alloc);
    let picture = CompactPicture::of(alloc, picture)?;
    push_kept_packet(&mut text, picture.stored())?;
    Ok(text)
}

/// The line of an entry and those of its service steps, each with its line feed.
pub fn print_entry(alloc: Global, placed: &Placed) -> Result<Vec<Vec<u8>>, NoMemory>
    ensures { IfOk result (λ lines. map (λ l. l.items) lines.items ≡ entry_lines placed.now) }
{
    let mut lines = Vec::new(alloc);
    push_entry_lines(alloc, &mut lines, placed)?;
    Ok(lines)
}

/// The lines of a setting, each with its line feed.
pub fn print_header(alloc: Global, setting: &Setting) -> Result<Vec<Vec<u8>>, NoMemory>
    ensures { IfOk result (λ lines. map (λ l. l.items) lines.items ≡ header_lines setting.now) }
{
    let mut lines = Vec::new(alloc);
    lines.push(number_line(alloc, b"transcript ", setting.version)?)?;
    lines.push(number_line(alloc, b"kernels ", setting.kernels)?)?;
    push_process_lines(alloc, &mut lines, setting.homes.as_slice())?;
    push_wire_lines(alloc, &mut lines, setting.wires.as_slice())?;
    Ok(lines)
}

/// The lines of a transcript, each with its line feed.
pub fn print_transcript(
    alloc: Global,
    setting: &Setting,
    merged: &[Placed],
    notes: &[ScriptNote],
    last: Last,
) -> Result<Vec<Vec<u8>>, NoMemory>
    ensures lines { IfOk result (λ lines. map (λ l. l.items) lines.items ≡ transcript_lines setting.now merged.now notes.now last) }
    ensures text { AreOfTranscript setting.now merged.now notes.now last → IfOk result (λ lines. IsTranscript (concat (map (λ l. l.items) lines.items)) setting.now merged.now notes.now last) }
{
    let mut lines = print_header(alloc, setting)?;
    push_merged_lines(alloc, &mut lines, merged)?;
    push_note_lines(alloc, &mut lines, notes)?;
    lines.push(last_line(alloc, last)?)?;
    Ok(lines)
}
