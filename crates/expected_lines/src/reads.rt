//! The next line of a reader, compared with the text of what a kernel gives.
ghost use Rattle.std.specs.Prelude.{◌≡◌, ◌++◌, MatchBool};
ghost use Rattle.charlotte_packets.specs.Packets.{what_picture};
ghost use Rattle.charlotte_text.specs.Reading.{parts};
ghost use Rattle.charlotte_text.specs.Spelling.{line_feed};
ghost use Rattle.expected_lines.specs.Told.{told_packet};
ghost use Rattle.leading_lines.specs.Ahead.{head_text};
ghost use Rattle.transcript_reader.specs.Next.{Reads};
ghost use Rattle.leading_lines.specs.declared.guess.Ahead.TheVariants as heads;
ghost use Rattle.transcript_reading.specs.Kinds.{shown_step};
ghost use Rattle.transcript_reading.specs.declared.line.LineKind.TheVariants as line;

use crate::shown::{has_few, has_shown};
use charlotte_calls::{Call, ServiceStep};
use charlotte_packets::Packet;
use kernel_entries::{tell_packet, tell_pid, tell_step, tell_u8, tell_u64};
use transcript_reader::{
    CallAhead, PacketAhead, Reader, behind_packet, behind_step, read_leading_call,
};

/// Whether the next line shows this step; if so, it is read.
pub fn reads_step(reader: &mut Reader<'_>, step: &ServiceStep) -> bool
    ensures { MatchBool result (Reads reader.old (line.Service (shown_step step.now)) reader.new) (reader.new ≡ reader.old) }
{
    if !has_shown(reader.version(), step) {
        return false;
    }
    tell_step(step);
    match behind_step(reader.rest(), step) {
        Some(left) => reader.pass_line(left),
        None => false,
    }
}

/// Whether the next line, which begins so, is the entry of this packet; if so, it is read.
pub fn reads_packet<'a>(
    reader: &mut Reader<'a>,
    ahead: PacketAhead,
    rest: &'a [u8],
    packet: &Packet,
) -> bool
    requires { reader.old.texts ≡ parts line_feed (head_text (heads.Packet ahead) ++ rest.now) }
    ensures { MatchBool result (Reads reader.old (line.PacketEntry ahead.stamp ahead.kernel ahead.from (told_packet (what_picture packet.now.what))) reader.new) (reader.new ≡ reader.old) }
{
    if !has_few(reader.version(), &packet.what) {
        return false;
    }
    tell_u64(ahead.stamp);
    tell_u8(ahead.kernel);
    tell_u8(ahead.from);
    tell_packet(packet);
    match behind_packet(rest, &packet.what) {
        Some(left) => reader.pass_line(left),
        None => false,
    }
}

/// Whether the next line, which begins so, is the entry of a call; if so, it is read, and the call is put into its place.
pub fn reads_call<'a>(
    reader: &mut Reader<'a>,
    ahead: CallAhead,
    rest: &'a [u8],
    call: &mut Call,
) -> bool
    requires { reader.old.texts ≡ parts line_feed (head_text (heads.Call ahead) ++ rest.now) }
    ensures { MatchBool result (Reads reader.old (line.CallEntry ahead.stamp ahead.kernel ahead.p call.new) reader.new) (reader.new ≡ reader.old) }
{
    tell_u64(ahead.stamp);
    tell_u8(ahead.kernel);
    tell_pid(ahead.p);
    match read_leading_call(rest, reader.version(), call) {
        Some(left) => reader.pass_line(left),
        None => false,
    }
}
