//! What happens in an event, written as it happens: without its stamp and kernel, which stand before it in its line.
ghost use Rattle.std.specs.Prelude.{◌≡◌, ◌++◌, OnOk, codes};
ghost use Rattle.charlotte_packets.specs.Packets.{packet_picture};
ghost use Rattle.charlotte_text.specs.Spelling.{number_text, process_text};
ghost use Rattle.transcript_lines.specs.Transcript.{line, happened_text, step_text};
ghost use Rattle.kernel_entries.specs.declared.entry.Happened.TheVariants.{Asked, Took};

use crate::packet::push_packet;
use crate::step::{push_of, push_step};
use charlotte_calls::{Call, NoMemory, Pid, ServiceStep};
use charlotte_packets::Packet;
use charlotte_text::{push_call, push_number};

/// Appends that a process makes a call, as ` p1 send 0.0a hello`.
pub fn push_asked(out: &mut Vec<u8>, p: Pid, call: &Call) -> Result<(), NoMemory>
    ensures { OnOk result (out.new.items ≡ out.old.items ++ happened_text (Asked p call.now)) }
{
    push_asking(out, p)?;
    push_call(out, call)
}

/// Appends that a kernel takes a packet from a kernel, as ` from 1 want 0.0a 1 0 0`.
pub fn push_took(out: &mut Vec<u8>, from: u8, packet: &Packet) -> Result<(), NoMemory>
    ensures { OnOk result (out.new.items ≡ out.old.items ++ happened_text (Took from (packet_picture packet.now))) }
{
    push_taking(out, from)?;
    push_packet(out, &packet.what)
}

/// Appends the line of a service step, as `. take 0.0a 1 p1 late`.
pub fn push_step_line(out: &mut Vec<u8>, step: &ServiceStep) -> Result<(), NoMemory>
    ensures { OnOk result (out.new.items ≡ out.old.items ++ line (step_text step.now)) }
{
    push_step(out, step)?;
    out.push(b'\n')?;
    Ok(())
}

/// Appends a process before its call.
pub(crate) fn push_asking(out: &mut Vec<u8>, p: Pid) -> Result<(), NoMemory>
    ensures { OnOk result (out.new.items ≡ out.old.items ++ codes " " ++ process_text p ++ codes " ") }
{
    push_of(out, b" ", p)?;
    out.push(b' ')?;
    Ok(())
}

/// Appends what stands before a packet that is taken: the kernel that sent it, as ` from 1 `.
pub fn push_taking(out: &mut Vec<u8>, from: u8) -> Result<(), NoMemory>
    ensures { OnOk result (out.new.items ≡ out.old.items ++ codes " from " ++ number_text from ++ codes " ") }
{
    out.extend_from_slice(b" from ")?;
    push_number(out, u64::from(from))?;
    out.push(b' ')?;
    Ok(())
}
