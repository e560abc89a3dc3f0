//! Lines as a transcript has them, without their line feeds.
ghost use Rattle.std.specs.Prelude.{◌≡◌, ◌++◌, ◌∷◌, [], IfOk, codes};
ghost use Rattle.charlotte_packets.specs.Packets.{packet_picture};
ghost use Rattle.charlotte_text.specs.Spelling.{number_text};
ghost use Rattle.kernel_entries.specs.declared.entry.Happened.TheVariants.{Asked, Took};
ghost use Rattle.transcript_items.specs.Texts.{filled};
ghost use Rattle.transcript_lines.specs.Transcript.{happened_text, step_text};

use crate::texts::fill;
use charlotte_calls::{Call, NoMemory, Pid, ServiceStep};
use charlotte_packets::Packet;
use journal_text::{push_asked, push_head, push_step_line, push_took};
use std::alloc::Global;

/// The line of a call.
pub(crate) fn call_line(
    alloc: Global,
    stamp: u64,
    kernel: u8,
    p: Pid,
    call: &Call,
) -> Result<Vec<u8>, NoMemory>
    ensures { IfOk result (λ l. l.items ≡ number_text stamp ++ codes " k" ++ number_text kernel ++ happened_text (Asked p call.now)) }
{
    let mut line = Vec::new(alloc);
    push_head(&mut line, stamp, kernel)?;
    push_asked(&mut line, p, call)?;
    Ok(line)
}

/// The line of a packet that a kernel takes.
pub(crate) fn packet_line(
    alloc: Global,
    stamp: u64,
    kernel: u8,
    from: u8,
    packet: &Packet,
) -> Result<Vec<u8>, NoMemory>
    ensures { IfOk result (λ l. l.items ≡ number_text stamp ++ codes " k" ++ number_text kernel ++ happened_text (Took from (packet_picture packet.now))) }
{
    let mut line = Vec::new(alloc);
    push_head(&mut line, stamp, kernel)?;
    push_took(&mut line, from, packet)?;
    Ok(line)
}

/// The line of a step.
pub(crate) fn step_line(alloc: Global, step: &ServiceStep) -> Result<Vec<u8>, NoMemory>
    ensures { IfOk result (λ l. l.items ≡ step_text step.now) }
{
    let mut line = Vec::new(alloc);
    push_step_line(&mut line, step)?;
    let _ = line.pop();
    Ok(line)
}

/// The form of a call of a process that runs.
pub(crate) fn call_form(alloc: Global, stamp: u64, kernel: u8, p: Pid) -> Result<Vec<u8>, NoMemory>
    ensures { IfOk result (λ l. l.items ≡ filled (codes "# k# p# CALL") (stamp ∷ kernel ∷ p.0 ∷ [])) }
{
    let mut form = Vec::new(alloc);
    fill(
        &mut form,
        b"# k# p# CALL",
        &[stamp, u64::from(kernel), u64::from(p.0)],
    )?;
    Ok(form)
}
