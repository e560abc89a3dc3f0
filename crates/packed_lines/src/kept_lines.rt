ghost use Rattle.std.specs.Prelude.{◌≡◌, ◌+◌, ◌*◌, ◌≤◌, ◌++◌, ◌∷◌, [], IfOk, OnErr, OnOk, drop, if◌then◌else◌, length, map, take};
ghost use Rattle.charlotte_packets.specs.Packets.{packet_picture};
ghost use Rattle.kernel_entries.specs.declared.entry.Happened.TheVariants.{Asked, Took};
ghost use Rattle.packed_lines.specs.Lines.{AreLines, happened_line, step_lines};
ghost use Rattle.packed_lines.specs.Packed.{kept, kept_text, line_note, packed};

use crate::pack::{is_packed, push_packed};
use charlotte_calls::{Call, NoMemory, Pid, ServiceStep};
use charlotte_packets::Packet;
use journal_text::{push_asked, push_step_line, push_took};
use std::alloc::Global;

/// Lines of one event as they are kept, one after the other, some of them packed. The first line of an event has neither stamp nor kernel.
#[derive(Drop)]
pub struct KeptLines {
    pub text: Vec<u8>,
    /// Of each line twice how long it is as it is kept, and one more where it is packed. No value of the types has a line of more than 32,767 bytes.
    pub notes: Vec<u16>,
    /// A line while it is packed.
    packed: Vec<u8>,
}

impl KeptLines {
    /// No lines.
    pub fn nothing(alloc: Global) -> KeptLines
        ensures { AreLines result [] }
    {
        KeptLines {
            text: Vec::new(alloc),
            notes: Vec::new(alloc),
            packed: Vec::new(alloc),
        }
    }

    /// The same lines.
    pub fn copy(&self) -> Result<KeptLines, NoMemory>
        ensures text { IfOk result (λ copy. copy.text.items ≡ self.now.text.items) }
        ensures notes { IfOk result (λ copy. copy.notes.items ≡ self.now.notes.items) }
    {
        let alloc = *self.text.allocator();
        Ok(KeptLines {
            text: Vec::from_slice(alloc, &self.text)?,
            notes: Vec::from_slice(alloc, &self.notes)?,
            packed: Vec::new(alloc),
        })
    }

    /// Lets the lines go, and keeps the room.
    pub fn clear(&mut self)
        ensures { AreLines self.new [] }
    {
        self.text.clear();
        self.notes.clear();
    }

    /// Writes the line of a process's call in place of what stands here. After want of memory no lines stand here.
    pub fn write_asked(&mut self, p: Pid, call: &Call) -> Result<(), NoMemory>
        ensures lines { OnOk result (AreLines self.new (happened_line (Asked p call.now) ∷ [])) }
        ensures none { OnErr result (AreLines self.new []) }
    {
        self.clear();
        match self.push_asked(p, call) {
            Ok(()) => Ok(()),
            Err(NoMemory) => {
                self.clear();
                Err(NoMemory)
            }
        }
    }

    /// Writes the line of the taking of a packet from a kernel in place of what stands here. After want of memory no lines stand here.
    pub fn write_took(&mut self, from: u8, packet: &Packet) -> Result<(), NoMemory>
        ensures lines { OnOk result (AreLines self.new (happened_line (Took from (packet_picture packet.now)) ∷ [])) }
        ensures none { OnErr result (AreLines self.new []) }
    {
        self.clear();
        match self.push_took(from, packet) {
            Ok(()) => Ok(()),
            Err(NoMemory) => {
                self.clear();
                Err(NoMemory)
            }
        }
    }

    /// Writes the lines of steps in place of what stands here.
    pub fn write_steps(&mut self, steps: &[ServiceStep]) -> Result<(), NoMemory>
        ensures { OnOk result (AreLines self.new (step_lines steps.now)) }
    {
        self.clear();
        self.push_steps(steps)
    }

    fn push_asked(&mut self, p: Pid, call: &Call) -> Result<(), NoMemory>
        requires { AreLines self.old [] }
        ensures { OnOk result (AreLines self.new (happened_line (Asked p call.now) ∷ [])) }
    {
        push_asked(&mut self.text, p, call)?;
        self.text.push(b'\n')?;
        self.close_line(0)
    }

    fn push_took(&mut self, from: u8, packet: &Packet) -> Result<(), NoMemory>
        requires { AreLines self.old [] }
        ensures { OnOk result (AreLines self.new (happened_line (Took from (packet_picture packet.now)) ∷ [])) }
    {
        push_took(&mut self.text, from, packet)?;
        self.text.push(b'\n')?;
        self.close_line(0)
    }

    fn push_steps(&mut self, steps: &[ServiceStep]) -> Result<(), NoMemory>
        ensures text { OnOk result (self.new.text.items ≡ self.old.text.items ++ kept_text (step_lines steps.now)) }
        ensures notes { OnOk result (self.new.notes.items ≡ self.old.notes.items ++ map line_note (step_lines steps.now)) }
    {
        for step in steps {
            let from = self.text.len();
            push_step_line(&mut self.text, step)?;
            self.close_line(from)?;
        }
        Ok(())
    }

    /// What the text ends with, from this place on, is a line.
    #[inline(always)]
    fn close_line(&mut self, from: usize) -> Result<(), NoMemory>
        requires { from ≤ length self.old.text.items }
        ensures text { OnOk result (self.new.text.items ≡ take from self.old.text.items ++ kept (drop from self.old.text.items)) }
        ensures notes { OnOk result (self.new.notes.items ≡ self.old.notes.items ++ line_note (drop from self.old.text.items) ∷ []) }
    {
        let packed = is_packed(&self.text[from..]);
        if packed {
            self.pack(from)?;
        }
        push_note(&mut self.notes, self.text.len() - from, packed)
    }

    /// Packs what the text ends with, from this place on.
    #[inline(never)]
    fn pack(&mut self, from: usize) -> Result<(), NoMemory>
        requires { from ≤ length self.old.text.items }
        ensures text { OnOk result (self.new.text.items ≡ take from self.old.text.items ++ packed (drop from self.old.text.items)) }
        ensures notes { self.new.notes.items ≡ self.old.notes.items }
    {
        self.packed.clear();
        push_packed(&mut self.packed, &self.text[from..])?;
        self.text.truncate(from);
        self.text.extend_from_slice(self.packed.as_slice())?;
        Ok(())
    }
}

/// Notes how long a line is as it is kept, and whether it is packed. There is no room for the length of one that is too long.
#[inline(always)]
fn push_note(notes: &mut Vec<u16>, length: usize, packed: bool) -> Result<(), NoMemory>
    ensures { OnOk result (notes.new.items ≡ notes.old.items ++ (2 * length + (if packed then 1 else 0)) ∷ []) }
{
    match u16::try_from(length) {
        Ok(length) if length < 32_768 => {
            notes.push(2 * length + u16::from(packed))?;
            Ok(())
        }
        _ => Err(NoMemory),
    }
}
