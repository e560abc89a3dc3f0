//! The header of a transcript, line by line.
ghost use Rattle.std.specs.Prelude.{◌≡◌, OnOk};
ghost use Rattle.transcript_replay.specs.Header.{tells, untold};

use charlotte_calls::{Items, NoMemory, Pid, Setting};
use std::alloc::Global;
use std::marker::Model;
use std::mem;
use transcript_reading::LineKind;

/// What the lines of a header have told so far.
#[derive(Drop)]
pub struct Draft {
    version: u8,
    kernels: u8,
    homes: Vec<u8>,
    wires: Vec<(Pid, Pid)>,
}

impl Model for Draft {
    ghost use Rattle.charlotte_calls.specs.declared.setting.Setting.{Setting};

    ghost Value = { Setting };

    ghost view = { λ d. record { version = d.version; kernels = d.kernels; homes = d.homes.items; wires = d.wires.items } };
}

impl Draft {
    /// Before the first line.
    pub fn new(alloc: Global) -> Draft
        ensures { result ≡ untold }
    {
        Draft {
            version: 0,
            kernels: 0,
            homes: Vec::new(alloc),
            wires: Vec::new(alloc),
        }
    }

    /// One more line; a line that is none of a header tells nothing.
    pub fn tell(&mut self, kind: &LineKind) -> Result<(), NoMemory>
        ensures { OnOk result (self.new ≡ tells kind.now self.old) }
    {
        match kind {
            LineKind::First { version } => self.version = *version,
            LineKind::Kernels(kernels) => self.kernels = *kernels,
            LineKind::Process { p: _, kernel } => self.homes.push(*kernel)?,
            LineKind::Wire { first, second } => self.wires.push((*first, *second))?,
            LineKind::CallEntry { .. } => {}
            LineKind::PacketEntry { .. } => {}
            LineKind::Service(_) => {}
            LineKind::Note(_) => {}
            LineKind::End(_) => {}
        }
        Ok(())
    }

    /// The setting that was told; it is handed out.
    pub fn finish(&mut self, alloc: Global) -> Setting
        ensures { result ≡ self.old }
    {
        Setting {
            version: self.version,
            kernels: self.kernels,
            homes: Items::of(mem::replace(&mut self.homes, Vec::new(alloc))),
            wires: Items::of(mem::replace(&mut self.wires, Vec::new(alloc))),
        }
    }
}
