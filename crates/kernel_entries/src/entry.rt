ghost use Rattle.std.specs.Prelude.{◌≡◌, IfOk};
ghost use Rattle.kernel_entries.specs.Ranges.{IsHappenedInRange, IsEntryInRange};
ghost use Rattle.kernel_entries.specs.declared.entry.Happened.TheVariants.{Asked, Took};

use crate::ranges::{tell_call, tell_picture, tell_pid, tell_steps, tell_u8, tell_u64};
use charlotte_calls::{Call, Items, NoMemory, Pid, ServiceStep};
use charlotte_packets::Picture;
use compact_calls::{CompactCall, CompactPicture, CompactStep};
use std::alloc::Global;

/// What happened in one event of a kernel.
#[derive(Debug, Drop)]
pub enum Happened {
    /// A process made a call.
    Asked { p: Pid, call: CompactCall },
    /// The kernel took a packet from a kernel.
    Took { from: u8, picture: CompactPicture },
}

impl Happened {
    /// That a process made this call.
    pub fn asked(alloc: Global, p: Pid, call: &Call) -> Result<Happened, NoMemory>
        ensures same { IfOk result (λ h. h ≡ Asked p call.now) }
        ensures in_range { IfOk result IsHappenedInRange }
    {
        tell_pid(p);
        tell_call(call);
        Ok(Happened::Asked {
            p,
            call: CompactCall::of(alloc, call)?,
        })
    }

    /// That a kernel took this packet from a kernel.
    pub fn took(alloc: Global, from: u8, picture: &Picture) -> Result<Happened, NoMemory>
        ensures same { IfOk result (λ h. h ≡ Took from picture.now) }
        ensures in_range { IfOk result IsHappenedInRange }
    {
        tell_u8(from);
        tell_picture(picture);
        Ok(Happened::Took {
            from,
            picture: CompactPicture::of(alloc, picture)?,
        })
    }
}

/// One event of a kernel, with its stamp and what it means to the link service. It takes only the memory of what it says.
#[derive(Debug, Drop)]
pub struct Entry {
    pub stamp: u64,
    pub what: Happened,
    pub steps: Items<CompactStep>,
}

impl Entry {
    /// What happened in the event of a stamp, and the steps that it means.
    pub fn of(
        alloc: Global,
        stamp: u64,
        what: Happened,
        steps: &[ServiceStep],
    ) -> Result<Entry, NoMemory>
        ensures same { IfOk result (λ e. e ≡ record { stamp = stamp; what = what; steps = steps.now }) }
        ensures in_range { IsHappenedInRange what → IfOk result IsEntryInRange }
    {
        tell_u64(stamp);
        tell_steps(steps);
        let steps = store_steps(alloc, steps)?;
        Ok(Entry {
            stamp,
            what,
            steps: Items::of(steps),
        })
    }
}

fn store_steps(alloc: Global, steps: &[ServiceStep]) -> Result<Vec<CompactStep>, NoMemory>
    ensures { IfOk result (λ stored. stored.items ≡ steps.now) }
{
    let mut stored = Vec::with_capacity(alloc, steps.len())?;
    for step in steps {
        stored.push(CompactStep::of(alloc, step)?)?;
    }
    Ok(stored)
}

/// An entry with the kernel of its journal.
#[derive(Debug, Drop)]
pub struct Placed {
    pub kernel: u8,
    pub entry: Entry,
}
