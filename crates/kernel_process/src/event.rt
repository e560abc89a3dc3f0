ghost use Rattle.std.specs.Prelude.{◌≡◌, ◌+◌, ◌*◌, ◌<◌, ◌≤◌, ◌^◌, [], OnOk, vec_capacity, vec_len};
ghost use Rattle.kernel_process.specs.Closing.{IsBegun};
ghost use Rattle.kernel_step.specs.Kernel.{Kernel, begins};
ghost use Rattle.kernel_step.specs.Progress.{progress};
ghost use Rattle.kernel_step.specs.Room.{and_ends};

use charlotte_calls::{NoMemory, Pid};
use charlotte_packets::{PacketList, Room, Work};
use kernel_step::PACKETS_OF_END;
use std::alloc::Global;

/// What an event adds, until it closes.
#[derive(Drop)]
pub struct Event {
    pub work: Work,
    /// The processes to which an answer came to stand: none before the event closes.
    pub answered: Vec<Pid>,
}

impl Event {
    /// An event that has added nothing and has no room yet, for `begin`.
    pub fn unused(alloc: Global) -> Event {
        let work = Work {
            stamp: 0,
            packets: PacketList::new(alloc),
            reports: Vec::new(alloc),
            answers: Vec::new(alloc),
            steps: Vec::new(alloc),
        };
        Event {
            work,
            answered: Vec::new(alloc),
        }
    }

    /// The event becomes one with this stamp that has added nothing. It has this room, room for the packets of so many ends that die
    /// besides, for what its reports and answers bring, and for `own` answers more. Memory is taken only where the room of the lists
    /// that it has is not enough.
    #[tactic(auto, unfolding(kernel_step::specs::Progress::progress))]
    #[inline(always)]
    pub fn begin(
        &mut self,
        stamp: u64,
        room: Room,
        dying: usize,
        own: usize,
    ) -> Result<(), NoMemory>
        requires few { dying < 2 ^ 60 }
        requires one { own ≤ 1 }
        ensures begins { OnOk result ((s : Kernel) → progress s.table self.new.work ≡ begins s stamp) }
        ensures begun { OnOk result (IsBegun (and_ends dying room) own self.new) }
        ensures stamp { OnOk result (self.new.work.stamp ≡ stamp) }
    {
        let most_packets = room.packets as usize + PACKETS_OF_END as usize * dying;
        let most_reports = room.reports as usize;
        let most_answers = room.answers as usize;
        self.work.packets.renew(most_packets)?;
        renew(&mut self.work.reports, most_reports)?;
        renew(&mut self.work.answers, most_answers)?;
        renew(&mut self.work.steps, room.steps as usize + most_reports)?;
        renew(&mut self.answered, most_answers + most_reports + own)?;
        self.work.stamp = stamp;
        Ok(())
    }
}

/// Empties a list, and gives it room for so many.
#[inline(always)]
fn renew<T: Drop>(list: &mut Vec<T>, most: usize) -> Result<(), NoMemory>
    ensures empty { list.new.items ≡ [] }
    ensures room { OnOk result (vec_len list.new + most ≤ vec_capacity list.new) }
{
    list.clear();
    list.reserve(most)?;
    Ok(())
}
