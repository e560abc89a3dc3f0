use charlotte_calls::{Call, Pid};
use charlotte_packets::{Effect, PacketList};
use end_table::Table;
use kernel_process::{Event, Processes};
use std::alloc::Global;

/// What the events of a kernel change.
#[derive(Drop)]
pub(crate) struct State {
    pub(crate) table: Table,
    pub(crate) processes: Processes,
    /// How many links the kernel has made.
    pub(crate) made: u32,
    /// The event that is under way. Where none is, the last one, of whose lists the next takes the room.
    pub(crate) event: Event,
}

/// A call, with the process that makes it.
#[derive(Drop)]
pub struct Request {
    pub p: Pid,
    pub call: Call,
}

/// The effect of no event.
pub(crate) fn no_effect(alloc: Global) -> Effect {
    Effect {
        stamp: 0,
        packets: PacketList::new(alloc),
        answered: Vec::new(alloc),
        steps: Vec::new(alloc),
    }
}
