//! The kernels of a setting with the packets between them, as a world: each event is made as the definition of a world says.
//!
//! # What is proved
//! `Nodes` is a world: it starts as the world of a setting, a call and a taking change it as a world's event does and give the stamp and
//! the service steps of that event, a packet is taken exactly where it is the first of its list and tells what was asked for, or where it
//! is known to wait, and it is quiet exactly where no packet is under way. That the list of an event's steps comes back changes nothing.
//! The kernel of a number and the first packet from one kernel to another are borrowed as they are in that world.
//! By the clauses of `Nodes`; `world_of`, `Happens`, `TakesTold` and `IsKernelAt` in `specs/Nodes.antt`.
#![tactic(auto)]

mod node;
mod nodes;

pub use kernel_core::Request;
pub use nodes::{Nodes, Noted};
