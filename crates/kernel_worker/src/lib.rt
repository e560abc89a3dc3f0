//! Kernels that run concurrently: each node is driven by a worker of its own, or all by one thread, until the run is quiet or a node's turns are used up.
//!
//! # What is proved
//! Each run returns. Whatever it answers, it changed its nodes by turns alone. Where it answers an end, each two nodes have met, and their journals
//! in the order of a merge are the record of one run of the world, which leaves each kernel as its node has it and under way what is in the net or an
//! outbox; and it is a lawful run of the link service. It answers quiet exactly where no packet and no marker is in the net or an outbox, no answer
//! stands that its program was not given, and each program has ended or waits; and spent only where it is not, with the least node that used its
//! turns. What runs beside the workers follows itself, and where it stopped the run it is stopped. Not promised: which order comes, that threads
//! run at the same time, and in how many rounds a run is done. The command `run` uses it.
//! By clauses of `run_serial`, `run_nodes`, `run_nodes_with`, `work`; `Ends`, `IsQuiet`, `RanTogether` in `specs/Ends.antt`, `GoesOn` in
//! `specs/Rounds.antt`.
#![tactic(auto)]

mod awake;
mod beside;
mod crew;
mod gate;
mod meeting;
mod rounds;
mod serial;
mod standing;
mod working;

pub use beside::{Beside, WithEnd, run_nodes_with};
pub use crew::Crew;
pub use gate::{Gate, NoGate};
pub use kernel_turns::{CallList, Course, NoWatch, Node, Orders, Turn, Watch};
pub use rounds::run_nodes;
pub use serial::run_serial;
pub use standing::End;
pub use working::work;
