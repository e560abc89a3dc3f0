//! Each link of a run of LYNX processes on kernels is one by itself: the law of one link holds of every run. Laws, and the lemmas that they stand on.
//!
//! # What is proved
//! The invariant of a run (`Stands` of `run_invariant`) says how the service, the processes and each link by itself stand to each other: each end is in one place at
//! most, of the process that owns it; what its owner keeps for it is what the link has; and what comes to it are the messages that its opposite sent, in order. It
//! holds at the start (`proofs/Starting.antt`), and is kept by each step of the service and of a process, so along each replay of all processes over the entries of a
//! run (`proofs/Following.antt`). So the deeds of a run are, on each end and its opposite, those of events at a link (`links_of_a_run_are_followed`), and requests and
//! replies are in order (`requests_of_a_run_are_in_order`). For runs of at most 2^28 entries.
#![tactic(auto)]

mod law;

pub use law::{links_of_a_run_are_followed, requests_of_a_run_are_in_order};
