//! Sends, receives and the packets that ask for messages and complete them: each call does one part of the kernel step
//! on the table of a kernel, and adds to a `Work` what that part sends, reports, answers and means.
//!
//! Their `requires` say: enclosed ends are here and idle, none is named twice, none is the end that acts (`IsReady`, `AreEnclosed`).
//!
//! # What is proved
//! Each function does to the table and to the lists of an event exactly what the definition of its part of the kernel step computes, for
//! every state that meets its conditions, with messages that enclose up to eight ends, and does not allocate: Send, Receive, both Cancels,
//! the notice of a death, and the packets want, unwant, unwanted, parcel (at its receive) and taken.
//! By clauses `part`, and `room` (how much it adds), of `start_send`, `post`, `withdraw_send`, `withdraw_receive`, `want`, `unwant`,
//! `unwanted`, `arrived`, `finished`, `notice`.
#![tactic(auto)]

mod death;
mod enclosed;
mod matching;
mod receive;
mod send;
mod spare;

pub use death::notice;
pub use receive::{arrived, post, unwanted, withdraw_receive};
pub use send::{finished, start_send, unwant, want, withdraw_send};
pub use spare::room;
