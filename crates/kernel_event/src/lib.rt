//! What a call and what a packet does with the table of a kernel, and what it adds to the event: the parts of the two cores, and
//! what they leave, in the order in which the event is to have it.
//!
//! # What is proved
//! What each call and each packet does with the table, and the packets, reports, answers and steps that it adds, in their order; how much
//! room that takes, by kind of call and packet.
//! By clauses of `act` and `row`; `room_of_call` and `room_of_packet` in `specs/Room.antt`.
#![tactic(auto)]

mod acts;
mod back;
mod carried;
mod death;
mod order;
mod parcel;
mod rows;

pub use acts::act;
pub use rows::row;
