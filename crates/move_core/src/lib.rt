//! Enclosing, leaving, arriving and routing of ends: each call does one part of the kernel step on the table of a kernel,
//! and adds to a `Work` what that part sends and reports.
//!
//! An end that only passes through, or is destroyed as it arrives, is here meanwhile, in a message of the end that the packet is addressed
//! to.
//!
//! # What is proved
//! The same of enclosing, of the ends in a parcel and in a back, of destroying an end, and of the packets moved, known, forget and
//! goneseen. `route` is exact.
//! By clauses `part` of `enclose`, `arrive`, `give_back`, `destroy`, `moved`, `known`, `forget`, `gone_seen`; `room` of these, but for
//! `enclose` and `forget`, which add nothing (`same`); the clause of `route`.
#![tactic(auto)]

mod back;
mod ending;
mod forward;
mod holding;
mod movement;
mod parcel;
mod routing;
mod settling;
mod spare;

pub use back::give_back;
pub use ending::{destroy, gone_seen};
pub use forward::Route;
pub use holding::enclose;
pub use kernel_step::leave;
pub use movement::{forget, known, moved};
pub use parcel::arrive;
pub use routing::route;
pub use settling::settle;
pub use spare::room;
