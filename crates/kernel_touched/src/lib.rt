//! Whose activities an event may change: of a call by the end that it is on, of a packet by the end that hears it. The sets of
//! active ends tell again of what was touched, and of nothing else.
//!
//! # What is proved
//! By which end a packet may be heard, and what a call touches, are told exactly. Where an event changed no other activity, the sets of
//! active ends are correct again once they are rebuilt there. Also: a packet of a silent kind, and one to an end that is not here, changes
//! no activity and gives no report; after an Exit its process has none.
//! By clauses of `touched_of`, `refresh_touched`, `find` and `refresh_if_heard`; `quiet-calm`, `quiet-reports` (`proofs/Silent.antt`),
//! `exit-silent` (`proofs/ExitSilent.antt`).
#![tactic(auto)]

mod found;
mod touched;

pub use found::{Found, find, refresh_if_heard};
pub use touched::{Touched, refresh_touched, touched_of};
