//! What one kernel keeps of each end: a table of entries with hashed look-up.
//!
//! A place is kept where its entry becomes Nothing, since a packet may name an end twice; `release` gives back the place of an end that has
//! no entry. No `&mut` into the table is handed out, so the invariant of a table asks nothing of callers. An end that is here has its whole
//! value in one field (`HereView`), so that what happens to a value is said once, on values.
//!
//! # What is proved
//! After each change the entry of the changed end is exactly as said, and that of every other end is as before; an end has one entry. An
//! end that is here is borrowed as its entry, without a copy, and its fields are set in place. The message of a send that waits is kept
//! beside the places, and what the entry says of it is what is kept; there is room for it without new memory, whether it is brief or not. An
//! `install` at an end with a place succeeds. `owned_by` gives exactly the ends of a process, in order, and such a list exists for every table.
//! By `Puts`, `Clears`, `AreEndsOf` in the clauses; `entry` of `lend` and `look`, `view` of `here`, `owned` of `owned`; `HoldsMessages`;
//! `has_list_of`; `entries` in `specs/Table.antt`.
#![tactic(auto)]

mod brief;
mod entry;
mod held;
mod kept;
mod living;
mod message;
mod messages;
mod places;
mod slot;
mod table;

pub use entry::{Entry, HereView, Holder, Inward, Lent, Outward, Sending};
pub use living::Living;
pub use message::MessageSeen;
pub use table::{NotStored, Table};
