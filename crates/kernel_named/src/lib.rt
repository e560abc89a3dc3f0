//! A kernel names only kernels that exist: a table that names no other preserves that under arbitrary calls and packets, and each packet
//! that an event sends is for such a kernel and names no other. Definitions and lemmas alone.
//!
//! # What is proved
//! A kernel names only kernels that exist: a table that names no other preserves that under every call and under every packet that comes
//! from a kernel that exists, and each packet that the event sends goes to such a kernel and names no other. A kernel of a valid setting
//! starts so.
//! By `call_step-within`, `take_step-within` (`proofs/Steps.antt`), `start-names` (`proofs/Start.antt`); `TableNamesBelow`, `GoWithin` in
//! `specs/Named.antt`.
#![tactic(auto)]
