//! The letters of a kernel that its port did not put yet: the packets of its last event as the kernel gave them, and before them, by target,
//! those that wait for a place in a ring.
//!
//! # What is proved
//! To each kernel letters are put in their order while they are accepted: those that were put, followed by those that are left, are the same
//! before and after, and no more are left; where one is left, no free place of its ring is known. The answer tells whether one was put; where
//! none was, nothing changed. It is empty exactly where no letter is left to any kernel. A marker goes out to each kernel behind all letters so
//! far. Of the ports nothing else changes. After want of memory nothing is known of an outbox, and its port has the same place.
//! The command `run` uses it.
//! By clauses of `Outbox::put`, `Outbox::send`, `Outbox::mark` and `Outbox::is_empty`; `Flushes`, `MayAllBePut`, `markers_to` in
//! `specs/Letters.antt`.
#![tactic(auto)]

mod outbox;
mod unsent;

pub use outbox::Outbox;
