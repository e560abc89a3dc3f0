//! What a process is answered is determined by the entries of its kernel. Laws: in each local run the available answer is the one that they
//! determine, it becomes available in just the event whose entry determines it, and it fits its call.
//!
//! `heard` is one fold over entries, which keeps the last call and its answer. A refuse or make in the call's own entry is taken as it is,
//! without testing whom it names, since an entry of a call has none of another.
//!
//! # What is proved
//! What a process is answered is determined by the service steps of its kernel's entries, by a definition on entries alone. In each local
//! run the available answer of a process is the one that they determine, there is none where they determine none, and it fits its call; it
//! becomes available in just the event whose entry determines it, at most one in an event; and a call that is not answered is a Wait or the
//! Cancel of a receive, in which the process is.
//! By laws `told_answers`, `answers_come_as_told`; `heard`, `tells` in `specs/Told.antt`, `StandsAsTold`, `ComesAsTold` in
//! `specs/Standing.antt`.
#![tactic(auto)]

mod law;

pub use law::{answers_come_as_told, told_answers};
