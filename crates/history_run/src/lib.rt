//! Histories as runs of the link service: the lines of a history are followed one after the other, and its steps are made of the service.
//!
//! # What is proved
//! A text is followed to its end exactly where each line has its form in its place, and its steps are one run of the service from the setting of its
//! header, each by the owner of its end. Else the first line is told where that is not so: it has no form, and all steps before it are a run; or its step
//! is not allowed, or not to the process that it names, in the state that the steps before it leave.
//! By the clause of `follow`; `IsAnswer`, `IsRunOf`, `IsRefusedAt` in `specs/`.
#![tactic(auto)]

mod fault;
mod history;
mod text;

pub use fault::{HistoryFault, TextFault};
pub use history::History;
pub use text::follow;
