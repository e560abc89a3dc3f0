//! A LYNX process as a program of a kernel: its threads run by the machine, its ends are kept by the protocol.
//!
//! # What is proved
//! A process begins in the state `start` of its version, its code and its ends. Each step is `step` of the state and of what it is told: the
//! call, pause or end, and the state after it. Nothing is asked of what it is told but that it may follow the last step. After want of memory it
//! makes no step any more.
//! By clauses of `LynxProcess::start` and of `next` as `Program` has it; `start` and `step` are of `process_run`, `IsProgram` of `specs/Programs.antt`.
#![tactic(auto)]

mod actions;
mod asked;
mod calls;
mod deaths;
mod process;
mod program;
mod replies;
mod reports;
mod seen;

pub use program::LynxProcess;
