//! A plan is loaded: it is read, its modules are read and compiled, and the programs of its processes are made.
//!
//! # What is proved
//! The plan is read once, and then each of its modules once, in the order of the processes. Each code is compiled from just the bytes that
//! the module's read answered, and each process starts with the code of its module and the ends that the wires give it. The first failure, in
//! the order plan, modules, params, gives the status and the line that are told, with the name of the file that failed.
//! By the clauses `loads` and `ready` of `load_plan`; `Loads` in `specs/Loading.antt`, `IsLoadedAs` and `IsReady` in `specs/Started.antt`.
#![tactic(auto)]

mod codes;
mod ends;
mod fault;
mod loaded;
mod loading;
mod params;
mod programs;
mod reading;
mod role;
#[cfg(test)]
mod testing;

pub use fault::LoadFault;
pub use loaded::Loaded;
pub use loading::load_plan;
pub use role::Role;
