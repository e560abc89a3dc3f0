//! The invariant of a run of LYNX processes on kernels: how the service, the processes and each link by itself stand to each other. Definitions alone.
//!
//! `Stands` in `specs/Invariant.antt`: how far the call of each process has come is what the entries told of it; each end is in one place at most, of the process
//! that owns it; and each link has a course of events to where it stands. `specs/Owners.antt` has a process between two steps, `specs/Hearing.antt` what steps of the
//! service tell of it, `specs/Steps.antt` what is asked of steps.
#![tactic(auto)]
