//! In each run of LYNX processes on kernels no end is lost, as long as neither end of its link is destroyed. Lemmas alone.
//!
//! # What is proved
//! `AreFollowedSo` in `specs/Stopped.antt`: of each link of which no end is destroyed there is a course of events, with the deeds of the run, in which no end is lost.
//! Where a process is to destroy an end that it held, the end stops: it stands as it was kept then, and what comes stays coming. Each end that it had kept is with that
//! process, or was destroyed, since such a process asks nothing but to destroy ends. It is so at the start, each step of a process keeps it (`step-so` in
//! `proofs/ProcessSteps.antt`), and so does each step of the service (`proofs/ServiceSteps.antt`, `CallSteps.antt`), and each entry (`proofs/Along.antt`).
#![tactic(auto)]
