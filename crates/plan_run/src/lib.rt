//! The programs of a setting are run on its kernels, one worker each or all by one thread, and the transcript is given.
//!
//! # What is proved
//! The lines are those of the transcript of the entries of one run of the world, in the order of a merge; it is one lawful run of the link
//! service, and where no packet is under way at its end, no kernel keeps a trace of a link that moved on. The program of each process, as it was
//! given, replays the entries of its kernel: each call in them is the one that it asked, and it was given what they tell. Each entry used a turn
//! of its kernel. The run ends quiet exactly where no letter is under way and each program has ended or waits. Else it ends with the least kernel
//! whose packets taken and steps of programs are the turns that it may use, and the last line tells which. So a run in which no kernel used all
//! its turns is quiet. Not promised: which order comes, that one thread makes the same events each time, and that workers run at the same time;
//! that they run just where they are asked for is shown by a test of `worker_tests`.
//! By the clause of `run_programs` (`IsRunOf` in `specs/Run.antt`) and the law `run_is_complete`.
#![tactic(auto)]

mod law;
mod nodes;
mod run;

pub use law::run_is_complete;
pub use run::{How, Ran, run_programs};
