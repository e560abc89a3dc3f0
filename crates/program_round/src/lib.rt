//! The programs of a kernel, in the order in which they take turns, and what each is doing; a list of calls as a program.
//!
//! # What is proved
//! The next program is the first in round order that has not ended and awaits no answer, and none is found only where there is none. A step
//! is just that of the program at its place, which keeps its version; no other program changes, and the round goes on behind it. An answer
//! stands to just the processes that are told. A list of calls asks them in order, ends after the last and after an Exit, and is of version 1
//! exactly where no Send encloses two or more ends. The command `run` uses it.
//! By clauses of `Programs::ready`, `Programs::step`, `Programs::hear` and `CallList::of`; `IsNextToGo`, `NoneCanGo`, `all_answered` in
//! `specs/Doings.antt`, `listed_step` in `specs/Listed.antt`.
#![tactic(auto)]

mod call_list;
mod doing;
mod programs;

pub use call_list::CallList;
pub use doing::Doing;
pub use programs::Programs;
