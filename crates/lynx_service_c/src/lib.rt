//! The history checker as a C library: a history is told a line at a time while a system runs, and each line has its answer.
//!
//! `lynx_service_new` makes a service and `lynx_service_free` frees it, `lynx_service_line` tells it the next line, `lynx_service_why` puts the words of a
//! refusal, `lynx_service_place` tells who holds an end.
//!
//! # What is proved
//! Of the memory that C gives, each call reads and writes no more than is said of it, and gives it back; a null pointer is answered, and then nothing was
//! done, but that a holder of no name is put where there is room for one. A line gets the status of `Checker::line`: once the line stood that says what the
//! text is, 0 exactly where the lines so far are one run of the link service, and else that of a fault of every text that begins with them; want of memory
//! comes at any line. Once a line was refused, each later one gets the same status and changes nothing. An end is where the state after the lines so far has
//! it, by the names of the header.
//! By the clauses of the five exports; `IsTold`, `IsWhy`, `IsHolder`, and what lies at each pointer, in `specs/`. The words of a refusal, and the name of the
//! link that stands in that of the end which sent an end, are tested alone. No clause says that an end is told as the lines before a refused one left it.
//!
//! # What C owes
//! A pointer that is not null leads to what is said of it: a service to one of `lynx_service_new` that was not freed, bytes to as many as are said, fewer
//! than 2 ^ 63, which nobody else writes during the call, a holder to room for one, apart from these. A service is used by one call at a time.
#![tactic(auto)]

mod exports;
mod holder;
mod loose;
mod service;
mod status;
#[cfg(test)]
mod tests;
