//! What a kernel starts with: the table of the ends that the links of its setting have there, and how many links it has made.
//!
//! # What is proved
//! The table and the number of links with which each kernel of a valid setting starts are those of the definitions; the table is sound, and
//! its ends are idle.
//! By clauses of `wire_links`; `HasWired` in `specs/Wired.antt`.
#![tactic(auto)]

mod start;

pub use start::wire_links;
