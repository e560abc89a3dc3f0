//! Histories that are checked while they are told: a line at a time, each with its answer.
//!
//! # What is proved
//! Once the line stood that says what the text is, a line is followed exactly where the text of the lines so far is one run of the link service, as
//! `history_run::follow` answers. Else its answer is a fault that `follow` answers of every text that begins with these lines. Once a line was refused, each
//! later one gets the same answer and changes nothing.
//! By the clauses of `line`; `HasRead`, `Reads`, `IsAnswerOf` in `specs/`.
#![tactic(auto)]

mod checker;

pub use checker::Checker;
