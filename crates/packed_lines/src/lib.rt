//! The lines of one event as a journal keeps them: long ones that spell coded bytes are packed.
//!
//! # What is proved
//! The lines that are written are those of what happened and of its steps, as they are kept, and a line that is kept gives its text again.
//! By the clauses of `write_asked`, `write_took` and `write_steps` of `KeptLines` (`AreLines` in `specs/Lines.antt`), and of `push_line`
//! (`given`); `kept` in `specs/Packed.antt`, and the lemma `given-kept` in `proofs/Packed.antt`.
#![tactic(auto)]

mod kept_lines;
mod pack;
mod piece;
mod unpack;

pub use kept_lines::KeptLines;
pub use unpack::push_line;
