//! Which transcripts are valid, and which line may follow in one: definitions and lemmas. A `Draft` is what the lines of a header have told.
//!
//! # What is proved
//! Each line adds to a `Draft` just what it tells of the setting.
//! By the clauses of `Draft`; `tells` in `specs/Header.antt`.
#![tactic(auto)]

mod draft;

pub use draft::Draft;
