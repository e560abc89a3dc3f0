//! Reading one line of a transcript by its form: what it shows, or that it is no line.
//!
//! `read_kind` takes a line without its line feed, and no memory.
#![tactic(auto)]

mod entry;
mod fields;
mod form;
mod packet;
mod report;
mod step;
mod word;
mod words;

pub use form::read_kind;
