//! The one spelling of names, bytes and calls in scripts and transcripts.
//!
//! Writers append to a buffer: `push_number`, `push_end`, `push_ends`, `push_process`, `push_bytes`, `push_way`, `push_call`.
//! Each ensures that the buffer then ends with the spelling, and that it is as before where there was no memory.
//!
//! Readers take a word or what is left of a line: `read_number`, `read_below`, `read_end`, `read_ends`, `read_process`,
//! `read_bytes`, `read_way`, `read_call`, over `next_word` and `end_of_line`; `next_part` and `end_of_parts` are these for parts that
//! another byte separates. Each finds a value exactly where the bytes spell it, and takes no memory. A number or a text that is
//! too large is told apart from bytes of another form.
//! `is_plain`, `hex_digit` and `digit_value` tell how one byte of a text is spelled.
//! A call takes some 400 bytes, so `read_call_into` puts it into a place that the caller has.
//!
//! # What is proved
//! Each value has one spelling. A writer appends exactly that. A reader finds a value exactly where the bytes spell it. No two byte strings
//! share a text, no two ends a name, no two calls a line.
//! By clauses `ok` and `err` of `push_*`; `exact`, `found` and `only` of the readers; the functions of `law.rt`.
#![tactic(auto)]

mod call;
mod fault;
mod law;
mod name;
mod number;
mod part;
mod text;

pub use call::{push_call, push_way, read_call, read_call_into, read_way};
pub use fault::Fault;
pub use law::{one_call, one_end, one_string_of_bytes};
pub use name::{most_ends, push_end, push_ends, push_process, read_end, read_ends, read_process};
pub use number::{Number, push_number, read_below, read_number};
pub use part::{cut, end_of_line, end_of_parts, is_word, next_part, next_word};
pub use text::{digit_value, hex_digit, is_plain, push_bytes, read_bytes};
