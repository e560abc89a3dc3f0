//! The lines of a transcript, as definitions; how a run ended, and what a line of a script did not do.
//!
//! The writers of the lines stand in `journal_text`, and their readers in `transcript_forms` and `transcript_reader`: none of them needs
//! the others.
//!
//! # What is proved
//! Each line has one definition, and a text is the transcript of a setting, entries, notes and an end, or it is none. A cause of refusal
//! has the name of its definition, and the numbers of the value of an end are those that its text has behind the end.
//! By `transcript_lines` in `specs/Transcript.antt`; `IsTranscript` in `specs/TranscriptText.antt`; the clauses of `cause_name` and
//! `value_fields`.
#![tactic(auto)]

mod cause;
mod last;
mod value;

pub use cause::cause_name;
pub use last::{Last, ScriptNote};
pub use value::value_fields;
