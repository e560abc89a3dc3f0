//! Histories as texts: what each line of a run of the link service says, which somebody's system wrote with names of its own.
//!
//! The lines of a history are given to a `Draft` one after the other. It knows the names that were told, and gives the step of a line.
//!
//! # What is proved
//! What `Draft::read` makes of a line is a stated function of the lines before it and of its bytes: what it adds to what was said, and the
//! step that it tells, or that it has no form in its place.
//! The setting that a text tells is valid: its header names no process that is not there, and passes no limit.
//! By the clause of `read`; `line_read`, `told_by` in `specs/`; the law `settings_are_valid`.
#![tactic(auto)]

mod acts;
mod calls;
mod draft;
mod ends;
mod header;
mod law;
mod line;
mod meaning;
mod name;
mod reports;
mod stage;
mod steps;
mod words;

pub use draft::Draft;
pub use law::settings_are_valid;
pub use line::LineFault;
pub use meaning::Act;
pub use name::Name;
