//! The forms of the lines of a transcript, as they are told to people: which may stand in a place, and how each is written.
//!
//! # What is proved
//! A form is told of a place exactly where some line of this form may stand there, and these are told in their order, each as it is spelled. Of a line
//! of a bad form that begins as one that may stand there, with its name, just this form is told, with the fields behind that name.
//! By the clause of `expected_forms`, `expected_texts` in `specs/Texts.antt`; the law `forms_that_stand`, `MayStand` in `specs/Forms.antt`.
#![tactic(auto)]

mod fields;
mod form;
mod law;
mod standing;
mod word;

pub use form::Form;
pub use law::forms_that_stand;
pub use standing::expected_forms;
