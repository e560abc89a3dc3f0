//! A history of which all steps are one run of the link service is lawful. A law, and the lemma that it stands on.
//!
//! # What is proved
//! Where the steps that a text tells are each allowed in the state that the steps before leave, which is what `follow` of `history_run` accepts, they are
//! the steps of a service run from the text's setting, which is lawful in all four clauses.
//! By the law `an_accepted_history_is_lawful` (`IsRunOf` of `history_run`, `IsLawful` of `service_step`).
#![tactic(auto)]

mod law;

pub use law::an_accepted_history_is_lawful;
