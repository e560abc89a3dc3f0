//! Every run of the link service is lawful: what each step does to the send of an end and to the reports, and what the steps so far
//! tell of both. A law, and the lemmas that it stands on.
//!
//! # What is proved
//! Every service run of a valid setting is lawful, in all four clauses: each living end is held once, a send completes once its message was
//! taken once, the numbers on each end rise, and a Cancel comes too late only after a match. It is a fact about the steps of the service,
//! whatever makes them; that what kernels do is such a run is not said here.
//! By the law `every_service_run_is_lawful` (`IsLawful` of `service_step`).
#![tactic(auto)]

mod law;

pub use law::every_service_run_is_lawful;
