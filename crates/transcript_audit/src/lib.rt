//! Audits: whether a text is the transcript of a run of kernels, and else the line at which it is not.
//!
//! # What is proved
//! `audit` accepts a text, with its last line, exactly where it is the transcript of a run of kernels, and then its service lines are one
//! lawful run of the link service. Else it names the first line that no transcript has in its place, and where each line can stand where it
//! stands, the first one that differs: the lines before it begin the transcript of some run, and with it they begin none. A text is
//! accepted or rejected, and in one way. The transcript of any run is accepted, and what is accepted is the transcript of just that run.
//! By clauses `accepted` and `fault` of `audit`; `IsAudited`, `IsRejected` in `specs/Audit.antt`; the laws `one_audit`, `record_is_audited`
//! and `audited_is_transcript`.
#![tactic(auto)]

mod auditing;
mod fault;
mod halt;
mod law;

pub use auditing::audit;
pub use fault::AuditFault;
pub use law::{audited_is_transcript, one_audit, record_is_audited};
