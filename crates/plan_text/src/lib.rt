//! Plans as texts: which kernels there are, which process runs which file, which processes move, and which wires there are.
//!
//! A plan has the header of a script, in which each process line goes on with what the process is. What the two have in common is read by
//! `lynx_plan`.
//!
//! # What is proved
//! What `read_plan` answers, the line and rule of a refusal too, is a stated function of the bytes. A plan that it gives is spelled by these
//! bytes, and its setting is valid. What is spelled as a plan is read so, and so each text spells at most one plan.
//! By clauses `exact`, `found`, `valid` and `only` of `read_plan`; the law `one_plan`; `plan_of` in `specs/`.
#![tactic(auto)]

mod carriers;
mod draft;
mod form;
mod law;
mod plan;
mod read;
mod rules;

pub use law::one_plan;
pub use plan::{Hosting, Name, Plan};
pub use read::read_plan;
