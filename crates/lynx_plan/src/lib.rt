//! Scripts as texts: which kernels, processes and wires there are, and which calls are made in which order.
//!
//! # What is proved
//! What `read_script` answers, the line and rule of a refusal too, is a stated function of the bytes. A script that it gives is spelled by
//! these bytes, its setting is valid, the numbers of its lines rise, and seven times their number is at most one more than the bytes. What
//! is spelled as a script is read so, and so each text spells at most one script.
//! The script that `make_script` gives is a stated function of the seed, and can be performed as one that was read.
//! By clauses `exact`, `found`, `valid`, `rising`, `few` and `only` of `read_script`; the law `one_script`; `script_of` in `specs/`; the
//! clauses of `make_script`, and `script_of_seed` there.
#![tactic(auto)]

mod compact;
mod draft;
mod draws;
mod fault;
mod form;
mod law;
mod meaning;
mod read;
mod rule;
mod rules;
mod script;
mod seeded;
mod stage;

pub use compact::{CompactScriptCall, StoredScriptCall};
pub use draft::Draft;
pub use fault::PlanFault;
pub use form::{Form, Lead, led_form, placed_process, read_lead};
pub use law::one_script;
pub use meaning::Meaning;
pub use read::{first_line, read_script, skipped};
pub use rule::Rule;
pub use rules::{below, judge, known};
pub use script::{Script, ScriptCall, ScriptLine};
pub use seeded::make_script;
pub use stage::Stage;
