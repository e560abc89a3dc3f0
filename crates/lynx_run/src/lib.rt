//! The commands of the program `lynx`.
//!
//! # What is proved
//! Of `drive`: with status 0, standard output got the lines of the transcript of the script that the file's bytes spell, each with one put; and
//! what the entries of that transcript show is one lawful run of the link service, for whose state the kernels stand after each entry. Of
//! `check`: with status 0 it got the line `ok` with the name of the module that the bytes are read as, which breaks no typing rule. Of `code`:
//! with status 0 it got the lines of the listing of the code of that module, each with one put, and that has at most 65,535 instructions. Of
//! `audit`: with status 0 it got the line `yes`, and the bytes are the transcript of a run; what `drive` or `run` puts is such a text. Of `run`:
//! with status 0, or that of used turns, it got the lines of the transcript of one run of the programs of the plan, each with the code of its
//! module and the ends that the wires give it (`IsRunOfPlan`). What the entries of that transcript show is one lawful run of the link service,
//! and on each link requests and replies are in order (`links`); with status 0 it ends quiet, else a kernel used all its turns. Else the first
//! failure, in the order file, text, work, for `run` plan, modules, params, gives the status and the one line on standard error, with the first
//! line and least rule of a script or plan that is refused, the place of a module's first fault, for `code` and `run` also that its code is too
//! long, or the line at which a transcript is not that of a run. The bytes are those that the command's reads answered, of real files too. Of
//! `bench`: it reads nothing, and with status 0 it got the summary of its seed, which is one text. Every other command fails by its name, and
//! reads nothing.
//! By clauses of `lynx`, `drive_file`, `check_file`, `code_file`, `audit_file`, `run_file` and `bench_seed`; `Answers`, `Drives`, `Checks`, `Codes`,
//! `Audits`, `RunsPlan`, `Benches` in `specs/`; `lawful` of `IsDriven`; the laws `driven_is_audited`, `ran_is_audited`, `driven_is_one_text`,
//! `benched_is_one_text`, `each_command_is_complete` and `each_run_is_complete`.
#![tactic(auto)]

mod audit;
mod bench;
mod check;
mod code;
mod drive;
mod law;
mod run;
mod top;

pub use audit::{AuditCommand, audit_file};
pub use bench::bench_seed;
pub use check::{CheckCommand, check_file};
pub use code::{CodeCommand, code_file};
pub use drive::{DriveCommand, drive_file};
pub use law::{
    benched_is_one_text, driven_is_audited, driven_is_one_text, each_command_is_complete,
    each_run_is_complete, ran_is_audited,
};
pub use run::{Driver, run_file};
pub use top::{fail, lynx};
