//! The kernel step: what a kernel does at each call and with each packet, as definitions on plain data,
//! and the small parts of which the actions are made: what reads and keeps an end that is here, and the writers by which
//! the parts of an event add to a `Work`.
//!
//! # What is proved
//! The definition of the whole kernel step: every call with its causes, every packet at every entry, the order of packets, the stamp. The
//! definitions are the statement, not a result: nine worked runs are computed from them (`transcript_record`), and a transcription of them
//! was run beside a second model, written from the rules in another style (docs/DECISIONS.md, "Review"). Proved here are the small parts of
//! which both cores are made.
//! By clauses `part` of `push_packet`, `learn`, `leave`, `hold` and the others, `learned_value` and `news` of `learn_value`.
#![tactic(auto)]

mod bounds;
mod enclosed;
mod ends;
mod news;
mod owners;
mod phase;
mod site;
mod started;
mod trail;
mod writers;

pub use bounds::{
    MOST_ENDS, MOST_FORGETS, MOST_RESENT, PACKETS_OF_BACK, PACKETS_OF_END, PACKETS_OF_NOTICE,
    PACKETS_OF_PARCEL,
};
pub use enclosed::{enclosed_ends, ends_in};
pub use ends::{first_of, hold, keep_inward, keep_sending, keep_waiting, learn_value, leave};
pub use news::{learn, resend_on_news, tell_moved};
pub use owners::{answer, no_bytes, no_ends, report, send_report};
pub use phase::Phase;
pub use site::Site;
pub use started::{is_withdrawing, receiver, sender};
pub use trail::forget;
pub use writers::{push_answer, push_packet, push_report, push_step};
