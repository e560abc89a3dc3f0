//! The ends of all links: what each is, what the steps of the link service do with them, and the causes for which a call on an
//! end is refused.
//!
//! # What is proved
//! What an end is. Each writer does to the table of all ends exactly what the word of a step does, and does not allocate, but for `add`.
//! The first cause of a Destroy, Send, Receive and Cancel that holds, in the order of the causes.
//! By clauses of `look`, `add`, `destroy` to `return_message`; of `destroy_cause`, `send_cause`, `receive_cause`, `cancel_cause`.
#![tactic(auto)]

mod causes;
mod conditions;
mod effects;
mod kept;
mod letter;
mod links;
mod row;

pub use causes::{
    cancel_cause, destroy_cause, receive_cause, receive_cause_at, send_cause, send_cause_at,
};
pub use conditions::{is_cancellable, is_new_pair};
pub use kept::{KeptEnd, no_ends};
pub use letter::Letter;
pub use links::Links;
