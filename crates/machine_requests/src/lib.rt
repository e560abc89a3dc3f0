//! Which requests are open in a thread that stands, as a function of the turns; what a run, an outcome and a new thread do to them; and that
//! what a run asks for is asked where they are open. Definitions and laws.
#![tactic(auto)]

mod law;

pub use law::{
    at_the_start_none_is_open, beats_ask_of_the_code, beats_keep_what_is_open,
    given_changes_what_is_open, new_threads_open_their_own, open_amid_an_instruction,
};
