//! What a process keeps of its ends, by their numbers, and of the requests that are open in its threads; and values as they travel. Which call is
//! due is found without a look at all ends.
#![tactic(auto)]

mod board;
mod opened;
mod place;
mod places;
mod roster;
mod sets;
mod values;

pub use opened::{Open, Opened};
pub use places::Places;
pub use values::{later, links_in, pack, unpack};
