//! What the kernels and the link service beside a transcript give in the place of a line, and which of what they keep bears on it.
//!
//! The kernels are any that follow a transcript (`Kernels`), so that nothing here waits for their proof.
//!
//! # What is proved
//! What the kernels and the service keep, and what each line makes of it, are definitions, which a `Kernels` follows. The items of what is kept
//! that bear on a line are those of the definition, each once and in its order, and each is written as the definition says, of just what is kept.
//! The one line that the kernels give in the place of a line is that of the step that is due, or of the call or the packet with its right stamp.
//! The calls and the packets that may come next are those of the definition, in its order.
//! By the clauses of `Kernels` (`Follows` in `specs/Kept.antt`), of `items_that_bear` (`bearing` in `specs/Bearing.antt`), of `kept_items`
//! (`kept_text` in `specs/Texts.antt`), and of `given_line` and `add_next_entries` (`given` and `next_entries` in `specs/Given.antt`).
#![tactic(auto)]

mod bearing;
mod ends;
mod given;
mod kept;
mod kernels;
mod lines;
mod naming;
mod texts;

pub use bearing::{Before, Item, items_that_bear};
pub use given::{add_next_entries, given_line};
pub use kept::kept_items;
pub use kernels::{Doing, Kernels};
