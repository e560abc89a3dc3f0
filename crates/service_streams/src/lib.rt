//! Streams: each direction of each link is a FIFO channel in every run of the link service. A law, and the lemmas that it stands on.
//!
//! # What is proved
//! Of each end of a link, in every service run of a valid setting: the messages that are taken at its opposite are messages that were sent
//! on it, with their bytes and ends, in the order of the sends and each once. They are a prefix of those whose send was not cancelled;
//! while neither end is destroyed only the one that is outstanding is missing. The reports Done of receives that the owners of the opposite
//! were given tell of just the messages taken, in order, but perhaps of the last, whose report is pending while that end has an owner.
//! By the law `links_are_fifo` (`IsFifo` in `specs/Streams.antt`).
#![tactic(auto)]

mod law;

pub use law::links_are_fifo;
