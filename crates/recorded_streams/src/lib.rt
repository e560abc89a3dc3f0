//! Law: in the entries of a run of kernels each direction of each link is a FIFO channel.
#![tactic(auto)]

mod law;

pub use law::recorded_links_are_fifo;
