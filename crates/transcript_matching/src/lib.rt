//! Whether a line of a transcript shows what a kernel gives: a packet, a step of the link service.
#![tactic(auto)]

mod packet;
mod report;
mod same;
mod step;

pub use packet::is_told;
pub use step::is_shown;
