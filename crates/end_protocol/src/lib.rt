//! The protocol of one end of a LYNX process, after Scott (TSE 1987): what the process keeps for an end that it holds, and what each thing that
//! is asked, heard or answered on the end does with it. No machine, no kernel.
#![tactic(auto)]

mod asking;
mod copies;
mod falling;
mod going;
mod hearing;
mod kept;
mod line;
mod messages;
mod reading;
mod roll;
mod wanting;

pub use falling::Fallen;
pub use going::Due;
pub use hearing::Heard;
pub use kept::{Accept, Binding, Forbade, Kept, Receiving, Response, Sending, Taker, Wanted};
pub use line::Line;
pub use messages::{Connect, Message};
pub use roll::Roll;
