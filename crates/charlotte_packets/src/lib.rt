//! Packets between kernels, the one value of a living end, which a packet may carry, and what an event of a kernel gives to the outside.
//!
//! # What is proved
//! The one value of a living end is made by `pair`, and read and set by its fields; that it is spent once is a rule of the language. A cargo
//! is its list, and so are the packets of an event. `picture` has the fields of a packet, `addressed` is exact.
//! By the `ensures` of each call; `packet_picture`, `is_addressed`, `new_end` in `specs/`.
#![tactic(auto)]

mod brief;
mod cargo;
mod listed;
mod mark;
mod moving;
mod packet;
mod picture;
mod work;

pub use brief::BriefPackets;
pub use cargo::Cargo;
pub use listed::{PacketList, Unsent};
pub use mark::Mark;
pub use moving::Moving;
pub use packet::{Packet, What};
pub use picture::{CargoPicture, MovingPicture, Picture, PictureWhat};
pub use work::{Effect, Room, Work};
