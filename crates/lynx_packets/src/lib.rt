//! The packets that LYNX runtimes send each other in messages, after Scott (TSE 1987), and their bytes in both directions.
#![tactic(auto)]

mod fault;
mod fields;
mod packet;
mod reading;
mod signature;
mod spot;
mod value;
mod values;
mod writing;

pub use fault::{DecodeFault, TooLong};
pub use packet::RtPacket;
pub use reading::decode;
pub use value::RtValue;
pub use writing::encode;
