//! Modules from their sources: a source is read into the tree of its module, or its first fault is told with its place.
//!
//! Lines and columns are counted only once there is a fault, from the start of the source.
#![tactic(auto)]

mod checking;
mod fault;
mod law;
mod place;
mod reading;

pub use checking::check_source;
pub use fault::SourceFault;
pub use law::{one_check, one_reading, printed_is_read};
pub use place::Place;
pub use reading::{Reading, read_module, read_source, token_place};
