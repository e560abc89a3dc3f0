//! In each world of a run packets go between kernels that exist and name no others, and no stamp is greater than the number of events. The
//! law alone, on plain worlds.
#![tactic(auto)]

mod law;

pub use law::sent_within;
