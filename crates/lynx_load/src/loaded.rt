//! What is loaded.

use crate::role::Role;
use charlotte_calls::Setting;

/// A plan that was loaded.
#[derive(Drop)]
pub struct Loaded {
    pub setting: Setting,
    /// The program of each process, in their order, before its first step.
    pub programs: Vec<Role>,
}
