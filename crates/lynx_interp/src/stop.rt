//! How a run stops.

use machine_thread::Action;

/// How a run stops.
#[derive(Debug, Drop)]
pub enum Stop {
    /// The fuel is spent, and a thread can go on.
    Spent,
    /// A thread asks for this.
    Act { thread: u8, action: Action },
    /// Threads stand, and none can go on.
    AllBlocked,
    /// No thread stands.
    Finished,
}
