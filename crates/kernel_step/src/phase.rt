use charlotte_calls::EndId;

/// What a process is doing.
#[derive(Clone, Copy, Debug, PartialEq, Eq)]
pub enum Phase {
    Running,
    /// It is in a Wait whose answer does not stand.
    Waiting,
    /// It is in a Cancel of a receive on this end whose answer does not stand.
    Cancelling(EndId),
    Exited,
}
