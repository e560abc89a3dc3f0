//! What a process asked in its last step.

/// What a process asked, and for what. Threads and ends are named by their numbers.
#[derive(Clone, Copy)]
pub(crate) enum Asked {
    /// Nothing: it is at its start, or after a pause.
    Nothing,
    Make(u8),
    Print(u8),
    Destroy,
    Send(u32),
    Receive(u32),
    Cancel(u32),
    Wait,
    Exit,
}
