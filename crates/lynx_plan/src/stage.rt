/// Which lines may follow.
#[derive(Clone, Copy, Debug, PartialEq, Eq)]
pub enum Stage {
    /// No line was read that is not skipped.
    Start,
    /// The `version` line stood, and the `kernels` line must follow.
    Named,
    /// The `kernels` line stood: processes, wires or calls.
    Processes,
    /// A wire stood: wires or calls.
    Wires,
    /// A call stood: calls.
    Calls,
}
