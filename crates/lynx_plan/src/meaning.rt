use crate::compact::CompactScriptCall;
use charlotte_calls::Pid;

/// What a line says that fails no rule.
#[derive(Debug, Drop)]
pub enum Meaning {
    Version(u8),
    Kernels(u8),
    /// The kernel of the next process.
    Process(u8),
    Wire(Pid, Pid),
    Line(CompactScriptCall),
}
