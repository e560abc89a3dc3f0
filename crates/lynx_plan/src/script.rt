use crate::compact::CompactScriptCall;
use charlotte_calls::{Call, Items, Pid, Setting};

/// A script: its setting, and its calls in order.
#[derive(Debug, Drop)]
pub struct Script {
    pub setting: Setting,
    pub lines: Items<ScriptLine>,
}

/// One line of a script that is a call, and its number in the file, from 1.
#[derive(Debug, Drop)]
pub struct ScriptLine {
    pub line: u32,
    pub what: CompactScriptCall,
}

/// What a line of a script asks.
#[derive(Debug, Drop)]
pub enum ScriptCall {
    /// A process makes a call.
    Ask(Pid, Call),
    /// Kernel `to` takes the first packet from kernel `from`.
    Take { from: u8, to: u8 },
    /// Packets are taken until none is left.
    Settle,
}
