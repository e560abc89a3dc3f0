/// What a line of a script did not do.
#[derive(Clone, Copy, Debug, PartialEq, Eq)]
pub struct ScriptNote {
    /// The script's line, from 1.
    pub line: u32,
    /// The process of the line was waiting; else there was no packet to take.
    pub waits: bool,
}

/// How a run ended.
#[derive(Clone, Copy, Debug, PartialEq, Eq)]
pub enum Last {
    /// Nothing is under way and nothing can go on.
    Quiet,
    /// A script ended with a packet under way.
    Unsettled,
    /// This kernel has used its turns.
    Spent(u8),
}
