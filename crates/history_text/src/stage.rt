/// Which lines may follow.
#[derive(Clone, Copy)]
pub(crate) enum Stage {
    /// No line was read that is not skipped.
    Start,
    /// The line stood that says what the text is: processes, wires or steps.
    Processes,
    /// A wire stood: wires or steps.
    Wires,
    /// A step stood: steps.
    Steps,
}

/// Which kind of line a first word begins.
#[derive(Clone, Copy)]
pub(crate) enum Lead {
    History,
    Process,
    Wire,
    Match,
    Take,
    Complete,
    Withdraw,
    Free,
    Notice,
    Back,
    Other,
}

/// Where the name of a link stands.
#[derive(Clone, Copy)]
pub(crate) enum Scope {
    /// In a step: the link was told.
    Step,
    /// In a call that was refused: the name may be one that no link has.
    Call,
}
