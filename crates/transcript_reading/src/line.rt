use charlotte_calls::{Call, Cause, EndId, Ends, Pid, Report, Way};
use charlotte_packets::Picture;
use transcript_lines::{Last, ScriptNote};

/// One line of a transcript, by its form.
#[derive(Debug, Drop)]
pub enum LineKind {
    /// `transcript 1`.
    First {
        version: u8,
    },
    /// `kernels N`.
    Kernels(u8),
    /// `process I on K`.
    Process {
        p: Pid,
        kernel: u8,
    },
    /// `wire I J`.
    Wire {
        first: Pid,
        second: Pid,
    },
    /// A call of a process at a kernel.
    CallEntry {
        stamp: u64,
        kernel: u8,
        p: Pid,
        call: Call,
    },
    /// A packet that a kernel took from a kernel. Its line shows no stamp of the packet, which is 0 here.
    PacketEntry {
        stamp: u64,
        kernel: u8,
        from: u8,
        picture: Picture,
    },
    /// A service step of the entry above it.
    Service(ServiceLine),
    /// `note LINE nothing`, `note LINE waits`.
    Note(ScriptNote),
    /// The last line.
    End(Last),
}

/// What the line of a service step shows. What it leaves out stands in the line of the entry above it.
#[derive(Debug, Drop)]
pub enum ServiceLine {
    Make {
        a: EndId,
        b: EndId,
    },
    Refuse {
        p: Pid,
        cause: Cause,
    },
    Destroy {
        on: EndId,
    },
    Send {
        on: EndId,
        n: u32,
        enclose: Ends,
    },
    Receive {
        on: EndId,
    },
    Cancel {
        on: EndId,
        way: Way,
    },
    Wait {
        p: Pid,
    },
    Report {
        p: Pid,
        report: Report,
    },
    Exit {
        p: Pid,
    },
    Match {
        on: EndId,
        n: u32,
    },
    Take {
        on: EndId,
        n: u32,
        p: Pid,
        late: bool,
    },
    Complete {
        on: EndId,
        n: u32,
    },
    Withdraw {
        on: EndId,
    },
    Free {
        on: EndId,
    },
    Notice {
        on: EndId,
        dead: bool,
    },
    Back {
        on: EndId,
        n: u32,
        dead: bool,
    },
}
