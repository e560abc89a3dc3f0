ghost use Rattle.std.specs.Prelude.{◌≡◌};

use crate::{EndId, Outcome, Pid, Short, Way};

/// The bytes of a kernel message or of a print, at most 256.
pub type Bytes = Short<u8, 256>;

/// The ends that a message encloses, in order, at most eight.
pub type Ends = Short<EndId, 8>;

/// What a process asks of its kernel. The link calls and their names are Charlotte's (Artsy, Chang and Finkel, 1987).
#[derive(Debug, Drop)]
pub enum Call {
    /// A new link, both of whose ends the process owns.
    Make,
    /// Destroys an end, and with it the link.
    Destroy {
        on: EndId,
    },
    /// Starts to send these bytes with these ends.
    Send {
        on: EndId,
        bytes: Bytes,
        enclose: Ends,
    },
    /// Starts to receive one message.
    Receive {
        on: EndId,
    },
    /// Takes back the send or receive that is started on an end.
    Cancel {
        on: EndId,
        way: Way,
    },
    /// Waits for the oldest report.
    Wait,
    /// Notes these bytes in the journal.
    Print {
        bytes: Bytes,
    },
    /// Ends the process, and destroys its ends.
    Exit,
}

impl Call {
    ghost use Rattle.charlotte_calls.specs.Program.{causes, is_cause_of, is_answer_to};

    /// An equal call.
    pub fn copy(&self) -> Call
        ensures { result ≡ self.now }
    {
        match self {
            Call::Make => Call::Make,
            &Call::Destroy { on } => Call::Destroy { on },
            Call::Send { on, bytes, enclose } => Call::Send {
                on: *on,
                bytes: bytes.copy(),
                enclose: enclose.copy(),
            },
            &Call::Receive { on } => Call::Receive { on },
            &Call::Cancel { on, way } => Call::Cancel { on, way },
            Call::Wait => Call::Wait,
            Call::Print { bytes } => Call::Print {
                bytes: bytes.copy(),
            },
            Call::Exit => Call::Exit,
        }
    }

    /// Whether the call can have this answer: one that is named for it, or a refusal for a cause that is.
    pub fn fits(&self, answer: &Answer) -> bool
        ensures { result ≡ is_answer_to self.now answer.now }
    {
        match (self, answer) {
            (_, Answer::Refused(cause)) => self.can_be_refused(*cause),
            (Call::Make, Answer::Made(..)) => true,
            (Call::Make, _) => false,
            (Call::Wait, Answer::Reported(_)) => true,
            (Call::Wait, _) => false,
            (_, Answer::Ok) => true,
            (_, _) => false,
        }
    }

    fn can_be_refused(&self, cause: Cause) -> bool
        ensures { result ≡ is_cause_of self.now cause }
    {
        let number = cause.number();
        self.causes().iter().any(|named| named.number() == number)
    }

    /// The causes for which the call can be refused.
    fn causes(&self) -> &'static [Cause]
        ensures { result.now ≡ causes self.now }
    {
        match self {
            Call::Make => &[Cause::LinksFull],
            Call::Destroy { .. } => &[Cause::NoEnd],
            Call::Send { .. } => &[
                Cause::NoEnd,
                Cause::Busy,
                Cause::Dead,
                Cause::EncloseNoEnd,
                Cause::EncloseBusy,
                Cause::EncloseSame,
                Cause::EncloseTwice,
            ],
            Call::Receive { .. } => &[Cause::NoEnd, Cause::Busy, Cause::Dead],
            Call::Cancel { .. } => &[Cause::NoEnd, Cause::Dead, Cause::Late, Cause::NoActivity],
            Call::Wait => &[Cause::NoActivity],
            Call::Print { .. } | Call::Exit => &[],
        }
    }
}

/// Why a call is refused. The causes of a call are tested in the order of their numbers.
#[derive(Clone, Copy, Debug, PartialEq, Eq, Hash)]
pub enum Cause {
    /// The process does not own the end.
    NoEnd,
    /// The activity that way on the end is started, or is over and not yet reported.
    Busy,
    /// The death of the link was noticed at the end.
    Dead,
    /// The process does not own an end to be enclosed.
    EncloseNoEnd,
    /// An activity on an end to be enclosed is started or not yet reported.
    EncloseBusy,
    /// An end to be enclosed is an end of the very link that is to carry it.
    EncloseSame,
    /// The message of the activity was already matched or taken.
    Late,
    /// There is no activity to cancel or to wait for.
    NoActivity,
    /// The kernel has made 65,536 links.
    LinksFull,
    /// An end is named twice among those to be enclosed.
    EncloseTwice,
}

impl Cause {
    ghost use Rattle.charlotte_calls.specs.Calls.{cause_number};

    /// The number of the cause, from 1 to 10, by which the causes of a call are ordered.
    pub fn number(self) -> u8
        ensures { result ≡ cause_number self }
    {
        match self {
            Cause::NoEnd => 1,
            Cause::Busy => 2,
            Cause::Dead => 3,
            Cause::EncloseNoEnd => 4,
            Cause::EncloseBusy => 5,
            Cause::EncloseSame => 6,
            Cause::Late => 7,
            Cause::NoActivity => 8,
            Cause::LinksFull => 9,
            Cause::EncloseTwice => 10,
        }
    }
}

/// What Wait tells of an activity that is over.
#[derive(Debug, Drop)]
pub struct Report {
    pub on: EndId,
    pub way: Way,
    pub outcome: Outcome,
    /// The bytes of a message that was taken, else none.
    pub bytes: Bytes,
    /// The ends that were received, or those returned with the outcome `Destroyed`.
    pub enclosed: Ends,
}

impl Report {
    /// An equal report.
    pub fn copy(&self) -> Report
        ensures { result ≡ self.now }
    {
        Report {
            on: self.on,
            way: self.way,
            outcome: self.outcome,
            bytes: self.bytes.copy(),
            enclosed: self.enclosed.copy(),
        }
    }
}

/// What a kernel answers to a call.
#[derive(Debug, Drop)]
pub enum Answer {
    Ok,
    Made(EndId, EndId),
    Reported(Report),
    Refused(Cause),
}

impl Answer {
    /// An equal answer.
    pub fn copy(&self) -> Answer
        ensures { result ≡ self.now }
    {
        match self {
            Answer::Ok => Answer::Ok,
            Answer::Made(a, b) => Answer::Made(*a, *b),
            Answer::Reported(report) => Answer::Reported(report.copy()),
            Answer::Refused(cause) => Answer::Refused(*cause),
        }
    }
}

/// One step of the plain link service, which says what an event of the kernels means.
#[derive(Debug, Drop)]
pub enum ServiceStep {
    Make {
        p: Pid,
        a: EndId,
        b: EndId,
    },
    Refuse {
        p: Pid,
        call: Call,
        cause: Cause,
    },
    Destroy {
        on: EndId,
    },
    Send {
        on: EndId,
        n: u32,
        bytes: Bytes,
        enclose: Ends,
    },
    Receive {
        on: EndId,
    },
    Cancel {
        on: EndId,
        way: Way,
    },
    Wait {
        p: Pid,
    },
    Report {
        p: Pid,
        report: Report,
    },
    Exit {
        p: Pid,
    },
    /// A started send and a posted receive come together.
    Match {
        on: EndId,
        n: u32,
    },
    /// The matched message reaches its receiver; `late` where that answered its Cancel.
    Take {
        on: EndId,
        n: u32,
        p: Pid,
        late: bool,
    },
    /// The sender learns that its message was taken.
    Complete {
        on: EndId,
        n: u32,
    },
    /// A receive is taken back at the opposite end.
    Withdraw {
        on: EndId,
    },
    /// The Cancel of a receive is answered.
    Free {
        on: EndId,
    },
    /// The death of the link is noticed; `dead` where that answered a Cancel.
    Notice {
        on: EndId,
        dead: bool,
    },
    /// A matched message comes back to its sender; `dead` where that answered a Cancel.
    Back {
        on: EndId,
        n: u32,
        dead: bool,
    },
}

impl ServiceStep {
    /// An equal step.
    pub fn copy(&self) -> ServiceStep
        ensures { result ≡ self.now }
    {
        match self {
            &ServiceStep::Make { p, a, b } => ServiceStep::Make { p, a, b },
            ServiceStep::Refuse { p, call, cause } => ServiceStep::Refuse {
                p: *p,
                call: call.copy(),
                cause: *cause,
            },
            &ServiceStep::Destroy { on } => ServiceStep::Destroy { on },
            ServiceStep::Send {
                on,
                n,
                bytes,
                enclose,
            } => ServiceStep::Send {
                on: *on,
                n: *n,
                bytes: bytes.copy(),
                enclose: enclose.copy(),
            },
            &ServiceStep::Receive { on } => ServiceStep::Receive { on },
            &ServiceStep::Cancel { on, way } => ServiceStep::Cancel { on, way },
            &ServiceStep::Wait { p } => ServiceStep::Wait { p },
            ServiceStep::Report { p, report } => ServiceStep::Report {
                p: *p,
                report: report.copy(),
            },
            &ServiceStep::Exit { p } => ServiceStep::Exit { p },
            &ServiceStep::Match { on, n } => ServiceStep::Match { on, n },
            &ServiceStep::Take { on, n, p, late } => ServiceStep::Take { on, n, p, late },
            &ServiceStep::Complete { on, n } => ServiceStep::Complete { on, n },
            &ServiceStep::Withdraw { on } => ServiceStep::Withdraw { on },
            &ServiceStep::Free { on } => ServiceStep::Free { on },
            &ServiceStep::Notice { on, dead } => ServiceStep::Notice { on, dead },
            &ServiceStep::Back { on, n, dead } => ServiceStep::Back { on, n, dead },
        }
    }
}
