ghost use Rattle.std.specs.Prelude.{◌≡◌, is_some};
ghost use Rattle.service_step.specs.Ends as ends;
ghost use Rattle.service_step.specs.State as state;

use charlotte_calls::{Bytes, EndId, Ends, Pid};

/// Where an end is.
#[derive(Clone, Copy, Debug, PartialEq, Eq)]
pub enum Place {
    /// A process owns it.
    Owned(Pid),
    /// It is carried by the message of this end with this number, which is not taken yet.
    InMessage(EndId, u32),
    Destroyed,
    /// Its link was not made.
    Unmade,
}

impl Place {
    /// Whether the end is of a made link.
    pub fn is_made(self) -> bool
        ensures { result ≡ ends.is_made self }
    {
        !matches!(self, Place::Unmade)
    }

    /// Whether the end was destroyed.
    pub fn is_destroyed(self) -> bool
        ensures { result ≡ ends.is_destroyed self }
    {
        matches!(self, Place::Destroyed)
    }

    /// Whether the end is owned or in a message.
    pub fn is_living(self) -> bool
        ensures { result ≡ ends.is_living self }
    {
        matches!(self, Place::Owned(_) | Place::InMessage(..))
    }

    /// The process that owns the end.
    pub fn owner(self) -> Option<Pid>
        ensures { result ≡ ends.owner self }
    {
        match self {
            Place::Owned(p) => Some(p),
            Place::InMessage(..) | Place::Destroyed | Place::Unmade => None,
        }
    }

    /// Whether this process owns the end.
    pub fn is_owned_by(self, p: Pid) -> bool
        ensures { result ≡ ends.is_owned_by p self }
    {
        match self {
            Place::Owned(owner) => p.0 == owner.0,
            Place::InMessage(..) | Place::Destroyed | Place::Unmade => false,
        }
    }
}

/// What a started send sends.
#[derive(Debug, Drop)]
pub struct Message {
    pub bytes: Bytes,
    /// The ends that it carries, in their order.
    pub carried: Ends,
}

impl Message {
    /// An equal message.
    pub fn copy(&self) -> Message
        ensures { result ≡ self.now }
    {
        Message {
            bytes: self.bytes.copy(),
            carried: self.carried.copy(),
        }
    }
}

/// The activity outward on an end: a send. Its message is the one whose number is the end's count of sends, since an end has one
/// started send at a time.
#[derive(Debug, Drop)]
pub enum Outward {
    /// No send.
    Idle,
    /// The send is started.
    Waiting(Message),
    /// The message is on its way to a receive, and can't be taken back.
    Matched(Message),
    /// The message was taken, and the sender does not know it yet.
    Taken,
    /// The send is over, and its report was not given yet.
    Unreported,
}

impl Outward {
    /// An equal state.
    pub fn copy(&self) -> Outward
        ensures { result ≡ self.now }
    {
        match self {
            Outward::Idle => Outward::Idle,
            Outward::Waiting(message) => Outward::Waiting(message.copy()),
            Outward::Matched(message) => Outward::Matched(message.copy()),
            Outward::Taken => Outward::Taken,
            Outward::Unreported => Outward::Unreported,
        }
    }

    /// Whether there is no send.
    pub fn is_idle(&self) -> bool
        ensures { result ≡ ends.is_idle_outward self.now }
    {
        matches!(self, Outward::Idle)
    }

    /// Whether a send waits for its match.
    pub fn is_waiting(&self) -> bool
        ensures { result ≡ is_some (ends.waiting_message self.now) }
    {
        matches!(self, Outward::Waiting(_))
    }

    /// Whether the message is matched and not taken yet.
    pub fn is_matched(&self) -> bool
        ensures { result ≡ is_some (ends.matched_message self.now) }
    {
        matches!(self, Outward::Matched(_))
    }

    /// Whether the message was taken.
    pub fn is_taken(&self) -> bool
        ensures { result ≡ ends.is_taken self.now }
    {
        matches!(self, Outward::Taken)
    }

    /// Whether the send is started and not over.
    pub fn is_started(&self) -> bool
        ensures { result ≡ ends.is_started_outward self.now }
    {
        matches!(
            self,
            Outward::Waiting(_) | Outward::Matched(_) | Outward::Taken
        )
    }
}

/// The activity inward on an end: a receive.
#[derive(Clone, Copy, Debug, PartialEq, Eq)]
pub enum Inward {
    /// No receive.
    Idle,
    /// The receive is started.
    Posted,
    /// The receive was taken back by a Cancel that is not answered yet.
    Withdrawn,
    /// The message with this number of the opposite end is on its way.
    Matched(u32),
    /// The receive is over, and its report was not given yet.
    Unreported,
}

impl Inward {
    /// Whether there is no receive.
    pub fn is_idle(self) -> bool
        ensures { result ≡ ends.is_idle_inward self }
    {
        matches!(self, Inward::Idle)
    }

    /// Whether the receive waits for a message.
    pub fn is_posted(self) -> bool
        ensures { result ≡ ends.is_posted self }
    {
        matches!(self, Inward::Posted)
    }

    /// Whether the receive was taken back.
    pub fn is_withdrawn(self) -> bool
        ensures { result ≡ ends.is_withdrawn self }
    {
        matches!(self, Inward::Withdrawn)
    }

    /// Whether some message is on its way.
    pub fn is_matched(self) -> bool
        ensures { result ≡ ends.is_matched_inward self }
    {
        matches!(self, Inward::Matched(_))
    }

    /// Whether the message with this number is on its way.
    pub fn is_matched_with(self, n: u32) -> bool
        ensures { result ≡ ends.is_matched_with n self }
    {
        match self {
            Inward::Matched(matched) => matched == n,
            Inward::Idle | Inward::Posted | Inward::Withdrawn | Inward::Unreported => false,
        }
    }

    /// Whether the receive is started and not over.
    pub fn is_started(self) -> bool
        ensures { result ≡ ends.is_started_inward self }
    {
        matches!(
            self,
            Inward::Posted | Inward::Withdrawn | Inward::Matched(_)
        )
    }
}

/// What the service knows of an end.
#[derive(Debug, Drop)]
pub struct End {
    pub place: Place,
    pub outward: Outward,
    pub inward: Inward,
    /// How many sends were started on it.
    pub sent: u32,
    /// The death of its link was noticed at it: its opposite was destroyed, and the news has come.
    pub noticed: bool,
}

impl End {
    /// An end that nothing happened to.
    pub fn fresh(place: Place) -> End
        ensures { result ≡ ends.fresh place }
    {
        End {
            place,
            outward: Outward::Idle,
            inward: Inward::Idle,
            sent: 0,
            noticed: false,
        }
    }

    /// An equal end.
    pub fn copy(&self) -> End
        ensures { result ≡ self.now }
    {
        End {
            place: self.place,
            outward: self.outward.copy(),
            inward: self.inward,
            sent: self.sent,
            noticed: self.noticed,
        }
    }

    /// Whether no activity is started or unreported.
    pub fn is_idle(&self) -> bool
        ensures { result ≡ ends.is_idle self.now }
    {
        self.outward.is_idle() && self.inward.is_idle()
    }

    /// Whether an activity is started.
    pub fn is_active(&self) -> bool
        ensures { result ≡ ends.is_active self.now }
    {
        self.outward.is_started() || self.inward.is_started()
    }
}

/// What a process is doing.
#[derive(Clone, Copy, Debug, PartialEq, Eq)]
pub enum Phase {
    /// It may make a call.
    Running,
    /// It waits for a report.
    Waiting,
    /// It waits for the answer to its Cancel of the receive on this end.
    Cancelling(EndId),
    Ended,
}

impl Phase {
    /// Whether the process may make a call.
    pub fn is_running(self) -> bool
        ensures { result ≡ state.is_running self }
    {
        matches!(self, Phase::Running)
    }

    /// Whether the process waits for a report.
    pub fn is_waiting(self) -> bool
        ensures { result ≡ state.is_waiting self }
    {
        matches!(self, Phase::Waiting)
    }

    /// Whether the process waits for the answer to its Cancel of the receive on this end.
    #[tactic(auto, unfolding(crate::specs::Ends::end_eq))]
    pub fn is_cancelling(self, e: EndId) -> bool
        ensures { result ≡ state.is_cancelling e self }
    {
        match self {
            Phase::Cancelling(on) => e == on,
            Phase::Running | Phase::Waiting | Phase::Ended => false,
        }
    }
}
