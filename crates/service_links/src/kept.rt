ghost use Rattle.std.specs.Prelude.{◌≡◌, [], IsTrue, is_some, option_copied};
ghost use Rattle.charlotte_calls.specs.Causes.{is_late};
ghost use Rattle.service_step.specs.Ends.{carried_by, fresh, is_active, is_idle, is_made, is_idle_outward, is_owned_by, is_started_outward, is_taken, matched_message, outward_activity, owner, waiting_message};
ghost use Rattle.service_links.specs.Kept.{KeepsMade, after, where_made};
ghost use Rattle.service_links.specs.declared.kept.Change.TheVariants.{Sends, Starts, Matches, Dies, Notices, Returns};
ghost use Rattle.service_links.specs.declared.kept.Stage.TheVariants.{Taken};

use crate::letter::Letter;
use charlotte_calls::{Ends, Pid};
use service_step::{Inward, Place};
use std::marker::Model;
use std::mem;

/// How far the send of an end has come, with its message as it is kept.
#[derive(Debug, Drop)]
pub(crate) enum Stage {
    Idle,
    Waiting(Letter),
    Matched(Letter),
    Taken,
    Unreported,
}

/// What happens to an end.
#[derive(Drop)]
pub(crate) enum Change {
    /// It comes to a place.
    Comes(Place),
    /// Its receive comes so far.
    Receives(Inward),
    /// Its send comes so far.
    Sends(Stage),
    /// The send with this number is started.
    Starts(u32, Letter),
    /// Its send is matched.
    Matches,
    /// It is destroyed.
    Dies,
    /// The death of its link is noticed.
    Notices,
    /// Its message comes back, as it has an owner or is in a message.
    Returns,
}

/// An end as it is kept and lent. Contracts see it as the end.
#[derive(Debug, Drop)]
pub struct KeptEnd {
    place: Place,
    stage: Stage,
    inward: Inward,
    sent: u32,
    noticed: bool,
}

impl Model for KeptEnd {
    ghost use Rattle.service_step.specs.declared.state.End.{End};
    ghost use Rattle.service_step.specs.declared.state.Outward.TheVariants.{Idle};
    ghost use Rattle.service_step.specs.Ends.{is_made};
    ghost use Rattle.std.specs.Prelude.{◌≡◌, ◌⊎◌, IsTrue};
    ghost use Rattle.service_links.specs.Kept.{outward_of};

    ghost Value = { End };

    ghost view = { λ k. record { place = k.place; outward = outward_of k.stage; inward = k.inward; sent = k.sent; noticed = k.noticed } };

    ghost invariant = { λ k. IsTrue (is_made k.place) ⊎ (outward_of k.stage ≡ Idle) };
}

impl KeptEnd {
    /// An end that nothing happened to.
    pub(crate) fn fresh(place: Place) -> KeptEnd
        ensures { result ≡ fresh place }
    {
        KeptEnd {
            place,
            stage: Stage::Idle,
            inward: Inward::Idle,
            sent: 0,
            noticed: false,
        }
    }

    /// Where the end is.
    #[inline(always)]
    pub fn place(&self) -> Place
        ensures { result ≡ self.now.place }
    {
        self.place
    }

    /// The process that owns the end.
    #[inline(always)]
    pub fn owner(&self) -> Option<Pid>
        ensures { result ≡ owner self.now.place }
    {
        self.place.owner()
    }

    /// Whether this process owns the end.
    #[inline(always)]
    pub fn is_owned_by(&self, p: Pid) -> bool
        ensures { result ≡ is_owned_by p self.now.place }
    {
        self.place.is_owned_by(p)
    }

    /// The receive.
    #[inline(always)]
    pub fn inward(&self) -> Inward
        ensures { result ≡ self.now.inward }
    {
        self.inward
    }

    /// How many sends were started on it.
    #[inline(always)]
    pub fn sent(&self) -> u32
        ensures { result ≡ self.now.sent }
    {
        self.sent
    }

    /// Whether the death of its link was noticed at it.
    #[inline(always)]
    pub fn noticed(&self) -> bool
        ensures { result ≡ self.now.noticed }
    {
        self.noticed
    }

    /// Whether there is no send.
    #[inline(always)]
    pub fn is_idle_outward(&self) -> bool
        ensures { result ≡ is_idle_outward self.now.outward }
    {
        matches!(self.stage, Stage::Idle)
    }

    /// Whether a send waits for its match.
    #[inline(always)]
    pub fn is_waiting(&self) -> bool
        ensures { result ≡ is_some (waiting_message self.now.outward) }
    {
        matches!(self.stage, Stage::Waiting(_))
    }

    /// Whether its message is matched and not taken yet.
    #[inline(always)]
    pub fn is_matched(&self) -> bool
        ensures { result ≡ is_some (matched_message self.now.outward) }
    {
        matches!(self.stage, Stage::Matched(_))
    }

    /// Whether its message was taken.
    #[inline(always)]
    pub fn is_taken(&self) -> bool
        ensures { result ≡ is_taken self.now.outward }
    {
        matches!(self.stage, Stage::Taken)
    }

    /// Whether there is a send that can't be taken back any more.
    #[inline(always)]
    pub(crate) fn is_past_waiting(&self) -> bool
        ensures { result ≡ is_late (outward_activity self.now.outward) }
    {
        matches!(
            self.stage,
            Stage::Matched(_) | Stage::Taken | Stage::Unreported
        )
    }

    /// Whether a send is started and not over.
    #[inline(always)]
    pub fn is_started_outward(&self) -> bool
        ensures { result ≡ is_started_outward self.now.outward }
    {
        matches!(
            self.stage,
            Stage::Waiting(_) | Stage::Matched(_) | Stage::Taken
        )
    }

    /// Whether no activity is started or unreported.
    #[inline(always)]
    pub fn is_idle(&self) -> bool
        ensures { result ≡ is_idle self.now }
    {
        self.is_idle_outward() && self.inward.is_idle()
    }

    /// Whether an activity is started.
    #[inline(always)]
    pub fn is_active(&self) -> bool
        ensures { result ≡ is_active self.now }
    {
        self.is_started_outward() || self.inward.is_started()
    }

    /// The message of a send that waits, lent.
    #[inline(always)]
    pub fn waiting(&self) -> Option<&Letter>
        ensures { option_copied result ≡ waiting_message self.now.outward }
    {
        match &self.stage {
            Stage::Waiting(letter) => Some(letter),
            Stage::Idle | Stage::Matched(_) | Stage::Taken | Stage::Unreported => None,
        }
    }

    /// The message that is matched and not taken yet, lent.
    #[inline(always)]
    pub fn matched(&self) -> Option<&Letter>
        ensures { option_copied result ≡ matched_message self.now.outward }
    {
        match &self.stage {
            Stage::Matched(letter) => Some(letter),
            Stage::Idle | Stage::Waiting(_) | Stage::Taken | Stage::Unreported => None,
        }
    }

    /// The ends that a message that waits carries.
    pub fn waiting_ends(&self) -> Ends
        ensures { result ≡ carried_by (waiting_message self.now.outward) }
    {
        match &self.stage {
            Stage::Waiting(letter) => letter.carried(),
            Stage::Idle | Stage::Matched(_) | Stage::Taken | Stage::Unreported => no_ends(),
        }
    }

    /// The ends that a matched message carries.
    pub fn matched_ends(&self) -> Ends
        ensures { result ≡ carried_by (matched_message self.now.outward) }
    {
        match &self.stage {
            Stage::Matched(letter) => letter.carried(),
            Stage::Idle | Stage::Waiting(_) | Stage::Taken | Stage::Unreported => no_ends(),
        }
    }

    /// A change happens to the end, where its link was made.
    #[inline(always)]
    pub(crate) fn change(&mut self, change: Change)
        requires { KeepsMade change }
        ensures { self.new ≡ where_made (after change) self.old }
    {
        if self.place.is_made() {
            self.undergo(change);
        }
    }

    /// A change happens to the end of a made link.
    #[inline(always)]
    fn undergo(&mut self, change: Change)
        requires made { IsTrue (is_made self.old.place) }
        requires keeps { KeepsMade change }
        ensures { self.new ≡ after change self.old }
    {
        match change {
            Change::Comes(at) => self.place = at,
            Change::Receives(to) => self.inward = to,
            Change::Sends(to) => self.stage = to,
            Change::Starts(n, letter) => self.start(n, letter),
            Change::Matches => self.match_send(),
            Change::Dies => self.die(),
            Change::Notices => self.notice(),
            Change::Returns => self.take_back(),
        }
    }

    /// The Matched message, which is taken from the end; nothing, where there is none.
    #[inline(always)]
    pub(crate) fn take_letter(&mut self) -> Option<Letter>
        ensures end { self.new ≡ where_made (after (Sends Taken)) self.old }
        ensures letter { result ≡ matched_message self.old.outward }
    {
        if !self.place.is_made() {
            return None;
        }
        match mem::replace(&mut self.stage, Stage::Taken) {
            Stage::Matched(letter) => Some(letter),
            Stage::Idle | Stage::Waiting(_) | Stage::Taken | Stage::Unreported => None,
        }
    }

    #[inline(always)]
    fn start(&mut self, n: u32, letter: Letter)
        requires { IsTrue (is_made self.old.place) }
        ensures { self.new ≡ after (Starts n letter) self.old }
    {
        self.stage = Stage::Waiting(letter);
        self.sent = n;
    }

    #[inline(always)]
    fn match_send(&mut self)
        requires { IsTrue (is_made self.old.place) }
        ensures { self.new ≡ after Matches self.old }
    {
        self.stage = match mem::replace(&mut self.stage, Stage::Idle) {
            Stage::Waiting(letter) => Stage::Matched(letter),
            other => other,
        };
    }

    fn die(&mut self)
        requires { IsTrue (is_made self.old.place) }
        ensures { self.new ≡ after Dies self.old }
    {
        self.place = Place::Destroyed;
        if self.is_waiting() {
            self.stage = Stage::Idle;
        }
    }

    fn notice(&mut self)
        requires { IsTrue (is_made self.old.place) }
        ensures { self.new ≡ after Notices self.old }
    {
        if self.is_waiting() {
            self.stage = Stage::Unreported;
        }
        if self.inward.is_started() {
            self.inward = Inward::Unreported;
        }
        self.noticed = true;
    }

    fn take_back(&mut self)
        requires { IsTrue (is_made self.old.place) }
        ensures { self.new ≡ after Returns self.old }
    {
        self.stage = Stage::Unreported;
        if !self.noticed {
            self.notice();
        }
    }
}

/// No ends.
pub fn no_ends() -> Ends
    ensures { result ≡ [] }
{
    match Ends::from_slice(&[]) {
        Some(none) => none,
        None => unreachable!(),
    }
}
