//! Which requests of an end are wanted, when a Receive is needed on it, and when it may not be moved.

ghost use Rattle.std.specs.Prelude.{◌≡◌, ◌≤◌, length, ◌∷◌, ◌++◌, []};
ghost use Rattle.std.specs.Str.{bytes_eq};
ghost use Rattle.end_protocol.specs.Wanting.{is_silent, is_deaf, may_cancel, is_open, is_in_part, is_needed, accepting, bound, or_else, taker, is_busy, counts};

use crate::kept::{Accept, Binding, Kept, Receiving, Sending, Taker, Wanted};

impl Sending {
    /// Whether no send is started.
    pub(crate) fn is_idle(self) -> bool
        ensures { result ≡ is_silent self }
    {
        matches!(self, Sending::Idle)
    }
}

impl Receiving {
    /// Whether no receive is started.
    pub(crate) fn is_idle(self) -> bool
        ensures { result ≡ is_deaf self }
    {
        matches!(self, Receiving::Idle)
    }

    /// Whether a receive is started and may be cancelled.
    pub(crate) fn may_cancel(self) -> bool
        ensures { result ≡ may_cancel self }
    {
        matches!(self, Receiving::Started)
    }
}

fn is_signature(signature: &[u8], other: &[u8]) -> bool
    ensures { result ≡ bytes_eq signature.now other.now }
{
    signature == other
}

/// The first thread that accepts requests of the signature.
fn accepting(signature: &[u8], accepts: &[Accept]) -> Option<Taker>
    ensures { result ≡ accepting signature.now accepts.now }
{
    match accepts {
        [] => None,
        [first, others @ ..] => {
            if is_signature(first.signature.as_slice(), signature) {
                return Some(Taker::Thread(first.thread));
            }
            accepting(signature, others)
        }
    }
}

/// The first entry that is bound and serves requests of the signature.
fn bound(signature: &[u8], bindings: &[Binding]) -> Option<Taker>
    ensures { result ≡ bound signature.now bindings.now }
{
    match bindings {
        [] => None,
        [first, others @ ..] => {
            if is_signature(first.signature.as_slice(), signature) {
                return Some(Taker::Entry(first.entry));
            }
            bound(signature, others)
        }
    }
}

impl Kept {
    /// Whether requests may come: the end owes no reply and a thread accepts on it, or an entry is bound to it and there is room for a thread.
    fn is_open(&self, room: bool) -> bool
        ensures { result ≡ is_open room self.now }
    {
        (self.owed.is_none() && !self.accepts.is_empty()) || (!self.bindings.is_empty() && room)
    }

    fn is_in_part(&self) -> bool
        ensures { result ≡ is_in_part self.now }
    {
        self.request.is_some() || self.reply.is_some()
    }

    /// Whether a Receive is needed; `room` says that there is room for a thread, where a request in part for an entry counts as one.
    #[tactic(auto, unfolding(crate::specs::Wanting::is_needed))]
    pub fn is_needed(&self, room: bool) -> bool
        ensures { result ≡ is_needed room self.now }
    {
        !self.dead && (self.outstanding.is_some() || self.is_in_part() || self.is_open(room))
    }

    /// Who wants a request of the signature.
    #[tactic(auto, unfolding(crate::specs::Wanting::taker))]
    pub(crate) fn taker(&self, room: bool, signature: &[u8]) -> Option<Taker>
        ensures { result ≡ taker room signature.now self.now }
    {
        match accepting(signature, self.accepts.as_slice()) {
            Some(taker) => Some(taker),
            None if room => bound(signature, self.bindings.as_slice()),
            None => None,
        }
    }

    /// Whether the end may not be named in a message.
    #[tactic(auto, unfolding(crate::specs::Wanting::is_busy))]
    pub fn is_busy(&self) -> bool
        ensures { result ≡ is_busy self.now }
    {
        !self.queue.is_empty()
            || !self.sending.is_idle()
            || !self.receiving.is_idle()
            || self.outstanding.is_some()
            || self.owed.is_some()
            || self.forbade.is_some()
            || !self.bindings.is_empty()
            || !self.accepts.is_empty()
    }

    /// Whether a request in part counts as a thread that stands.
    pub fn counts_as_thread(&self) -> bool
        ensures { result ≡ counts self.now.request }
    {
        match &self.request {
            Some(
                Wanted {
                    by: Taker::Entry(_),
                    ..
                },
            ) => true,
            _ => false,
        }
    }
}
