//! How far messages and receives have come.

use crate::telling::Telling;
use charlotte_calls::{EndId, NoMemory};
use service_links::KeptEnd;
use service_step::Inward;

/// How far a message has come.
#[derive(Clone, Copy, Debug, PartialEq, Eq)]
pub(crate) enum Course {
    NotSent,
    Waiting,
    Matched,
    Taken,
    Over,
}

impl Course {
    /// That of message n of an end.
    pub(crate) fn of(end: &KeptEnd, n: u32) -> Course {
        if n == 0 || end.sent() < n {
            return Course::NotSent;
        }
        if n < end.sent() {
            return Course::Over;
        }
        if end.is_waiting() {
            Course::Waiting
        } else if end.is_matched() {
            Course::Matched
        } else if end.is_taken() {
            Course::Taken
        } else {
            Course::Over
        }
    }

    fn name(self) -> &'static [u8] {
        match self {
            Course::NotSent => b"not sent",
            Course::Waiting => b"waiting",
            Course::Matched => b"matched",
            Course::Taken => b"taken",
            Course::Over => b"over",
        }
    }
}

fn name_of_receive(inward: Inward) -> &'static [u8] {
    match inward {
        Inward::Idle => b"idle",
        Inward::Posted => b"posted",
        Inward::Withdrawn => b"withdrawn",
        Inward::Matched(_) => b"matched",
        Inward::Unreported => b"over",
    }
}

impl Telling<'_> {
    /// Whether message n of an end is not as it is wanted; then that is told.
    pub(crate) fn is_not(
        &mut self,
        message: (EndId, u32),
        wanted: Course,
    ) -> Result<bool, NoMemory> {
        let (e, n) = message;
        let course = Course::of(self.service.links().look(e), n);
        if course == wanted {
            return Ok(false);
        }
        self.message(n, e)?;
        self.words(b" is ")?;
        self.words(course.name())?;
        self.words(b", not ")?;
        self.words(wanted.name())?;
        Ok(true)
    }

    /// How far the receive of an end is, and how far it would have to be.
    pub(crate) fn receive(&mut self, e: EndId, wanted: &[u8]) -> Result<(), NoMemory> {
        self.of_end(b"the receive of ", e)?;
        self.words(b" is ")?;
        self.words(name_of_receive(self.service.links().look(e).inward()))?;
        self.words(b", not ")?;
        self.words(wanted)
    }
}
