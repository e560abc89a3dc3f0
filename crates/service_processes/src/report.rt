ghost use Rattle.std.specs.Prelude.{◌≡◌};

use charlotte_calls::{EndId, Items, Outcome, Way};
use std::marker::Model;

/// A report as it is kept: it takes the memory of the bytes and the ends that it has. Contracts see the report.
#[derive(Debug, Drop)]
pub struct KeptReport {
    on: EndId,
    way: Way,
    outcome: Outcome,
    bytes: Items<u8>,
    enclosed: Items<EndId>,
}

impl Model for KeptReport {
    ghost use Rattle.charlotte_calls.specs.declared.calls.Report.{Report};

    ghost Value = { Report };

    ghost view = { λ r. record { on = r.on; way = r.way; outcome = r.outcome; bytes = r.bytes; enclosed = r.enclosed } };
}

impl KeptReport {
    /// The report that an activity of a way is over so on an end, with these bytes and ends.
    #[inline(always)]
    pub fn of(
        on: EndId,
        way: Way,
        outcome: Outcome,
        bytes: Items<u8>,
        enclosed: Items<EndId>,
    ) -> KeptReport
        ensures { result ≡ record { on = on; way = way; outcome = outcome; bytes = bytes; enclosed = enclosed } }
    {
        KeptReport {
            on,
            way,
            outcome,
            bytes,
            enclosed,
        }
    }

    /// The end.
    #[inline(always)]
    pub fn on(&self) -> EndId
        ensures { result ≡ self.now.on }
    {
        self.on
    }

    /// The way of the activity.
    #[inline(always)]
    pub fn way(&self) -> Way
        ensures { result ≡ self.now.way }
    {
        self.way
    }

    /// How it was over.
    #[inline(always)]
    pub fn outcome(&self) -> Outcome
        ensures { result ≡ self.now.outcome }
    {
        self.outcome
    }

    /// The bytes that were received, lent.
    #[inline(always)]
    pub fn bytes(&self) -> &[u8]
        ensures { result.now ≡ self.now.bytes }
    {
        self.bytes.as_slice()
    }

    /// The ends that came or came back, lent.
    #[inline(always)]
    pub fn enclosed(&self) -> &[EndId]
        ensures { result.now ≡ self.now.enclosed }
    {
        self.enclosed.as_slice()
    }
}
