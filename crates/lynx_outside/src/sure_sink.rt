//! A sink in memory that takes everything.
ghost use Rattle.std.specs.Prelude.{◌≡◌, ◌+◌, [], ◌∷◌, ◌++◌, None, min, length, IsOk};
ghost use Rattle.lynx_outside.specs.Faults.{last_count};
ghost use Rattle.lynx_outside.specs.Listed.{CountedSink};
ghost use Rattle.lynx_outside.specs.Sink.{taken};

use crate::log::{PutLog, PutNote};
use crate::{Failed, Sink};
use std::marker::Model;

/// A sink that never fails. It keeps the number of its bytes alone, and tells no content.
#[derive(Drop)]
pub struct SureSink {
    count: u64,
    log: PutLog,
}

impl Model for SureSink {
    ghost Value = { CountedSink };

    ghost view = { λ a. record { count = a.count; log = a.log.puts } };
}

impl SureSink {
    /// A sink that has taken nothing.
    pub fn of() -> SureSink
        ensures { result ≡ record { count = 0; log = [] } }
    {
        SureSink {
            count: 0,
            log: PutLog::new(),
        }
    }

    /// How many bytes it has taken, up to the greatest u64.
    pub fn count(&self) -> u64
        ensures { result ≡ self.now.count }
    {
        self.count
    }
}

impl Sink for SureSink {
    ghost state = { λ a. record { held = None; faults = 0; log = a.log } };

    fn put(&mut self, bytes: &[u8]) -> Result<(), Failed>
        ensures sure { IsOk result }
        ensures count { self.new.count ≡ min (self.old.count + length bytes.now) last_count }
        ensures logged { self.new.log ≡ self.old.log ++ taken bytes.now ∷ [] }
    {
        self.count = self.count.saturating_add(bytes.len() as u64);
        self.log = self.log.then(&PutNote { bytes, taken: true });
        Ok(())
    }
}
