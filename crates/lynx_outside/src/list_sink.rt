//! A sink in memory of which chosen puts fail.
ghost use Rattle.std.specs.Prelude.{◌≡◌, ◌≤◌, ◌↔◌, [], ◌∷◌, ◌++◌, Some, IfOk, IsOk, vec_len, vec_capacity};
ghost use Rattle.lynx_outside.specs.Sink.{put_of, Holds, counted_put};
ghost use Rattle.lynx_outside.specs.Listed.{PlannedSink, Takes, taken_put, after_put};

use crate::log::{PutLog, PutNote};
use crate::planned::PlannedFaults;
use crate::{Failed, Sink};
use charlotte_calls::NoMemory;
use std::alloc::Global;
use std::marker::Model;

/// A sink in memory with room for so many bytes, of which the puts with chosen numbers fail.
#[derive(Drop)]
pub struct ListSink {
    held: Vec<u8>,
    room: u32,
    plan: PlannedFaults,
    log: PutLog,
}

impl Model for ListSink {
    ghost Value = { PlannedSink };

    ghost view = { λ a. record { held = a.held.items; room = a.room; plan = a.plan; log = a.log.puts } };

    ghost invariant = { λ a. (vec_len a.held ≤ a.room) × (a.room ≤ vec_capacity a.held) };
}

impl ListSink {
    /// An empty sink with room for `room` bytes, and the numbers, from 1, of the puts that are to fail. It takes
    /// all its memory here.
    pub fn with(alloc: Global, room: u32, failing: Vec<u32>) -> Result<ListSink, NoMemory>
        ensures held { IfOk result (λ sink. sink.held ≡ []) }
        ensures room { IfOk result (λ sink. sink.room ≡ room) }
        ensures plan { IfOk result (λ sink. sink.plan ≡ record { calls = 0; failing = failing.items; faults = 0 }) }
        ensures log { IfOk result (λ sink. sink.log ≡ []) }
    {
        Ok(ListSink {
            held: Vec::with_capacity(alloc, room as usize)?,
            room,
            plan: PlannedFaults::of(failing),
            log: PutLog::new(),
        })
    }

    // Takes the bytes that it is to take, as a call that counts.
    fn take(&mut self, bytes: &[u8]) -> Result<(), Failed>
        ensures taken { IsOk result ↔ Takes self.old bytes.now }
        ensures after { self.new ≡ taken_put self.old bytes.now result }
        ensures appended { Holds (Some self.old.held) (Some self.new.held) (put_of bytes.now result) }
    {
        if self.plan.is_due() {
            self.plan.fail();
            return Err(Failed);
        }
        let free = self.room as usize - self.held.len();
        if free < bytes.len() {
            self.held.extend_from_slice(&bytes[..free]).unwrap();
            self.plan.fail();
            return Err(Failed);
        }
        self.held.extend_from_slice(bytes).unwrap();
        self.plan.pass();
        Ok(())
    }

    /// The bytes held.
    pub fn held(&self) -> &[u8]
        ensures { result.now ≡ self.now.held }
    {
        &self.held
    }
}

impl Sink for ListSink {
    ghost state = { λ a. record { held = Some a.held; faults = a.plan.faults; log = a.log } };

    /// A put that is to fail keeps nothing. One past the room keeps the bytes that there is room for, and fails.
    fn put(&mut self, bytes: &[u8]) -> Result<(), Failed>
        ensures taken { IsOk result ↔ Takes self.old bytes.now }
        ensures after { self.new ≡ after_put self.old bytes.now result }
        ensures appended { Holds (Some self.old.held) (Some self.new.held) (put_of bytes.now result) }
        ensures counted { self.new.plan.faults ≡ counted_put self.old.plan.faults (put_of bytes.now result) }
        ensures logged { self.new.log ≡ self.old.log ++ put_of bytes.now result ∷ [] }
    {
        let result = self.take(bytes);
        self.log = self.log.then(&PutNote {
            bytes,
            taken: result.is_ok(),
        });
        result
    }
}
