//! Files in memory of which chosen reads fail.
ghost use Rattle.std.specs.Prelude.{◌≡◌, [], ◌∷◌, ◌++◌, ◌↔◌, Some, IsErrOf, IsTrue};
ghost use Rattle.lynx_outside.specs.Files.{listing_of, read_of, answer_of, Reads, IsWithin, counted_read};
ghost use Rattle.lynx_outside.specs.Planned.{is_due};
ghost use Rattle.lynx_outside.specs.Listed.{PlannedFiles, plan_after};

use crate::log::{ReadLog, ReadNote};
use crate::planned::PlannedFaults;
use crate::{FileAnswer, Files, SureFiles};
use std::alloc::Global;
use std::marker::Model;

/// Files in memory, of which the reads with chosen numbers fail.
#[derive(Drop)]
pub struct ListFiles {
    files: SureFiles,
    plan: PlannedFaults,
    log: ReadLog,
}

impl Model for ListFiles {
    ghost Value = { PlannedFiles };

    ghost view = { λ a. record { files = a.files.files; plan = a.plan; log = a.log.reads } };
}

impl ListFiles {
    /// These files by their names, each with its bytes, and the numbers, from 1, of the reads that are to fail.
    pub fn of(files: Vec<(String, Vec<u8>)>, failing: Vec<u32>) -> ListFiles
        ensures files { result.files ≡ listing_of files.items }
        ensures plan { result.plan ≡ record { calls = 0; failing = failing.items; faults = 0 } }
        ensures log { result.log ≡ [] }
    {
        ListFiles {
            files: SureFiles::of(files),
            plan: PlannedFaults::of(failing),
            log: ReadLog::new(),
        }
    }

    // What a read answers, as a call that counts.
    fn answer(&mut self, alloc: Global, name: &str, most: u32) -> Result<Vec<u8>, FileAnswer>
        ensures same { self.new.files ≡ self.old.files }
        ensures log { self.new.log ≡ self.old.log }
        ensures plan { self.new.plan ≡ plan_after self.old.plan result }
        ensures told { Reads self.old.files (read_of name.now most result) }
        ensures within { IsWithin (read_of name.now most result) }
        ensures due { IsErrOf result FileAnswer.Failed ↔ IsTrue (is_due self.old.plan) }
    {
        if self.plan.is_due() {
            self.plan.fail();
            return Err(FileAnswer::Failed);
        }
        let answer = self.files.read(alloc, name, most);
        if !matches!(answer, Err(FileAnswer::NoMemory)) {
            self.plan.pass();
        }
        answer
    }
}

impl Files for ListFiles {
    ghost state = { λ a. record { contents = Some a.files; faults = a.plan.faults; log = a.log } };

    /// A read that wants memory does not count.
    fn read(&mut self, alloc: Global, name: &str, most: u32) -> Result<Vec<u8>, FileAnswer>
        ensures same { self.new.files ≡ self.old.files }
        ensures plan { self.new.plan ≡ plan_after self.old.plan result }
        ensures told { Reads self.old.files (read_of name.now most result) }
        ensures within { IsWithin (read_of name.now most result) }
        ensures counted { self.new.plan.faults ≡ counted_read self.old.plan.faults (answer_of result) }
        ensures logged { self.new.log ≡ self.old.log ++ read_of name.now most result ∷ [] }
        ensures due { IsErrOf result FileAnswer.Failed ↔ IsTrue (is_due self.old.plan) }
    {
        let answer = self.answer(alloc, name, most);
        self.log = self.log.then(&ReadNote {
            name,
            most,
            answer: &answer,
        });
        answer
    }
}
