ghost use Rattle.std.specs.Prelude.{◌≡◌, ℕ, List, All};
ghost use Rattle.charlotte_calls.specs.declared.setting.Setting.{Setting};
ghost use Rattle.transcript_lines.specs.TranscriptText.{IsShown};
ghost use Rattle.kernel_entries.specs.Order.{AreInOrder, of_kernel};
ghost use Rattle.kernel_world.specs.Run.{IsRecord, IsRun};
ghost use Rattle.kernel_world.specs.World.{Event, noted, start};
ghost use Rattle.kernel_entries.specs.declared.entry.Placed.{Placed};
ghost use Rattle.transcript_record.specs.Record.{IsRecordOf};

/// Each run has a record: two events at two kernels change places where the later one stands before the earlier one.
pub fn run_has_a_record()
    ensures { (s : Setting) (es : List Event) → IsRun s es → (merged : List Placed) × IsRecordOf s es merged }
{}

/// Entries in the order of a merge that are those of a run at each kernel are its record.
pub fn merge_is_a_record()
    ensures { (s : Setting) (es : List Event) (merged : List Placed) → IsRun s es → AreInOrder merged
        → ((k : ℕ) → of_kernel k merged ≡ of_kernel k (noted (start s) es)) → IsRecordOf s es merged }
{}

/// The lines of a record show all of it but the stamps of packets.
pub fn record_is_shown()
    ensures { (s : Setting) (es : List Event) (merged : List Placed) → IsRecord s es merged → All (IsShown s.version) merged }
{}
