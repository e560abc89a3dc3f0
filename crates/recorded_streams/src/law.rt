ghost use Rattle.std.specs.Prelude.{List};
ghost use Rattle.charlotte_calls.specs.Setting.{IsValid};
ghost use Rattle.charlotte_calls.specs.declared.names.EndId.{EndId};
ghost use Rattle.charlotte_calls.specs.declared.setting.Setting.{Setting};
ghost use Rattle.kernel_entries.specs.declared.entry.Placed.{Placed};
ghost use Rattle.recorded_streams.specs.Recorded.{IsRecordedFifo};
ghost use Rattle.theorem.specs.Record.{IsLawfulRecord};

/// However ends move between processes and kernels, each link is FIFO from each of its ends to the other: entries that are a lawful run of
/// the link service, as those of every run of kernels are, tell the owners of an end of just the messages that were sent on the opposite
/// and not cancelled, in order and each once, with their bytes and ends.
pub fn recorded_links_are_fifo()
    ensures { (s : Setting) (merged : List Placed) → IsValid s → (lawful : IsLawfulRecord s merged) → (e : EndId)
        → IsRecordedFifo s merged lawful e }
{}
