//! Which service steps an entry has.

ghost use Rattle.std.specs.Prelude.{List};
ghost use Rattle.charlotte_calls.specs.Setting.{IsValid};
ghost use Rattle.charlotte_calls.specs.declared.setting.Setting.{Setting as ASetting};
ghost use Rattle.kernel_entries.specs.declared.entry.Placed.{Placed as APlaced};
ghost use Rattle.service_step.specs.Run.{start_state};
ghost use Rattle.told_answers.specs.Record.{IsLawfulRecord};
ghost use Rattle.entry_steps.specs.Entries.{AreEntries};

/// Each entry of a run has the steps of its call, or of the packet that is taken.
pub fn entries_have_steps()
    ensures { (s : ASetting) (merged : List APlaced) → IsValid s → (lawful : IsLawfulRecord s merged)
        → AreEntries s (start_state s) merged lawful.lawfully.served.parts }
{}
