ghost use Rattle.std.specs.Prelude.{List};
ghost use Rattle.charlotte_calls.specs.Setting.{IsValid};
ghost use Rattle.charlotte_calls.specs.declared.setting.Setting.{Setting};
ghost use Rattle.kernel_world.specs.Run.{IsRecord, IsRun};
ghost use Rattle.kernel_world.specs.World.{Event};
ghost use Rattle.kernel_entries.specs.declared.entry.Placed.{Placed};
ghost use Rattle.theorem.specs.Law.{IsServedLawfully};
ghost use Rattle.theorem.specs.Record.{IsLawfulRecord};

/// However calls and packets interleave and ends move, a run of kernels is one lawful run of the link service: the service steps of its
/// events are allowed one after the other, and after each event the world stands for the state of the service.
pub fn every_run_is_lawful()
    ensures { (s : Setting) (es : List Event) → IsValid s → IsRun s es → IsServedLawfully s es }
{}

/// The same of the entries of a run in the order of a merge, as they are printed: the steps of the service are just those that they show.
pub fn every_record_is_lawful()
    ensures { (s : Setting) (es : List Event) (merged : List Placed) → IsValid s → IsRecord s es merged → IsLawfulRecord s merged }
{}
