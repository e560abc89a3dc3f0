ghost use Rattle.std.specs.Prelude.{List, length};
ghost use Rattle.charlotte_calls.specs.Setting.{IsValid};
ghost use Rattle.charlotte_calls.specs.declared.setting.Setting.{Setting};
ghost use Rattle.kernel_world.specs.Run.{IsRun};
ghost use Rattle.kernel_world.specs.World.{Event, after, start};
ghost use Rattle.sent_within.specs.Within.{IsWithin};

/// What a run sends, it sends within the kernels of its setting; and its stamps are no greater than the number of its events. Since each
/// beginning of a run is a run, that is so in each world of it.
pub fn sent_within()
    ensures { (s : Setting) (es : List Event) → IsValid s → IsRun s es → IsWithin s.kernels (length es) (after (start s) es) }
{}
