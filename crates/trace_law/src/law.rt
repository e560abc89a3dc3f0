ghost use Rattle.std.specs.Prelude.{List};
ghost use Rattle.charlotte_calls.specs.Setting.{IsValid};
ghost use Rattle.charlotte_calls.specs.declared.setting.Setting.{Setting};
ghost use Rattle.kernel_world.specs.Run.{IsRun};
ghost use Rattle.kernel_world.specs.World.{Event};
ghost use Rattle.trace_law.specs.Law.{IsBareAfter};

/// Once all packets of a run were taken, no kernel keeps a trace of a link that moved on: each entry of its table is of an end that one of its own
/// processes owns, or has enclosed in a message that waits.
pub fn no_trace_is_left()
    ensures { (s : Setting) (es : List Event) → IsValid s → IsRun s es → IsBareAfter s es }
{}
