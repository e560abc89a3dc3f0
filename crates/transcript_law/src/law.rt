ghost use Rattle.std.specs.Prelude.{List};
ghost use Rattle.charlotte_calls.specs.Setting.{IsValid};
ghost use Rattle.charlotte_calls.specs.declared.setting.Setting.{Setting};
ghost use Rattle.transcript_lines.specs.declared.last.Last.{Last};
ghost use Rattle.kernel_world.specs.Run.{IsRun};
ghost use Rattle.kernel_world.specs.World.{Event};
ghost use Rattle.transcript_law.specs.Law.{IsLawfulReplay};
ghost use Rattle.transcript_reading.specs.declared.line.LineKind.{LineKind};
ghost use Rattle.transcript_replay.specs.Replay.{AreWithin, IsReplay};

/// The events of a run happen at kernels that are there, and nowhere else: no packet goes to another.
pub fn every_run_is_within()
    ensures { (s : Setting) (es : List Event) → IsValid s → IsRun s es → AreWithin s es }
{}

/// The service lines of a transcript that is replayed are one lawful run of the link service, from the setting of its header. Once all packets were
/// taken no kernel keeps a trace of a link that moved on.
pub fn every_replay_is_lawful()
    ensures { (kinds : List LineKind) (last : Last) → IsReplay kinds last → IsLawfulReplay kinds last }
{}
