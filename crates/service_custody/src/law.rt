//! What each step of the link service does with ends, with what comes to them, and with processes.

ghost use Rattle.std.specs.Prelude.{◌≡◌, true, false, []};
ghost use Rattle.charlotte_calls.specs.Names.{opposite};
ghost use Rattle.charlotte_calls.specs.Setting.{IsValid};
ghost use Rattle.charlotte_calls.specs.declared.calls.ServiceStep.{ServiceStep as AStep};
ghost use Rattle.charlotte_calls.specs.declared.names.EndId.{EndId};
ghost use Rattle.charlotte_calls.specs.declared.setting.Setting.{Setting as ASetting};
ghost use Rattle.service_step.specs.Ends.{is_living};
ghost use Rattle.service_step.specs.Run.{start_state};
ghost use Rattle.service_step.specs.State.{State};
ghost use Rattle.service_step.specs.Steps.{IsServiceStep};
ghost use Rattle.service_step.specs.declared.state.Inward.TheVariants as inward;
ghost use Rattle.service_lawful.specs.Consistent.{IsConsistent};
ghost use Rattle.service_streams.specs.Streams.{cancels_send};
ghost use Rattle.service_custody.specs.Coming.{AreMatched, ComesSo, coming};
ghost use Rattle.service_custody.specs.Deaths.{AreDeathsTrue, AreReceives, IsGone};
ghost use Rattle.service_custody.specs.Moves.{Moves};
ghost use Rattle.service_custody.specs.Phases.{ArePhases};

/// At the start nothing is matched.
pub fn start_is_matched()
    ensures { (s : ASetting) → IsValid s → AreMatched (start_state s) }
{}

/// A message that is matched stays so with the receive of its opposite.
pub fn matches_stay()
    ensures { (s : State) (made : AStep) (t : State) → IsConsistent s → AreMatched s → IsServiceStep s made t → AreMatched t }
{}

/// What a step tells of an end is the first message that was coming there, and what it sends comes behind all others.
pub fn messages_come_in_order()
    ensures { (s : State) (made : AStep) (t : State) (x : EndId) → IsConsistent s → AreMatched s → cancels_send (opposite x) made ≡ false
        → IsServiceStep s made t → ComesSo s made t x }
{}

/// Where the opposite end is destroyed and no receive is started, nothing comes.
pub fn deaf_ends_get_nothing()
    ensures { (s : State) (x : EndId) → IsConsistent s → AreMatched s → IsGone s (opposite x) → is_living (s.ends x).place ≡ true
        → (s.ends x).inward ≡ inward.Idle → coming s x ≡ [] }
{}

/// Where a step brings an end, and with which report.
pub fn each_end_moves()
    ensures { (s : State) (made : AStep) (t : State) (x : EndId) → IsConsistent s → ((e : EndId) → cancels_send e made ≡ false)
        → IsServiceStep s made t → Moves s made t x }
{}

/// In which phase a step leaves each process.
pub fn processes_go_on()
    ensures { (s : State) (made : AStep) (t : State) → IsConsistent s → IsServiceStep s made t → ArePhases s made t }
{}

/// A death that is told is true.
pub fn deaths_are_true()
    ensures { (s : State) (made : AStep) (t : State) → IsConsistent s → IsServiceStep s made t → AreDeathsTrue s made t }
{}

/// When a receive starts, and when it is over.
pub fn receives_are_told()
    ensures { (s : State) (made : AStep) (t : State) → IsConsistent s → IsServiceStep s made t → AreReceives s made t }
{}
