//! What is true of every state of the link service.

ghost use Rattle.charlotte_calls.specs.Setting.{IsValid};
ghost use Rattle.charlotte_calls.specs.declared.calls.ServiceStep.{ServiceStep as AStep};
ghost use Rattle.charlotte_calls.specs.declared.setting.Setting.{Setting as ASetting};
ghost use Rattle.service_lawful.specs.Consistent.{IsConsistent};
ghost use Rattle.service_step.specs.Run.{start_state};
ghost use Rattle.service_step.specs.State.{State};
ghost use Rattle.service_step.specs.Steps.{IsServiceStep};

/// The state at the start of a valid setting is consistent.
pub fn the_start_is_consistent()
    ensures { (s : ASetting) → IsValid s → IsConsistent (start_state s) }
{}

/// Every step of the service leaves a consistent state consistent.
pub fn every_step_is_consistent()
    ensures { (s : State) (x : AStep) (t : State) → IsConsistent s → IsServiceStep s x t → IsConsistent t }
{}
