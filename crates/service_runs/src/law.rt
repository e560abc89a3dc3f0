//! What is true of every run of the link service.

ghost use Rattle.std.specs.Prelude.{List};
ghost use Rattle.charlotte_calls.specs.Setting.{IsValid};
ghost use Rattle.charlotte_calls.specs.declared.calls.ServiceStep.{ServiceStep as AStep};
ghost use Rattle.charlotte_calls.specs.declared.setting.Setting.{Setting as ASetting};
ghost use Rattle.service_step.specs.Lawful.{IsLawful};
ghost use Rattle.service_step.specs.Run.{IsServiceRun, start_state};
ghost use Rattle.service_step.specs.State.{State};

/// Every run of the service from the start of a valid setting is lawful: in each of its states each living end is held once, a send
/// completes once its message was taken once, messages go in the order of their numbers, and a Cancel comes too late only after a match.
pub fn every_service_run_is_lawful()
    ensures { (s : ASetting) (run : List (AStep × State)) → IsValid s → IsServiceRun s run → IsLawful (start_state s) run }
{}
