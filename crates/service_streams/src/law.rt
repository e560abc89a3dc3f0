//! What is true of each direction of each link in every run of the link service.

ghost use Rattle.std.specs.Prelude.{List};
ghost use Rattle.charlotte_calls.specs.Setting.{IsValid};
ghost use Rattle.charlotte_calls.specs.declared.calls.ServiceStep.{ServiceStep as AStep};
ghost use Rattle.charlotte_calls.specs.declared.names.EndId.{EndId};
ghost use Rattle.charlotte_calls.specs.declared.setting.Setting.{Setting as ASetting};
ghost use Rattle.service_step.specs.Run.{IsServiceRun, start_state};
ghost use Rattle.service_step.specs.State.{State};
ghost use Rattle.service_streams.specs.Streams.{IsFifo};

/// In every run of the service from the start of a valid setting each link is FIFO, from each of its ends to the other: the messages taken
/// are those that were sent and not cancelled, in order and each once, with their bytes and ends; none is lost while both ends live; and
/// the owners of the receiving end are told of just these.
pub fn links_are_fifo()
    ensures { (s : ASetting) (run : List (AStep × State)) → IsValid s → IsServiceRun s run → (e : EndId) → IsFifo (start_state s) run e }
{}
