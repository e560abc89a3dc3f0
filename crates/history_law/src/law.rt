//! What is true of every history that is accepted.

ghost use Rattle.std.specs.Prelude.{◌≡◌, ℕ, List, map};
ghost use Rattle.charlotte_calls.specs.declared.calls.ServiceStep.{ServiceStep as AStep};
ghost use Rattle.history_run.specs.Runs.{IsRunOf};
ghost use Rattle.history_text.specs.Lines.{told_by};
ghost use Rattle.service_step.specs.Lawful.{IsLawful};
ghost use Rattle.service_step.specs.Run.{IsServiceRun, start_state};
ghost use Rattle.service_step.specs.State.{State};

/// The steps of a text that is accepted are those of a service run from its setting, and that is lawful: in each of its states each living end is held
/// once, a send completes once its message was taken once, messages go in the order of their numbers, and a Cancel comes too late only after a match.
pub fn an_accepted_history_is_lawful()
    ensures { (bytes : List ℕ) → IsRunOf (told_by bytes)
        → (run : List (AStep × State)) × (map (λ made. made.0) run ≡ map (λ told. told.act.step) (told_by bytes).acts)
        × IsServiceRun (told_by bytes).setting run × IsLawful (start_state (told_by bytes).setting) run }
{}
