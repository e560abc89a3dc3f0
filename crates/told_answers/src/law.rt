ghost use Rattle.std.specs.Prelude.{ℕ, List};
ghost use Rattle.charlotte_calls.specs.Setting.{IsValid};
ghost use Rattle.charlotte_calls.specs.declared.names.Pid.{Pid};
ghost use Rattle.charlotte_calls.specs.declared.setting.Setting.{Setting};
ghost use Rattle.kernel_step.specs.Kernel.{process_of};
ghost use Rattle.kernel_step.specs.Start.{start_kernel};
ghost use Rattle.local_runs.specs.Local.{IsLocalEvent, IsLocalRun, LocalEvent, entries_of, entry_of, gives, left_by};
ghost use Rattle.told_answers.specs.Standing.{ComesAsTold, StandsAsTold};
ghost use Rattle.told_answers.specs.Told.{heard};

/// After each local run a process stands at its kernel as the entries told: the answer that stands is the one that they told of its last
/// call, and fits it; and where they told none, the process is in a Wait or in the Cancel of a receive.
pub fn told_answers()
    ensures { (s : Setting) (k : ℕ) (made : List LocalEvent) (p : Pid) → IsValid s → IsLocalRun s k (start_kernel s k) made
        → StandsAsTold (heard p (entries_of (start_kernel s k) made)) (process_of p (left_by (start_kernel s k) made)) }
{}

/// In each event of a local run an answer comes to stand for just those of whom its entry tells one, and so for one process at most.
pub fn answers_come_as_told()
    ensures { (s : Setting) (k : ℕ) (made : List LocalEvent) (o : LocalEvent) → IsValid s → IsLocalRun s k (start_kernel s k) made
        → IsLocalEvent s k (left_by (start_kernel s k) made) o → ComesAsTold (entries_of (start_kernel s k) made)
        (entry_of (left_by (start_kernel s k) made) o) (gives (left_by (start_kernel s k) made) o) }
{}
