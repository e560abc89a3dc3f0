//! What holds of every run of programs.
ghost use Rattle.std.specs.Prelude.{◌≡◌, ◌<◌, ℕ, List};
ghost use Rattle.charlotte_calls.specs.declared.setting.Setting.{Setting};
ghost use Rattle.kernel_worker.specs.declared.standing.End.TheVariants.{Quiet};
ghost use Rattle.plan_run.specs.Run.{IsRunOf, turns_of};
ghost use Rattle.plan_run.specs.declared.run.Ran.{Ran};

use charlotte_calls::Program;

/// Where no kernel used all its turns, the run is quiet.
pub fn run_is_complete<P: Program>()
    ensures { (s : Setting) (programs : List P) (turns : ℕ) (ran : Ran)
        (is : IsRunOf (record { step = P.step; state = P.state; last = P.last; version = P.version }) s programs turns ran)
        → ((k : ℕ) → k < s.kernels → turns_of (record { step = P.step; state = P.state; last = P.last; version = P.version }) s programs is.merged is.replayed k ≡ turns → ⊥)
        → ran.end ≡ Quiet }
{}
