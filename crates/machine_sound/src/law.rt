ghost use Rattle.std.specs.Prelude.{◌≡◌, ◌<◌, ℕ, length};
ghost use Rattle.lynx_meaning.specs.Code.{Program};
ghost use Rattle.machine_turns.specs.Turns.{Turns, RunsOn, beat, most_threads, run};
ghost use Rattle.machine_sound.specs.Weights.{Ends, weight};

/// A beat after which the run goes on lowers what is left to do.
pub fn beat_lowers_what_is_left()
    ensures { (p : Program) (fuel : ℕ) (t : Turns) (left : ℕ) (now : Turns) → beat p fuel t ≡ RunsOn left now → weight left now < weight fuel t }
{}

/// A run ends within its beats: twice as many as its fuel and 33.
pub fn run_ends_within_its_beats()
    ensures { (p : Program) (fuel : ℕ) (t : Turns) → length t.threads ≡ most_threads → Ends (run p fuel t) }
{}
