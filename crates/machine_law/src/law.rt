ghost use Rattle.std.specs.Prelude.{◌≡◌, ℕ};
ghost use Rattle.lynx_meaning.specs.Code.{Program};
ghost use Rattle.machine_turns.specs.Turns.{Stop, Stops, Turns, most_beats, run};
ghost use Rattle.machine_law.specs.Histories.{Beats, moved};
ghost use Rattle.machine_law.specs.Law.{ThreadsMeanTheirCode};
ghost use Rattle.machine_law.specs.Sources.{ThreadsMeanTheirSources};
ghost use Rattle.machine_law.specs.Actions.{ActionsAreBounded, ActionsBeginOrClose, AllActionsAreBounded};

/// Each thread of each history of a machine, standing or ended, did what its code means: what it was given fits, and with as many instructions
/// as it has begun its code ends, waits or goes on just so, after the same actions and with the same variables.
pub fn threads_mean_their_code()
    ensures { ThreadsMeanTheirCode }
{}

/// On checked code each thread did what its source means: where it ended or waits, so does the source of its part, after the same actions and
/// with the same variables; and where it goes on, the actions of the source begin with its own.
pub fn threads_mean_their_sources()
    ensures { ThreadsMeanTheirSources }
{}

/// A run is a move of a history: so many beats.
pub fn runs_are_moves()
    ensures { (p : Program) (fuel left : ℕ) (t now : Turns) (stop : Stop) → run p fuel t ≡ Stops stop left now → moved p (Beats (most_beats fuel) fuel) t ≡ now }
{}

/// Where a run stops for an action, this is the first of an instruction, which took its unit of fuel, or a close of an open request.
pub fn actions_begin_or_close()
    ensures { ActionsBeginOrClose }
{}

/// From any moment of a history on, runs that hand on their fuel stop for an action no more often than this fuel, the requests that were open at
/// first, and those that came to be open meanwhile; whether they hand it on or not, what counts is the fuel that they use.
pub fn actions_are_bounded()
    ensures { ActionsAreBounded }
{}

/// From its start on the runs of a machine stop for an action no more often than they use fuel and requests come to be open.
pub fn all_actions_are_bounded()
    ensures { AllActionsAreBounded }
{}
