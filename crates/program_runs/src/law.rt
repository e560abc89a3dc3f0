ghost use Rattle.std.specs.Prelude.{◌≡◌, List, ◌++◌, Option};
ghost use Rattle.charlotte_calls.specs.Program.{MayFollow};
ghost use Rattle.charlotte_calls.specs.declared.calls.Answer.{Answer};
ghost use Rattle.charlotte_calls.specs.declared.names.Pid.{Pid};
ghost use Rattle.charlotte_calls.specs.declared.program.Next.{Next};
ghost use Rattle.kernel_entries.specs.declared.entry.Entry.{Entry};
ghost use Rattle.program_runs.specs.Replay.{IsGiven, Replayed, Replays, ReplaysVia};
ghost use Rattle.told_answers.specs.Standing.{HasFitting};
ghost use Rattle.told_answers.specs.Told.{Heard, hears_all};

use charlotte_calls::Program;

/// A replay goes on over the entries that come after.
pub fn replays_chain<P: Program>()
    ensures { (p : Pid) (x y : Replayed P.State) (es more : List Entry)
        → ReplaysVia P.step p x es more y → Replays P.step p x (es ++ more) y }
{}

/// The replay of a beginning of the entries is a part of the replay of all.
pub fn replays_split<P: Program>()
    ensures { (p : Pid) (x y : Replayed P.State) (es more : List Entry)
        → Replays P.step p x (es ++ more) y → ReplaysVia P.step p x es more y }
{}

/// What a replay heard is what the entries told.
pub fn replay_hears_entries<P: Program>()
    ensures { (p : Pid) (x y : Replayed P.State) (es : List Entry)
        → Replays P.step p x es y → y.heard ≡ hears_all p x.heard es }
{}

/// What a step of a replay is given may follow the step before it, where the answers that were told fit their calls.
pub fn program_is_given_what_fits()
    ensures { (last : Option Next) (h : Heard) (given : Option Answer) → HasFitting h → IsGiven last h given → MayFollow last given }
{}
