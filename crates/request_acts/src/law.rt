ghost use Rattle.std.specs.Prelude.{◌≡◌, ◌<◌, ℕ, List, length};
ghost use Rattle.charlotte_calls.specs.declared.setting.Setting.{Setting};
ghost use Rattle.kernel_entries.specs.declared.entry.Placed.{Placed};
ghost use Rattle.kernel_world.specs.Run.{IsRecord};
ghost use Rattle.kernel_world.specs.World.{Event};
ghost use Rattle.language_links.specs.Acting.{Program};
ghost use Rattle.request_acts.specs.Acted.{AreActed, AreReplayed, IsRunBy, deeds_of};

/// Where each process of a run replays a LYNX program on the entries of its kernel, there is one replay of all processes over the entries of the run, in
/// which each makes as many steps, and with it there are the deeds of the run.
pub fn a_run_has_deeds()
    ensures { (s : Setting) (es : List Event) (programs : ℕ → Program) (merged : List Placed) (steps : ℕ → ℕ) → IsRecord s es merged → AreReplayed s programs merged steps
        → AreActed s programs merged steps }
{}

/// In such a replay of all each process replays its program on the entries of its kernel, in as many steps. So nothing else is asked of a run.
pub fn each_replays_its_program()
    ensures { (s : Setting) (programs : ℕ → Program) (merged : List Placed) (steps : ℕ → ℕ) → AreActed s programs merged steps → AreReplayed s programs merged steps }
{}

/// What each process does in a run is a process run: with the answers that it is given, its program makes its calls, and its deeds, in order.
pub fn each_makes_a_process_run()
    ensures { (s : Setting) (programs : ℕ → Program) (merged : List Placed) (steps : ℕ → ℕ) (a : AreActed s programs merged steps) (i : ℕ)
        → i < length s.homes → IsRunBy s programs merged steps a i }
{}

/// A run has the same deeds by each replay of all: in which order processes make the steps that ask no call doesn't matter.
pub fn deeds_are_determined()
    ensures { (s : Setting) (programs : ℕ → Program) (merged : List Placed) (steps : ℕ → ℕ) (a b : AreActed s programs merged steps)
        → deeds_of s programs merged steps a ≡ deeds_of s programs merged steps b }
{}
