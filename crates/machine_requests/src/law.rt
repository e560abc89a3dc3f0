ghost use Rattle.std.specs.Prelude.{◌≡◌, ℕ, List, [], Some, slice_get};
ghost use Rattle.lynx_code.specs.declared.instruction.Instruction.{Instruction};
ghost use Rattle.lynx_meaning.specs.Code.{Comes, Over, Program, open_behind};
ghost use Rattle.lynx_meaning.specs.Courses.{Action, Outcome, Stop, Store, Waits};
ghost use Rattle.lynx_meaning.specs.Needs.{Wanted};
ghost use Rattle.lynx_meaning.specs.Values.{Value};
ghost use Rattle.code_shapes.specs.Shapes.{ModuleTypes, PartTypes, program};
ghost use Rattle.machine_turns.specs.Threads.{Standing, goes_on, last_action};
ghost use Rattle.machine_turns.specs.Turns.{Act, IsFree, RunsOn, Stops, Turns, at_start, beats, given_to, spawned};
ghost use Rattle.machine_never_stuck.specs.Sound.{IsAction};
ghost use Rattle.machine_sound.specs.Sound.{AreSound, IsAsking};
ghost use Rattle.machine_requests.specs.Open.{open_of, opens};
ghost use Rattle.machine_requests.specs.Heard.{AreHeard, Leaves};

/// Where an instruction waits for an action, the requests are open that its actions and their outcomes leave by the meaning of code. A `stop`
/// has no outcome.
pub fn open_amid_an_instruction()
    ensures { (m : ModuleTypes) (parts : List PartTypes) (instructions : List Instruction) (t : Turns) (n : ℕ) (s : Standing) (actions : List Action) (store : Store)
        → AreSound m parts instructions t → slice_get t.threads n ≡ Some (Some s) → goes_on (program m instructions) t.globals s ≡ Over (Comes (Waits actions store))
        → (last_action actions ≡ Some Stop → ⊥) → open_of instructions n t ≡ open_behind actions s.given s.requests }
{}

/// So many beats, and so a run, change no open requests: those of a thread that stands stay as they were, and a thread that ended had none. What threads were given
/// stays heard.
pub fn beats_keep_what_is_open()
    ensures { (m : ModuleTypes) (parts : List PartTypes) (instructions : List Instruction) (k fuel : ℕ) (t : Turns)
        → AreSound m parts instructions t → AreHeard (program m instructions) t
        → Leaves (λ u. AreHeard (program m instructions) u × ((n : ℕ) → open_of instructions n u ≡ open_of instructions n t)) (beats (program m instructions) k (RunsOn fuel t)) }
{}

/// An action that a thread asks for is one of the module, where the open requests are those of this thread.
pub fn beats_ask_of_the_code()
    ensures { (m : ModuleTypes) (parts : List PartTypes) (instructions : List Instruction) (k fuel left n : ℕ) (a : Action) (t u : Turns)
        → AreSound m parts instructions t → AreHeard (program m instructions) t
        → beats (program m instructions) k (RunsOn fuel t) ≡ Stops (Act n a) left u → IsAction m (open_of instructions n u) a }
{}

/// An outcome changes the open requests of its thread as its action says, and of no other. What threads were given stays heard.
pub fn given_changes_what_is_open()
    ensures { (m : ModuleTypes) (parts : List PartTypes) (instructions : List Instruction) (t : Turns) (n : ℕ) (outcome : Outcome) (wanted : Wanted)
        → AreSound m parts instructions t → AreHeard (program m instructions) t → IsAsking n wanted t
        → AreHeard (program m instructions) (given_to n outcome t)
        × (open_of instructions n (given_to n outcome t) ≡ opens wanted outcome (open_of instructions n t))
        × ((k : ℕ) → (k ≡ n → ⊥) → open_of instructions k (given_to n outcome t) ≡ open_of instructions k t) }
{}

/// A new thread has just the requests open with which it begins, and the others those that they had. What threads were given stays heard.
pub fn new_threads_open_their_own()
    ensures { (p : Program) (t : Turns) (n : ℕ) (requests : List ℕ) (start : ℕ) (locals : List Value)
        → IsFree n t → AreHeard p t
        → AreHeard p (spawned n requests start locals t)
        × (open_of p.instructions n (spawned n requests start locals t) ≡ requests)
        × ((k : ℕ) → (k ≡ n → ⊥) → open_of p.instructions k (spawned n requests start locals t) ≡ open_of p.instructions k t) }
{}

/// At the start no request is open.
pub fn at_the_start_none_is_open()
    ensures { (p : Program) (globals : List Value)
        → AreHeard p (at_start globals) × ((n : ℕ) → open_of p.instructions n (at_start globals) ≡ []) }
{}
