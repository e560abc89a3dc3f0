ghost use Rattle.std.specs.Prelude.{◌≤◌, ℕ, All, List, Ok};
ghost use Rattle.charlotte_calls.specs.Setting.{IsValid};
ghost use Rattle.charlotte_calls.specs.declared.setting.Setting.{Setting as ASetting};
ghost use Rattle.kernel_entries.specs.Order.{IsMerge};
ghost use Rattle.kernel_entries.specs.declared.entry.Placed.{Placed as APlaced};
ghost use Rattle.kernel_turns.specs.declared.node.Node.{Node};
ghost use Rattle.plan_run.specs.Ends.{RunTogether};
ghost use Rattle.kernel_turns.specs.Local.{LocalEvent};
ghost use Rattle.plan_run.specs.Net.{AreNodes, AreUnspoiled, HaveMet, journals_of};
ghost use Rattle.plan_run.specs.Homes.{programs_on};
ghost use Rattle.plan_run.specs.Run.{IsRunOf};
ghost use Rattle.plan_run.specs.declared.run.Ran.{Ran};
ghost use Rattle.carried_ends.specs.Acting.{Program};
ghost use Rattle.lynx_load.specs.Ends.{ends_of_each};
ghost use Rattle.lynx_load.specs.Loading.{Loading, Loads};
ghost use Rattle.lynx_load.specs.Started.{AreStarted};
ghost use Rattle.lynx_load.specs.declared.role.Role.{Role as ARole};
ghost use Rattle.lynx_outside.specs.Files.{IsWithin};
ghost use Rattle.lynx_outside.specs.Logged.{Read};
ghost use Rattle.lynx_rt.specs.Programs.{Program as Process};
ghost use Rattle.carried_ends.specs.Claimed.{AreWired, HasLinks};
ghost use Rattle.run_links.specs.Linked.{AreLinkedNodes, BeginAs, plan_programs, processes, roles};

use kernel_turns::Watch;

/// Where a plan was loaded, by reads that gave no more bytes than were asked for, its setting is valid, and each process begins with the ends that the
/// wires give it, each once, and with code that can be run.
pub fn loaded_plans_are_sound()
    ensures { (name : List ℕ) (reads : List Read) (x : Loading) → Loads name reads (Ok x) → All IsWithin reads
        → IsValid x.plan.setting × AreWired x.plan.setting (plan_programs x) }
{}

/// In each run of its programs there are the deeds of the run, as its entries tell them. On each link requests are accepted at most once and in order, and
/// replies go to their requests; and the ends that these carry are where they should be. A kernel is to have at most 100,000 turns.
pub fn runs_of_plans_are_linked()
    ensures { (name : List ℕ) (reads : List Read) (x : Loading) (programs : List ARole) (turns : ℕ) (ran : Ran)
        → Loads name reads (Ok x) → All IsWithin reads
        → AreStarted x.plan.setting.version x.codes (ends_of_each x.plan.setting) programs → turns ≤ 100000
        → (is : IsRunOf roles x.plan.setting programs turns ran) → HasLinks x.plan.setting (plan_programs x) is.merged is.replayed.steps is.lawful }
{}

/// So it is where nodes of a setting were run, as the clauses `run` and `met` of `run_serial`, `run_nodes` and `run_nodes_with` say, which began with LYNX
/// processes whose ends the setting wires to them: of their journals in the order of a merge. The processes stand by themselves, or are those of a plan.
pub fn nodes_of_processes_are_linked<W: Watch>()
    ensures alone { (s : ASetting) (programs : ℕ → Program) (given : List Process) (made : ℕ → List LocalEvent) (old new : List (Node Process W))
        (merged : List APlaced)
        → BeginAs processes s programs given → AreWired s programs → AreNodes processes W.HasSeen s (programs_on s given) made old
        → RunTogether processes W.HasSeen old new → HaveMet new × AreUnspoiled new → IsMerge (journals_of new) merged
        → AreLinkedNodes processes s programs given merged }
    ensures of_plan { (s : ASetting) (programs : ℕ → Program) (given : List ARole) (made : ℕ → List LocalEvent) (old new : List (Node ARole W))
        (merged : List APlaced)
        → BeginAs roles s programs given → AreWired s programs → AreNodes roles W.HasSeen s (programs_on s given) made old
        → RunTogether roles W.HasSeen old new → HaveMet new × AreUnspoiled new → IsMerge (journals_of new) merged
        → AreLinkedNodes roles s programs given merged }
{}
