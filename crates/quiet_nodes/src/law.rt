ghost use Rattle.std.specs.Prelude.{List, ℕ};
ghost use Rattle.charlotte_calls.specs.declared.names.Pid.{Pid};
ghost use Rattle.charlotte_calls.specs.declared.setting.Setting.{Setting};
ghost use Rattle.kernel_turns.specs.declared.node.Node.{Node};
ghost use Rattle.kernel_worker.specs.Ends.{IsQuiet, RunTogether};
ghost use Rattle.local_runs.specs.Local.{LocalEvent};
ghost use Rattle.node_runs.specs.Net.{AreNodes, AreUnspoiled, HaveMet};
ghost use Rattle.quiet_nodes.specs.Bare.{AreBare};

use charlotte_calls::Program;
use kernel_turns::Watch;

/// Nodes of a setting were run, as the clauses `run`, `met` and `ends` of `run_serial`, `run_nodes` and `run_nodes_with` say, and are quiet. Then no
/// kernel keeps a trace of a link that moved on: each entry of its table is of an end that one of its own processes owns, or has enclosed in a message
/// that waits.
pub fn quiet_nodes_are_bare<P: Program, W: Watch>()
    ensures { (s : Setting) (first : ℕ → List (Pid × P)) (made : ℕ → List LocalEvent) (old new : List (Node P W))
        → AreNodes (record { step = P.step; state = P.state; last = P.last; version = P.version }) W.HasSeen s first made old
        → RunTogether (record { step = P.step; state = P.state; last = P.last; version = P.version }) W.HasSeen old new
        → HaveMet new × AreUnspoiled new → IsQuiet new → AreBare s new }
{}
