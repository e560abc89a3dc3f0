ghost use Rattle.std.specs.Prelude.{◌≡◌, ◌↔◌, ◌∷◌, [], All, IsTrue};
ghost use Rattle.kernel_net.specs.Ports.{AreAllThere, there_of};
ghost use Rattle.kernel_worker.specs.Ends.{IsNetEmpty};
ghost use Rattle.kernel_worker.specs.Rounds.{EachOf, IsNumberOf, Learns, MayMeet};
ghost use Rattle.node_runs.specs.Net.{HaveMet};

use charlotte_calls::Program;
use kernel_turns::{Node, Watch, meet_nodes};

/// Brings the ends of all rings between nodes together: whether no letter is in them.
pub(crate) fn meet_all<P: Program, W: Watch>(nodes: &mut [Node<P, W>]) -> bool
    requires { MayMeet nodes.old }
    ensures met { HaveMet nodes.new }
    ensures learned { EachOf (Learns (IsNumberOf nodes.old)) nodes.old nodes.new }
    ensures empty { IsTrue result ↔ IsNetEmpty nodes.new }
{
    let Some((node, others)) = nodes.split_first_mut() else {
        return true;
    };
    let own = node.meet_self();
    let first = meet_each(node, others);
    let rest = meet_all(others);
    all_none(own, first, rest)
}

/// Brings the ends of the rings between a node and others together: whether no letter is in them.
fn meet_each<P: Program, W: Watch>(node: &mut Node<P, W>, others: &mut [Node<P, W>]) -> bool
    requires { MayMeet (node.old ∷ others.old) }
    ensures node { Learns (IsNumberOf others.old) node.old node.new }
    ensures others { EachOf (Learns (λ q. q ≡ node.old.base.port.kernel)) others.old others.new }
    ensures met { All (λ o. AreAllThere node.new.base.port o.base.port × AreAllThere o.base.port node.new.base.port) others.new }
    ensures empty { IsTrue result ↔ All (λ o. (there_of node.new.base.port o.base.port ≡ []) × (there_of o.base.port node.new.base.port ≡ [])) others.new }
{
    let Some((other, rest)) = others.split_first_mut() else {
        return true;
    };
    let between = meet_nodes(node, other);
    let others = meet_each(node, rest);
    none_of(between, others)
}

/// Whether no letter was counted, nor found by either of two.
fn all_none(count: u32, first: bool, rest: bool) -> bool
    ensures { IsTrue result ↔ ((count ≡ 0) × IsTrue first × IsTrue rest) }
{
    count == 0 && first && rest
}

/// Whether no letter was counted, nor found elsewhere.
fn none_of(count: u32, others: bool) -> bool
    ensures { IsTrue result ↔ ((count ≡ 0) × IsTrue others) }
{
    count == 0 && others
}
