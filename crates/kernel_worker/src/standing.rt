ghost use Rattle.std.specs.Prelude.{◌↔◌, ◌≤◌, All, IfNone, IfSome, IsTrue, length};
ghost use Rattle.kernel_turns.specs.Goes.{IsAtRest};
ghost use Rattle.kernel_worker.specs.Ends.{Ends, GoesFurther, IsFirstSpent, NoneSpent};
ghost use Rattle.kernel_worker.specs.Rounds.{EachOf, IsNumberOf, Learns, MayMeet};
ghost use Rattle.node_runs.specs.Net.{HaveMet};

use crate::meeting::meet_all;
use charlotte_calls::Program;
use kernel_turns::{Node, Watch};

/// How a run ended.
#[derive(Clone, Copy, Debug, PartialEq, Eq)]
pub enum End {
    /// No packet and no marker is under way, no answer stands that its program was not given, and each program has ended or waits.
    Quiet,
    /// It is not quiet, and this node, the least such, has used its turns.
    Spent { kernel: u8 },
}

/// How the run ended, if it did: all nodes are held, and each two meet.
pub(crate) fn end_of<P: Program, W: Watch>(nodes: &mut [Node<P, W>]) -> Option<End>
    requires meet { MayMeet nodes.old }
    requires few { length nodes.old ≤ 8 }
    ensures met { HaveMet nodes.new }
    ensures learned { EachOf (Learns (IsNumberOf nodes.old)) nodes.old nodes.new }
    ensures some { IfSome result (Ends nodes.new) }
    ensures none { IfNone result (GoesFurther nodes.new) }
{
    let empty = meet_all(nodes);
    let rest = are_at_rest(nodes);
    if both(empty, rest) {
        return Some(End::Quiet);
    }
    match first_spent(nodes) {
        Some(kernel) => Some(End::Spent { kernel }),
        None => None,
    }
}

/// Whether each node has no letter left to put, and each of their programs has ended or waits.
fn are_at_rest<P: Program, W: Watch>(nodes: &[Node<P, W>]) -> bool
    ensures { IsTrue result ↔ All IsAtRest nodes.now }
{
    for place in 0..nodes.len() {
        if !nodes[place].is_at_rest() {
            return false;
        }
    }
    true
}

/// The first node that has used its turns.
fn first_spent<P: Program, W: Watch>(nodes: &[Node<P, W>]) -> Option<u8>
    requires { length nodes.now ≤ 8 }
    ensures some { IfSome result (IsFirstSpent nodes.now) }
    ensures none { IfNone result (NoneSpent nodes.now) }
{
    for kernel in 0..nodes.len() {
        if nodes[kernel].is_at_limit() {
            return Some(kernel as u8);
        }
    }
    None
}

/// Whether both hold.
fn both(a: bool, b: bool) -> bool
    ensures { IsTrue result ↔ (IsTrue a × IsTrue b) }
{
    a && b
}
