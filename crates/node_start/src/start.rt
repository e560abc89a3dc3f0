ghost use Rattle.std.specs.Prelude.{◌≡◌, ◌<◌, ◌≤◌, ◌∷◌, ℕ, [], None, All, IfOk, length, map};
ghost use Rattle.charlotte_calls.specs.Setting.{IsValid};
ghost use Rattle.kernel_net.specs.Ports.{IsFresh, IsNet, place_of};
ghost use Rattle.node_runs.specs.Net.{AreNodes, AreUnspoiled};
ghost use Rattle.node_start.specs.Homes.{programs_on};
ghost use Rattle.node_start.specs.New.{IsNew};

use crate::homes::by_home;
use charlotte_calls::{NoMemory, Pid, Program, Setting};
use kernel_core::Kernel;
use kernel_net::Port;
use kernel_turns::{Node, Orders, Watch};
use std::alloc::Global;
use std::collections::VecDeque;

/// The nodes of a setting before their first turns: of the ports of a new net, with these orders and watches, each by the numbers of the
/// kernels. Programs stand by the numbers of their processes.
pub fn start_nodes<P: Program + Drop, W: Watch + Drop>(
    alloc: Global,
    setting: &Setting,
    programs: Vec<P>,
    ports: Vec<Port>,
    parts: Vec<(Orders, W)>,
) -> Result<Vec<Node<P, W>>, NoMemory>
    requires valid { IsValid setting.now }
    requires programs { length programs.items ≡ length setting.now.homes }
    requires fresh { All (λ p. (P.last p ≡ None) × (P.version p ≤ setting.now.version)) programs.items }
    requires net { IsNet (map place_of ports.items) }
    requires ports { length ports.items ≡ setting.now.kernels }
    requires rings { (capacity : ℕ) × (0 < capacity) × All (IsFresh capacity) ports.items }
    requires parts { length parts.items ≡ setting.now.kernels }
    requires orders { All (λ part. (part.0.limit ≤ 100000) × W.HasSeen part.1 []) parts.items }
    ensures nodes { IfOk result (λ ns. AreNodes (record { step = P.step; state = P.state; last = P.last; version = P.version }) W.HasSeen setting.now (programs_on setting.now programs.items) (λ _. []) ns.items) }
    ensures unspoiled { IfOk result (λ ns. AreUnspoiled ns.items) }
    ensures parts { IfOk result (λ ns. map (λ n. (n.base.orders, n.watch)) ns.items ≡ parts.items) }
{
    let mut lists = VecDeque::from(by_home(alloc, setting, programs)?);
    let mut ports = VecDeque::from(ports);
    let mut nodes = Vec::new(alloc);
    let mut number = 0u8;
    for part in parts {
        let own = first_of(&mut lists);
        let port = first_of(&mut ports);
        nodes.push(start_node(alloc, setting, number, own, port, part)?)?;
        number += 1;
    }
    Ok(nodes)
}

/// The first of a list that has one.
fn first_of<T: Drop>(list: &mut VecDeque<T>) -> T
    requires { 0 < length list.old.items }
    ensures { list.old.items ≡ result ∷ list.new.items }
{
    match list.pop_front() {
        Some(first) => first,
        None => unreachable!(),
    }
}

/// The node of this kernel before its first turn.
fn start_node<P: Program + Drop, W: Watch + Drop>(
    alloc: Global,
    setting: &Setting,
    number: u8,
    programs: Vec<(Pid, P)>,
    port: Port,
    part: (Orders, W),
) -> Result<Node<P, W>, NoMemory>
    requires valid { IsValid setting.now }
    requires below { number < setting.now.kernels }
    requires few { length programs.items ≤ 64 }
    ensures { IfOk result (IsNew setting.now number programs.items port part) }
{
    let kernel = Kernel::start(alloc, number, setting)?;
    let (orders, watch) = part;
    Ok(Node::start(alloc, kernel, programs, port, orders, watch))
}
