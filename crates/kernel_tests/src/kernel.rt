//! One kernel through its public calls, and packets that no kernel sends. The worked runs of .ci/rows/runs show what the packets and the steps
//! say, as one_message_on_one_kernel, which begins as these do.

use crate::node::Node;
use crate::samples::holds;
use charlotte_calls::{Bytes, Call, EndId, LinkId, Pid, Side, Way};
use charlotte_packets::{Packet, What};
use kernel_step::no_ends;
use std::alloc::Global;
use std::test::Fail;

const P0: Pid = Pid(0);

const P1: Pid = Pid(1);

/// The wired link.
const LINK: LinkId = LinkId { maker: 0, count: 0 };

const A: EndId = EndId {
    link: LINK,
    side: Side::A,
};

const B: EndId = EndId {
    link: LINK,
    side: Side::B,
};

/// An end that is not there.
const NOWHERE: EndId = EndId {
    link: LinkId { maker: 0, count: 9 },
    side: Side::B,
};

/// What happens to the kernel: a process asks, it takes its oldest packet, or one that no kernel sent; or one of its ends is looked at.
#[derive(Clone, Copy)]
enum Act {
    Make,
    Destroy(EndId),
    Send,
    Receive,
    Cancel(EndId, Way),
    Wait,
    Print,
    Exit,
    Take,
    /// A want of the receive 3 for this end, from this kernel, with this stamp.
    Stray(u64, EndId, u8),
    /// Which receive asks this end.
    Look(EndId),
}

/// By which process, and what is told of the event.
type Row = (Act, Pid, &'static str);

/// Process 1 waits for a message, and process 0 sends it.
const A_MESSAGE: &[Row] = &[
    (Act::Receive, P1, "1 rr p1 Ok >Want .Receive"),
    (Act::Wait, P1, "2 rw .Wait"),
    (Act::Send, P0, "3 rw p0 Ok .Send"),
    (Act::Take, P0, "4 rw >Parcel .Match"),
    (Act::Take, P1, "5 rr p1 Inward Done >Taken .Take .Report"),
    (Act::Take, P0, "6 rr .Complete"),
];

/// A packet for an end that is not there, and one that names a kernel that is not there, change nothing but the stamp.
const STRAYS: &[Row] = &[
    (Act::Stray(41, NOWHERE, 0), P0, "42 rr"),
    (Act::Stray(7, A, 1), P0, "43 rr"),
    (Act::Look(A), P0, "asked 0"),
    (Act::Stray(7, A, 0), P0, "44 rr"),
    (Act::Look(A), P0, "asked 3"),
];

/// A link is made, and an end is destroyed.
const ENDS: &[Row] = &[
    (Act::Make, P0, "45 rr p0 Made 1 .Make"),
    (Act::Destroy(A), P0, "46 rr p0 Ok >Gone .Destroy"),
    (Act::Destroy(A), P0, "47 rr p0 Refused(NoEnd) .Refuse"),
    (Act::Look(A), P0, "not here"),
    (Act::Look(NOWHERE), P0, "not here"),
];

/// The answers that stand after the calls, behind a message that was taken.
const ANSWERS: &[Row] = &[
    (Act::Wait, P0, "7 rr p0 Outward Done .Wait .Report"),
    (Act::Wait, P0, "8 rr p0 Refused(NoActivity) .Refuse"),
    (Act::Print, P0, "9 rr p0 Ok"),
    (Act::Send, P0, "10 rr p0 Ok .Send"),
    (Act::Send, P0, "11 rr p0 Refused(Busy) .Refuse"),
    (Act::Cancel(A, Way::Outward), P0, "12 rr p0 Ok .Cancel"),
];

/// A Cancel is answered when the opposite end has heard it, when a message was faster, and when the link died.
const CANCELS: &[Row] = &[
    (Act::Receive, P1, "13 rr p1 Ok >Want .Receive"),
    (Act::Cancel(B, Way::Inward), P1, "14 rw >Unwant .Cancel"),
    (Act::Take, P0, "15 rw"),
    (Act::Take, P0, "16 rw >Unwanted .Withdraw"),
    (Act::Take, P1, "17 rr p1 Ok .Free"),
    (Act::Receive, P1, "18 rr p1 Ok >Want .Receive"),
    (Act::Send, P0, "19 rr p0 Ok .Send"),
    (Act::Take, P0, "20 rr >Parcel .Match"),
    (Act::Cancel(B, Way::Inward), P1, "21 rw >Unwant .Cancel"),
    (Act::Take, P1, "22 rr p1 Refused(Late) >Taken .Take"),
    (Act::Take, P0, "23 rr"),
    (Act::Take, P0, "24 rr .Complete"),
    (Act::Wait, P1, "25 rr p1 Inward Done .Wait .Report"),
    (Act::Receive, P1, "26 rr p1 Ok >Want .Receive"),
    (Act::Cancel(B, Way::Inward), P1, "27 rw >Unwant .Cancel"),
    (Act::Destroy(A), P0, "28 rw p0 Ok >Gone .Destroy"),
    (Act::Take, P0, "29 rw"),
    (Act::Take, P0, "30 rw"),
    (Act::Take, P1, "31 rr p1 Refused(Dead) >GoneSeen .Notice"),
    (Act::Exit, P0, "32 er p0 Ok .Exit"),
];

fn send() -> Option<Call> {
    match Bytes::from_slice(b"hello") {
        Some(bytes) => Some(Call::Send {
            on: A,
            bytes,
            enclose: no_ends(),
        }),
        None => None,
    }
}

fn print() -> Option<Call> {
    match Bytes::from_slice(b"hello") {
        Some(bytes) => Some(Call::Print { bytes }),
        None => None,
    }
}

/// The call of an act that is one.
fn call_of(act: Act) -> Option<Call> {
    match act {
        Act::Make => Some(Call::Make),
        Act::Destroy(on) => Some(Call::Destroy { on }),
        Act::Send => send(),
        Act::Receive => Some(Call::Receive { on: B }),
        Act::Cancel(on, way) => Some(Call::Cancel { on, way }),
        Act::Wait => Some(Call::Wait),
        Act::Print => print(),
        Act::Exit => Some(Call::Exit),
        Act::Take | Act::Stray(..) | Act::Look(_) => None,
    }
}

/// Lets an act happen, and adds what is told of it. Whether it could.
fn happens(node: &mut Node, text: &mut String, act: Act, p: Pid) -> bool {
    match act {
        Act::Take => node.take(text),
        Act::Stray(stamp, to, at) => {
            let (w, hops) = (3, 0);
            let what = What::Want { to, w, at, hops };
            node.take_this(text, Packet { stamp, what })
        }
        Act::Look(end) => node.tell_asked(text, end),
        _ => match call_of(act) {
            Some(call) => node.call(text, p, call),
            None => false,
        },
    }
}

fn gives(alloc: Global, node: &mut Node, (act, p, want): Row) -> bool {
    let mut text = String::new(alloc);
    happens(node, &mut text, act, p) && text.as_str() == want
}

fn each_gives(alloc: Global, node: &mut Node, rows: &[Row]) -> Result<(), Fail> {
    for row in rows {
        holds(gives(alloc, node, *row), row.2)?;
    }
    Ok(())
}

/// A message, these rows, and then those.
fn both_give(alloc: Global, node: &mut Node, second: &[Row], third: &[Row]) -> Result<(), Fail> {
    each_gives(alloc, node, A_MESSAGE)?;
    each_gives(alloc, node, second)?;
    each_gives(alloc, node, third)
}

/// A new node gives a message, these rows, and then those.
fn node_gives(alloc: Global, second: &[Row], third: &[Row]) -> Result<(), Fail> {
    let mut node = Node::start(alloc)?;
    both_give(alloc, &mut node, second, third)
}

/// So many links are made: with the wired one, process 0 has 81 ends.
const LINKS: u32 = 40;

/// Process 0 makes its links and exits: more packets tell of that than lie whole.
fn exits_with_many(alloc: Global, node: &mut Node) -> Result<(), Fail> {
    for _ in 0..LINKS {
        let mut text = String::new(alloc);
        holds(happens(node, &mut text, Act::Make, P0), "a link is made")?;
    }
    let mut text = String::new(alloc);
    holds(happens(node, &mut text, Act::Exit, P0), "it exits")
}

/// The opposite ends are told in the order of the ends: two of each link, behind that of the wired one.
fn told_in_order(node: &Node) -> Result<(), Fail> {
    holds(node.told_end(0) == Some(B), "the wired end")?;
    for n in 0..LINKS {
        let at = 2 * n as usize;
        let link = LinkId {
            maker: 0,
            count: n + 1,
        };
        let (a, b) = (Side::A, Side::B);
        let first = node.told_end(at + 1) == Some(EndId { link, side: b });
        let second = node.told_end(at + 2) == Some(EndId { link, side: a });
        holds(first && second, "two ends of a link")?;
    }
    holds(node.told_end(81).is_none(), "no other end")
}

#[test]
fn an_exit_tells_of_many_ends(rt: HostRuntime) -> Result<(), Fail> {
    let alloc = rt.alloc();
    let mut node = Node::start(alloc)?;
    exits_with_many(alloc, &mut node)?;
    told_in_order(&node)
}

#[test]
fn strays_are_dropped(rt: HostRuntime) -> Result<(), Fail> {
    node_gives(rt.alloc(), STRAYS, ENDS)
}

#[test]
fn calls_are_answered(rt: HostRuntime) -> Result<(), Fail> {
    node_gives(rt.alloc(), ANSWERS, CANCELS)
}
