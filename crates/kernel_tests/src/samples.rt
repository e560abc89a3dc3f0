//! The end on which the table and the cores are tried, how it begins, and what several tests use.
ghost use Rattle.std.specs.Prelude.{◌≡◌, IfOk};
ghost use Rattle.charlotte_packets.specs.Moving.{new_end};
ghost use Rattle.charlotte_calls.specs.declared.names.Side.TheVariants.{A};
ghost use Rattle.kernel_step.specs.Progress.{HasRoom};

use charlotte_calls::{Bytes, EndId, Ends, LinkId, NoMemory, Pid, Side};
use charlotte_packets::{Moving, PacketList, Room, Work};
use end_table::{HereView, Holder, Inward, NotStored, Outward, Table};
use kernel_step::{no_bytes, no_ends};
use std::alloc::Global;
use std::test::Fail;

/// The end on which the table and the cores are tried.
pub(crate) const END: EndId = EndId {
    link: LinkId { maker: 0, count: 7 },
    side: Side::A,
};

/// The process that owns it at first.
pub(crate) const OWNER: Pid = Pid(1);

/// Fails the test, and tells what was looked at, unless this holds.
pub(crate) fn holds(is_so: bool, what: &str) -> Result<(), Fail> {
    if is_so { Ok(()) } else { Err(what.into()) }
}

/// Room for any call of the cores.
pub(crate) const AMPLE: Room = Room {
    packets: 10,
    reports: 4,
    answers: 2,
    steps: 4,
};

/// Lists with ample room, at stamp 5.
pub(crate) fn ample(alloc: Global) -> Result<Work, NoMemory>
    ensures { IfOk result (λ w. HasRoom AMPLE w) }
{
    let mut packets = PacketList::new(alloc);
    packets.renew(AMPLE.packets as usize)?;
    Ok(Work {
        stamp: 5,
        packets,
        reports: Vec::with_capacity(alloc, AMPLE.reports as usize)?,
        answers: Vec::with_capacity(alloc, AMPLE.answers as usize)?,
        steps: Vec::with_capacity(alloc, AMPLE.steps as usize)?,
    })
}

/// End a of a link, whose opposite is at kernel 3.
pub(crate) fn end_a(link: LinkId) -> Moving
    ensures { result ≡ new_end (record { link = link; side = A }) 3 }
{
    let (a, b) = Moving::pair(link, 0, 3);
    b.destroy();
    a
}

/// End b of a link.
pub(crate) fn end_b(maker: u8, count: u32) -> Moving {
    let (a, b) = Moving::pair(LinkId { maker, count }, 1, 1);
    a.destroy();
    b
}

/// A message that tells a number.
pub(crate) fn message(n: u32) -> Option<(Bytes, Ends)> {
    match Bytes::from_slice(&n.to_le_bytes()) {
        Some(bytes) => Some((bytes, no_ends())),
        None => None,
    }
}

/// How the end begins: the receive of its opposite that asks it, or 0; its send; and its receive.
pub(crate) type Begin = (u32, Send, Inward);

/// A send that is not started, one that waits and encloses nothing, or one that is matched.
#[derive(Clone, Copy)]
pub(crate) enum Send {
    Idle,
    Waiting(u32),
    Matched(u32),
}

fn outward_of(send: Send) -> Outward {
    match send {
        Send::Idle => Outward::Idle,
        Send::Waiting(n) => Outward::Waiting {
            n,
            bytes: no_bytes(),
            enclosed: no_ends(),
        },
        Send::Matched(n) => Outward::Matched { n },
    }
}

/// The end at kernel 0 and owned; its opposite is at kernel 3.
fn view(begin: Begin) -> HereView
    ensures { result.value.end ≡ END }
{
    let (wanted, send, inward) = begin;
    let mut value = end_a(END.link).destroy().picture();
    value.want = wanted;
    HereView {
        value,
        holder: Holder::Owner(OWNER),
        outward: outward_of(send),
        inward,
    }
}

/// The table of kernel 0 with the end alone.
pub(crate) fn kept(alloc: Global, begin: Begin) -> Result<Table, NoMemory> {
    let mut table = Table::start(alloc, 0);
    match table.install(end_a(END.link), Holder::Owner(OWNER)) {
        Ok(()) => {}
        Err(NotStored { moving }) => {
            moving.destroy();
            return Err(NoMemory);
        }
    }
    table.change(END, view(begin));
    Ok(table)
}
