//! What is told of an end and of what a call adds.

use charlotte_calls::{Answer, EndId, Pid};
use charlotte_packets::{Packet, Work};
use end_table::{Lent, Table};
use std::alloc::{AllocError, Global};
use std::fmt::Write;

/// What the table tells of an end: of one that is here its holder and its activities.
fn push_end(text: &mut String, table: &Table, end: EndId) -> Result<(), AllocError> {
    match table.lend(end) {
        Lent::Nothing => text.push_str("nothing"),
        Lent::Left { to, hops } => write!(text, "left to {to}, hops {hops}"),
        Lent::Destroyed(_) => text.push_str("destroyed"),
        Lent::Here(_) => {
            let view = table.view(end);
            let (holder, outward, inward) = (view.holder, &view.outward, view.inward);
            write!(text, "{holder:?} {outward:?} {inward:?}")
        }
    }
}

/// The packets and the answers that were added, and how many reports and steps.
fn push_work(text: &mut String, out: &Work) -> Result<(), AllocError> {
    for (to, packet) in out.packets.lent() {
        push_packet(text, *to, packet, out.stamp)?;
    }
    for (p, answer) in &out.answers {
        push_answer(text, *p, answer)?;
    }
    write!(
        text,
        "; {} reports, {} steps",
        out.reports.len(),
        out.steps.len()
    )
}

fn push_packet(text: &mut String, to: u8, packet: &Packet, stamp: u64) -> Result<(), AllocError> {
    if packet.stamp != stamp {
        text.push_str("another stamp")?;
    }
    write!(text, "; to {to}: {:?}", packet.picture().what)
}

fn push_answer(text: &mut String, p: Pid, answer: &Answer) -> Result<(), AllocError> {
    write!(text, "; {p:?} {answer:?}")
}

/// Whether the text of both is this.
pub(crate) fn is_told(alloc: Global, table: &Table, end: EndId, out: &Work, want: &str) -> bool {
    let mut text = String::new(alloc);
    push_end(&mut text, table, end).is_ok()
        && push_work(&mut text, out).is_ok()
        && text.as_str() == want
}
