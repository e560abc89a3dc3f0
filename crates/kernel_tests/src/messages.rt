//! Each call of `cancel_core` once. What follows from them is shown by the worked runs of .ci/rows/runs.
ghost use Rattle.end_table.specs.Table.{entries, IsHere};
ghost use Rattle.kernel_tests.specs.declared.samples.TheConstants.{AMPLE};
ghost use Rattle.kernel_step.specs.Enclosed.{IsReady};
ghost use Rattle.kernel_step.specs.Progress.{HasRoom};

use crate::samples::{Begin, END, Send, ample, holds, kept};
use crate::states::{is_posted, is_ready};
use crate::telling::is_told;
use cancel_core::{
    arrived, finished, notice, post, room, start_send, unwant, unwanted, want, withdraw_receive,
    withdraw_send,
};
use charlotte_packets::Work;
use end_table::{Inward, Table};
use kernel_step::{no_bytes, no_ends};
use std::alloc::Global;
use std::test::Fail;

/// A call on the end.
#[derive(Clone, Copy)]
enum Act {
    Post,
    Arrived,
    WithdrawReceive,
    Unwanted,
    StartSend,
    Want,
    Finished,
    WithdrawSend,
    Unwant,
    Notice,
}

/// How the end begins, the call, and what is told of the end and of what the call adds.
type Row = (Begin, Act, &'static str);

const ROWS: &[Row] = &[
    // The receive 1 asks the opposite end by a want.
    (
        (0, Send::Idle, Inward::Idle),
        Act::Post,
        "Owner(Pid(1)) Idle Posted { w: 1 }; to 3: Want { to: EndId { link: LinkId { maker: 0, count: 7 }, side: B }, w: 1, at: 0, hops: 0 }; 0 reports, 1 steps",
    ),
    // The message 4 is taken by the receive 1.
    (
        (0, Send::Idle, Inward::Posted { w: 1 }),
        Act::Arrived,
        "Owner(Pid(1)) Idle Unreported; to 3: Taken { to: EndId { link: LinkId { maker: 0, count: 7 }, side: B }, n: 4, at: 0, hops: 0 }; 1 reports, 1 steps",
    ),
    // The receive 1 is to be withdrawn.
    (
        (0, Send::Idle, Inward::Posted { w: 1 }),
        Act::WithdrawReceive,
        "Owner(Pid(1)) Idle Withdrawing { w: 1 }; to 3: Unwant { to: EndId { link: LinkId { maker: 0, count: 7 }, side: B }, w: 1, at: 0, hops: 0 }; 0 reports, 1 steps",
    ),
    // The receive 1 is withdrawn, and its Cancel is answered.
    (
        (0, Send::Idle, Inward::Withdrawing { w: 1 }),
        Act::Unwanted,
        "Owner(Pid(1)) Idle Idle; Pid(1) Ok; 0 reports, 1 steps",
    ),
    // A send waits where no receive has asked.
    (
        (0, Send::Idle, Inward::Idle),
        Act::StartSend,
        "Owner(Pid(1)) Waiting { n: 1, bytes: Short { items: [] }, enclosed: Short { items: [] } } Idle; 0 reports, 1 steps",
    ),
    // A want matches the send that waits.
    (
        (0, Send::Waiting(1), Inward::Idle),
        Act::Want,
        "Owner(Pid(1)) Matched { n: 1 } Idle; to 3: Parcel { to: EndId { link: LinkId { maker: 0, count: 7 }, side: B }, n: 1, w: 1, at: 0, hops: 0, bytes: Short { items: [] }, moving: Short { items: [] } }; 0 reports, 1 steps",
    ),
    // The message of a matched send was taken.
    (
        (0, Send::Matched(1), Inward::Idle),
        Act::Finished,
        "Owner(Pid(1)) Unreported Idle; 1 reports, 1 steps",
    ),
    // A send that waits is taken back.
    (
        (0, Send::Waiting(1), Inward::Idle),
        Act::WithdrawSend,
        "Owner(Pid(1)) Idle Idle; 0 reports, 1 steps",
    ),
    // The receive 1 of the opposite end is withdrawn here.
    (
        (1, Send::Idle, Inward::Idle),
        Act::Unwant,
        "Owner(Pid(1)) Idle Idle; to 3: Unwanted { to: EndId { link: LinkId { maker: 0, count: 7 }, side: B }, w: 1, at: 0, hops: 0 }; 0 reports, 1 steps",
    ),
    // The death of the link ends both activities.
    (
        (3, Send::Waiting(1), Inward::Withdrawing { w: 1 }),
        Act::Notice,
        "Owner(Pid(1)) Unreported Unreported; Pid(1) Refused(Dead); 2 reports, 0 steps",
    ),
];

/// Makes a call that is for any end. Whether the end is ready for it.
fn perform(table: &mut Table, act: Act, out: &mut Work) -> bool
    requires { HasRoom AMPLE out.old }
{
    match act {
        Act::Arrived => arrived(table, END, 4, 1, 3, 0, no_bytes(), no_ends(), out),
        Act::Unwanted => unwanted(table, END, 1, 3, 0, out),
        Act::Finished => finished(table, END, 1, 3, 0, out),
        Act::Unwant => unwant(table, END, 1, 3, 0, out),
        Act::WithdrawReceive if is_posted(table) => withdraw_receive(table, END, out),
        _ if is_ready(table) => perform_ready(table, act, out),
        _ => return false,
    }
    true
}

/// Makes a call for an end that is here.
fn perform_ready(table: &mut Table, act: Act, out: &mut Work)
    requires here { IsHere (entries table.old END) }
    requires ready { IsReady (entries table.old) END }
    requires room { HasRoom AMPLE out.old }
{
    match act {
        Act::Post => post(table, END, out),
        Act::StartSend => start_send(table, END, no_bytes(), no_ends(), out),
        Act::Want => want(table, END, 1, 3, 0, out),
        Act::WithdrawSend => withdraw_send(table, END, out),
        _ => notice(table, END, out),
    }
}

/// Makes a call. Whether this is told of the end and of what the call adds.
fn performed(alloc: Global, table: &mut Table, act: Act, want: &str) -> bool {
    let Ok(mut out) = ample(alloc) else {
        return false;
    };
    perform(table, act, &mut out) && is_told(alloc, table, END, &out, want)
}

fn gives(alloc: Global, (begin, act, want): Row) -> bool {
    let Ok(mut table) = kept(alloc, begin) else {
        return false;
    };
    performed(alloc, &mut table, act, want)
}

/// The room of an action on an end without a message.
fn room_is_ample(alloc: Global) -> bool {
    let Ok(table) = kept(alloc, (0, Send::Idle, Inward::Idle)) else {
        return false;
    };
    room(&table, END).packets == 10
}

#[test]
fn each_call_of_cancel_core(rt: HostRuntime) -> Result<(), Fail> {
    for row in ROWS {
        holds(gives(rt.alloc(), *row), row.2)?;
    }
    holds(room_is_ample(rt.alloc()), "the room of an action")
}
