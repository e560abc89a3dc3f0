//! The ends of two links, and each call of `service_links` on them.

use crate::service::{holds, push_words};
use charlotte_calls::{Bytes, Cause, EndId, Ends, LinkId, Pid, Side, Way};
use service_links::{
    KeptEnd, Letter, Links, cancel_cause, destroy_cause, receive_cause, send_cause,
};
use service_step::{Inward, Place};
use std::alloc::{AllocError, Global};
use std::fmt::Write;
use std::test::Fail;

const P0: Pid = Pid(0);

const P1: Pid = Pid(1);

const LINK: LinkId = LinkId { maker: 0, count: 0 };

/// Links of its maker before it are not made.
const OTHER: LinkId = LinkId { maker: 2, count: 3 };

/// An end of a link that is not made.
const NONE: EndId = EndId {
    link: LinkId { maker: 2, count: 1 },
    side: Side::B,
};

/// The ends of the first link.
const A: EndId = EndId {
    link: LINK,
    side: Side::A,
};

const B: EndId = EndId {
    link: LINK,
    side: Side::B,
};

/// The ends of the second link; the messages carry end a of it.
const C: EndId = EndId {
    link: OTHER,
    side: Side::A,
};

const D: EndId = EndId {
    link: OTHER,
    side: Side::B,
};

/// A call on the links. The messages are those of end A, and a receive is that of end B.
#[derive(Clone, Copy)]
enum Act {
    /// Nothing is called; an end is looked at.
    Look,
    /// The send of this number starts; its message carries C.
    StartSend(u32),
    /// Its message carries nothing.
    StartEmpty(u32),
    WithdrawSend,
    Post,
    MatchSend(u32),
    TakeMessage,
    FinishSend,
    Idle(Way, EndId),
    ReturnMessage,
    Notice(EndId),
    Destroy(EndId),
    DestroyEach(&'static [EndId]),
}

/// A call, an end, and what is told of it then: its place, its receive, the causes of a Cancel of its send by process 0 and of a
/// Receive on it by process 1, and which of the words of `words` hold.
type Row = (Act, EndId, &'static str);

/// The send 1 is taken back, and the send 2 is matched and taken.
const CARRIES: &[Row] = &[
    (
        Act::Look,
        A,
        "Owned(Pid(0)) Idle Some(NoActivity) Some(NoEnd) idle",
    ),
    (Act::Look, NONE, "Unmade"),
    (
        Act::StartSend(1),
        A,
        "Owned(Pid(0)) Idle None Some(NoEnd) active waiting",
    ),
    (
        Act::Look,
        C,
        "InMessage(EndId { link: LinkId { maker: 0, count: 0 }, side: A }, 1) Idle Some(NoEnd) Some(NoEnd) idle",
    ),
    (
        Act::WithdrawSend,
        C,
        "Owned(Pid(0)) Idle Some(NoActivity) Some(NoEnd) idle",
    ),
    (
        Act::Look,
        A,
        "Owned(Pid(0)) Idle Some(NoActivity) Some(NoEnd) idle",
    ),
    (
        Act::StartSend(2),
        A,
        "Owned(Pid(0)) Idle None Some(NoEnd) active waiting",
    ),
    (
        Act::Post,
        B,
        "Owned(Pid(1)) Posted Some(NoEnd) Some(Busy) active",
    ),
    (
        Act::MatchSend(2),
        A,
        "Owned(Pid(0)) Idle Some(Late) Some(NoEnd) active matched",
    ),
    (
        Act::Look,
        B,
        "Owned(Pid(1)) Matched(2) Some(NoEnd) Some(Busy) active",
    ),
    (
        Act::TakeMessage,
        A,
        "Owned(Pid(0)) Idle Some(Late) Some(NoEnd) active taken",
    ),
    (Act::Look, C, "Owned(Pid(1)) Idle Some(NoEnd) None idle"),
    (
        Act::FinishSend,
        A,
        "Owned(Pid(0)) Idle Some(Late) Some(NoEnd)",
    ),
    (
        Act::Idle(Way::Outward, A),
        A,
        "Owned(Pid(0)) Idle Some(NoActivity) Some(NoEnd) idle",
    ),
    (
        Act::Idle(Way::Inward, B),
        B,
        "Owned(Pid(1)) Idle Some(NoEnd) None idle",
    ),
];

/// A matched message comes back, the death of its link is noticed, and ends are destroyed.
const DIES: &[Row] = &[
    (
        Act::StartEmpty(3),
        A,
        "Owned(Pid(0)) Idle None Some(NoEnd) active",
    ),
    (
        Act::MatchSend(3),
        A,
        "Owned(Pid(0)) Idle Some(Late) Some(NoEnd) active",
    ),
    (
        Act::ReturnMessage,
        A,
        "Owned(Pid(0)) Idle Some(Dead) Some(NoEnd) noticed",
    ),
    (
        Act::Notice(D),
        D,
        "Owned(Pid(1)) Idle Some(NoEnd) Some(Dead) idle noticed",
    ),
    (Act::Destroy(A), A, "Destroyed"),
    (Act::DestroyEach(&[B, C]), B, "Destroyed"),
    (Act::Look, C, "Destroyed"),
];

/// The send `n` of end A is started, with a message that carries these ends.
fn starts(alloc: Global, links: &mut Links, n: u32, carried: &[EndId]) -> bool {
    let Some(bytes) = Bytes::from_slice(b"hi") else {
        return false;
    };
    let Some(ends) = Ends::from_slice(carried) else {
        return false;
    };
    let Ok(letter) = Letter::of(alloc, &bytes, &ends) else {
        return false;
    };
    links.start_send(A, n, letter, ends.as_slice());
    true
}

/// The message of end A is taken, and carries C.
fn takes(links: &mut Links) -> bool {
    match links.take_message(A, P1) {
        Some(letter) => letter.enclosed() == [C].as_slice(),
        None => false,
    }
}

/// Both links are made: process 0 owns their ends a, process 1 their ends b.
fn made(alloc: Global) -> Result<Links, Fail> {
    let mut links = Links::empty(alloc);
    links.add(LINK, (P0, P1))?;
    links.add(OTHER, (P0, P1))?;
    Ok(links)
}

/// Makes a call. Whether it could be made.
fn perform(alloc: Global, links: &mut Links, act: Act) -> bool {
    match act {
        Act::Look => {}
        Act::StartSend(n) => return starts(alloc, links, n, &[C]),
        Act::StartEmpty(n) => return starts(alloc, links, n, &[]),
        Act::WithdrawSend => links.withdraw_send(P0, A),
        Act::Post => links.turn_inward(Inward::Posted, B),
        Act::MatchSend(n) => links.match_send(A, n),
        Act::TakeMessage => return takes(links),
        Act::FinishSend => links.finish_send(A),
        Act::Idle(way, e) => links.idle(way, e),
        Act::ReturnMessage => links.return_message(A),
        Act::Notice(e) => links.notice(e),
        Act::Destroy(e) => links.destroy(e),
        Act::DestroyEach(ends) => links.destroy_each(P1, ends),
    }
    true
}

/// What holds of an end, in words.
fn words(end: &KeptEnd) -> [(bool, &'static str); 6] {
    [
        (end.is_idle(), " idle"),
        (end.is_active(), " active"),
        (end.waiting_ends().as_slice() == [C].as_slice(), " waiting"),
        (end.matched_ends().as_slice() == [C].as_slice(), " matched"),
        (end.is_taken(), " taken"),
        (end.noticed(), " noticed"),
    ]
}

fn push_end(text: &mut String, links: &Links, e: EndId) -> Result<(), AllocError> {
    let end = links.look(e);
    if end.place().is_destroyed() {
        return text.push_str("Destroyed");
    }
    if !end.place().is_made() {
        return text.push_str("Unmade");
    }
    let cancel = cancel_cause(links, P0, e, Way::Outward);
    let receive = receive_cause(links, P1, e);
    let (place, inward) = (end.place(), end.inward());
    write!(text, "{place:?} {inward:?} {cancel:?} {receive:?}")?;
    push_words(text, &words(&end))
}

/// Makes a call. Whether this is told then.
fn gives(alloc: Global, links: &mut Links, (act, e, want): Row) -> bool {
    let mut text = String::new(alloc);
    perform(alloc, links, act) && push_end(&mut text, links, e).is_ok() && text.as_str() == want
}

fn each_gives(alloc: Global, links: &mut Links, rows: &[Row]) -> Result<(), Fail> {
    for row in rows {
        holds(gives(alloc, links, *row), row.2)?;
    }
    Ok(())
}

#[test]
fn each_call_of_service_links(rt: HostRuntime) -> Result<(), Fail> {
    let mut links = made(rt.alloc())?;
    each_gives(rt.alloc(), &mut links, CARRIES)?;
    each_gives(rt.alloc(), &mut links, DIES)
}

/// Nothing is refused but what is not a process's own.
#[test]
fn ends_are_refused_to_others(rt: HostRuntime) -> Result<(), Fail> {
    let links = made(rt.alloc())?;
    let destroys = (destroy_cause(&links, P0, A), destroy_cause(&links, P1, A));
    let sends = (
        send_cause(&links, P0, A, &[C]),
        send_cause(&links, P0, A, &[D]),
    );
    holds(
        destroys == (None, Some(Cause::NoEnd)) && sends == (None, Some(Cause::EncloseNoEnd)),
        "the causes of a Destroy and of a Send",
    )
}
