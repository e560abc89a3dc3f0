//! The table of steps. A row has the steps before, its own steps, and the number of the last where that is not allowed.

use crate::service::Act::{
    Cancels, Completes, Destroys, Exits, Frees, Makes, Matches, Notices, Receives, Refuses,
    Reports, Returns, Sends, Takes, Waits, Withdraws,
};
use crate::service::{A, Act, Ask, B, C, D, E, F, LATER, M, N, P, Q, holds, row};
use charlotte_calls::Cause::{
    Busy, Dead, EncloseBusy, EncloseNoEnd, EncloseSame, EncloseTwice, Late, LinksFull, NoActivity,
    NoEnd,
};
use charlotte_calls::Way::{Inward, Outward};
use charlotte_calls::{EndId, Pid};
use link_service::Place;
use std::alloc::Global;
use std::test::Fail;

const NOTHING: &[Act] = &[];

/// The send of A waits; its message carries C.
const SENT: &[Act] = &[Sends(A, 1, &[C])];

/// The message of A, which carries C, is matched with the receive of B.
const MATCHED: &[Act] = &[Receives(B), Sends(A, 1, &[C]), Matches(A, 1)];

/// It was taken.
const TAKEN: &[Act] = &[
    Receives(B),
    Sends(A, 1, &[C]),
    Matches(A, 1),
    Takes(A, 1, Q, false),
];

/// And its receiver waits for the report.
const REPORTED: &[Act] = &[
    Receives(B),
    Sends(A, 1, &[C]),
    Matches(A, 1),
    Takes(A, 1, Q, false),
    Waits(Q),
];

/// The first process waits.
const WAITING: &[Act] = &[Receives(A), Waits(P)];

/// The receive of B is being cancelled.
const CANCELLED: &[Act] = &[Receives(B), Cancels(B, Inward)];

/// And it was taken back.
const WITHDRAWN: &[Act] = &[Receives(B), Cancels(B, Inward), Withdraws(B)];

/// The death of the first link was noticed at A.
const DEAD: &[Act] = &[Destroys(B), Notices(A, false)];

type Row = (&'static [Act], &'static [Act], Option<u8>);

/// The steps that a process makes by a call.
const CALLS: &[Row] = &[
    (NOTHING, &[Makes(P, M, N)], None),
    (NOTHING, &[Makes(P, LATER, N)], Some(1)),
    (NOTHING, &[Makes(Q, M, N)], Some(1)),
    (NOTHING, &[Makes(P, N, M)], Some(1)),
    (NOTHING, &[Makes(P, M, D)], Some(1)),
    (NOTHING, &[Makes(Pid(2), M, N)], Some(1)),
    (NOTHING, &[Exits(P), Makes(P, M, N)], Some(1)),
    (NOTHING, &[Refuses(P, Ask::Destroy(B), NoEnd)], None),
    (NOTHING, &[Refuses(P, Ask::Wait, NoActivity)], None),
    (
        NOTHING,
        &[Receives(A), Refuses(P, Ask::Receive(A), Busy)],
        None,
    ),
    (SENT, &[Refuses(P, Ask::Send(A, &[]), Busy)], None),
    (
        NOTHING,
        &[Refuses(P, Ask::Send(A, &[D]), EncloseNoEnd)],
        None,
    ),
    (
        NOTHING,
        &[Receives(C), Refuses(P, Ask::Send(A, &[C]), EncloseBusy)],
        None,
    ),
    (
        NOTHING,
        &[Refuses(P, Ask::Send(A, &[A]), EncloseSame)],
        None,
    ),
    (
        NOTHING,
        &[Refuses(P, Ask::Send(A, &[C, C]), EncloseTwice)],
        None,
    ),
    (
        NOTHING,
        &[Refuses(P, Ask::Cancel(A, Outward), NoActivity)],
        None,
    ),
    (MATCHED, &[Refuses(P, Ask::Cancel(A, Outward), Late)], None),
    (TAKEN, &[Refuses(Q, Ask::Cancel(B, Inward), Late)], None),
    (DEAD, &[Refuses(P, Ask::Cancel(A, Outward), Dead)], None),
    (NOTHING, &[Refuses(P, Ask::Make, LinksFull)], Some(2)),
    (NOTHING, &[Refuses(P, Ask::Exit, NoEnd)], Some(2)),
    (NOTHING, &[Refuses(P, Ask::Destroy(A), NoEnd)], Some(2)),
    (NOTHING, &[Refuses(P, Ask::Destroy(B), Dead)], Some(2)),
    (NOTHING, &[Refuses(P, Ask::Wait, NoEnd)], Some(2)),
    (
        NOTHING,
        &[Receives(A), Refuses(P, Ask::Wait, NoActivity)],
        Some(2),
    ),
    (
        NOTHING,
        &[Exits(P), Refuses(P, Ask::Destroy(B), NoEnd)],
        Some(2),
    ),
    (SENT, &[Destroys(A)], None),
    (NOTHING, &[Destroys(M)], Some(3)),
    (NOTHING, &[Destroys(A), Destroys(A)], Some(3)),
    (SENT, &[Destroys(C)], Some(3)),
    (WAITING, &[Destroys(A)], Some(3)),
    (NOTHING, &[Sends(A, 1, &[C])], None),
    (SENT, &[Cancels(A, Outward), Sends(A, 2, &[C])], None),
    (NOTHING, &[Sends(A, 2, &[])], Some(4)),
    (NOTHING, &[Sends(A, 0, &[])], Some(4)),
    (SENT, &[Sends(A, 2, &[])], Some(4)),
    (DEAD, &[Sends(A, 1, &[])], Some(4)),
    (NOTHING, &[Sends(A, 1, &[D])], Some(4)),
    (NOTHING, &[Receives(C), Sends(A, 1, &[C])], Some(4)),
    (NOTHING, &[Sends(A, 1, &[A])], Some(4)),
    (NOTHING, &[Sends(A, 1, &[C, E])], Some(4)),
    (NOTHING, &[Sends(M, 1, &[])], Some(4)),
    (WAITING, &[Sends(A, 1, &[])], Some(4)),
    (NOTHING, &[Receives(A)], None),
    (NOTHING, &[Receives(M)], Some(5)),
    (NOTHING, &[Receives(A), Receives(A)], Some(5)),
    (DEAD, &[Receives(A)], Some(5)),
    (WAITING, &[Receives(C)], Some(5)),
    (SENT, &[Cancels(A, Outward)], None),
    (NOTHING, &[Receives(B), Cancels(B, Inward)], None),
    (MATCHED, &[Cancels(B, Inward)], None),
    (NOTHING, &[Cancels(A, Outward)], Some(6)),
    (NOTHING, &[Cancels(A, Inward)], Some(6)),
    (NOTHING, &[Cancels(M, Inward)], Some(6)),
    (MATCHED, &[Cancels(A, Outward)], Some(6)),
    (CANCELLED, &[Cancels(B, Inward)], Some(6)),
    (
        SENT,
        &[Destroys(B), Notices(A, false), Cancels(A, Outward)],
        Some(6),
    ),
    (NOTHING, &[Receives(A), Waits(P)], None),
    (SENT, &[Destroys(B), Notices(A, false), Waits(P)], None),
    (NOTHING, &[Waits(P)], Some(7)),
    (SENT, &[Cancels(A, Outward), Waits(P)], Some(7)),
    (NOTHING, &[Receives(A), Destroys(A), Waits(P)], Some(7)),
    (WAITING, &[Waits(P)], Some(7)),
    (REPORTED, &[Reports(Q, &[C])], None),
    (REPORTED, &[Reports(Q, &[C]), Receives(B)], None),
    (TAKEN, &[Reports(Q, &[C])], Some(8)),
    (REPORTED, &[Reports(Q, &[])], Some(8)),
    (REPORTED, &[Reports(Q, &[C]), Reports(Q, &[C])], Some(8)),
    (NOTHING, &[Receives(B), Waits(Q), Reports(Q, &[])], Some(8)),
    (NOTHING, &[Exits(P)], None),
    (NOTHING, &[Exits(P), Exits(P)], Some(9)),
    (WAITING, &[Exits(P)], Some(9)),
    (NOTHING, &[Exits(Pid(2))], Some(9)),
];

/// The steps that come by themselves.
const EVENTS: &[Row] = &[
    (
        NOTHING,
        &[Receives(B), Sends(A, 1, &[]), Matches(A, 1)],
        None,
    ),
    (
        NOTHING,
        &[Receives(B), Destroys(B), Sends(A, 1, &[]), Matches(A, 1)],
        None,
    ),
    (NOTHING, &[Receives(B), Matches(A, 0)], Some(10)),
    (SENT, &[Matches(A, 1)], Some(10)),
    (
        NOTHING,
        &[Receives(B), Sends(A, 1, &[]), Matches(A, 2)],
        Some(10),
    ),
    (
        NOTHING,
        &[
            Receives(B),
            Sends(A, 1, &[]),
            Destroys(B),
            Notices(A, false),
            Matches(A, 1),
        ],
        Some(10),
    ),
    (MATCHED, &[Takes(A, 1, Q, false)], None),
    (MATCHED, &[Cancels(B, Inward), Takes(A, 1, Q, true)], None),
    (NOTHING, &[Takes(A, 1, Q, false)], Some(11)),
    (
        MATCHED,
        &[Cancels(B, Inward), Takes(A, 1, Q, false)],
        Some(11),
    ),
    (MATCHED, &[Takes(A, 1, Q, true)], Some(11)),
    (MATCHED, &[Takes(A, 2, Q, false)], Some(11)),
    (MATCHED, &[Takes(A, 1, P, false)], Some(11)),
    (MATCHED, &[Destroys(B), Takes(A, 1, Q, false)], Some(11)),
    (
        MATCHED,
        &[Destroys(A), Notices(B, false), Takes(A, 1, Q, false)],
        Some(11),
    ),
    (TAKEN, &[Completes(A, 1)], None),
    (MATCHED, &[Completes(A, 1)], Some(12)),
    (TAKEN, &[Completes(A, 2)], Some(12)),
    (TAKEN, &[Destroys(A), Completes(A, 1)], Some(12)),
    (CANCELLED, &[Withdraws(B)], None),
    (NOTHING, &[Receives(B), Withdraws(B)], Some(13)),
    (WITHDRAWN, &[Withdraws(B)], Some(13)),
    (WITHDRAWN, &[Frees(B)], None),
    (WITHDRAWN, &[Frees(B), Receives(B)], None),
    (CANCELLED, &[Frees(B)], Some(14)),
    (WITHDRAWN, &[Frees(B), Frees(B)], Some(14)),
    (NOTHING, &[Destroys(B), Notices(A, false)], None),
    (CANCELLED, &[Destroys(A), Notices(B, true)], None),
    (CANCELLED, &[Destroys(A), Notices(B, true), Exits(Q)], None),
    (CANCELLED, &[Destroys(A), Notices(B, false)], Some(15)),
    (NOTHING, &[Notices(A, false)], Some(15)),
    (NOTHING, &[Destroys(B), Notices(A, true)], Some(15)),
    (DEAD, &[Notices(A, false)], Some(15)),
    (
        NOTHING,
        &[Destroys(B), Destroys(A), Notices(A, false)],
        Some(15),
    ),
    (MATCHED, &[Destroys(B), Returns(A, 1, false)], None),
    (
        MATCHED,
        &[Destroys(B), Destroys(A), Returns(A, 1, false)],
        None,
    ),
    (
        MATCHED,
        &[Destroys(B), Notices(A, false), Returns(A, 1, false)],
        None,
    ),
    (
        NOTHING,
        &[
            Receives(A),
            Receives(B),
            Sends(A, 1, &[C]),
            Matches(A, 1),
            Destroys(B),
            Cancels(A, Inward),
            Returns(A, 1, true),
        ],
        None,
    ),
    (MATCHED, &[Returns(A, 1, false)], Some(16)),
    (MATCHED, &[Destroys(B), Returns(A, 2, false)], Some(16)),
    (MATCHED, &[Destroys(B), Returns(A, 1, true)], Some(16)),
    (SENT, &[Destroys(B), Returns(A, 1, false)], Some(16)),
];

/// In version 2 a message carries more ends than one, each once.
const IN_VERSION_2: &[Row] = &[
    (NOTHING, &[Sends(A, 1, &[C, E])], None),
    (NOTHING, &[Sends(A, 1, &[C, C])], Some(4)),
];

type At = (&'static [Act], &'static [Act], EndId, Place);

/// Where an end is after these steps, each of which is allowed.
const PLACES: &[At] = &[
    (NOTHING, &[], A, Place::Owned(P)),
    (NOTHING, &[], F, Place::Owned(Q)),
    (NOTHING, &[], M, Place::Unmade),
    (NOTHING, &[Makes(P, M, N)], N, Place::Owned(P)),
    (NOTHING, &[Makes(P, M, N)], LATER, Place::Unmade),
    (NOTHING, &[Sends(A, 1, &[C])], C, Place::InMessage(A, 1)),
    (SENT, &[Destroys(A)], A, Place::Destroyed),
    (SENT, &[Destroys(A)], C, Place::Destroyed),
    (SENT, &[Cancels(A, Outward)], C, Place::Owned(P)),
    (SENT, &[Exits(P)], C, Place::Destroyed),
    (SENT, &[Exits(P)], E, Place::Destroyed),
    (SENT, &[Exits(P)], B, Place::Owned(Q)),
    (MATCHED, &[Takes(A, 1, Q, false)], C, Place::Owned(Q)),
    (SENT, &[Destroys(B), Notices(A, false)], C, Place::Owned(P)),
    (
        MATCHED,
        &[Destroys(B), Returns(A, 1, false)],
        C,
        Place::Owned(P),
    ),
    (
        MATCHED,
        &[Destroys(B), Destroys(A), Returns(A, 1, false)],
        C,
        Place::Destroyed,
    ),
];

/// Whether the steps of a row are allowed, or not, so.
fn is_row(alloc: Global, version: u8, (before, acts, refused): Row) -> bool {
    row(alloc, version, (before, acts), refused).is_some()
}

fn are_rows(alloc: Global, version: u8, rows: &[Row]) -> Result<(), Fail> {
    for row in rows {
        holds(is_row(alloc, version, *row), "the answers to the steps")?;
    }
    Ok(())
}

#[test]
fn each_call_is_allowed_or_not(rt: HostRuntime) -> Result<(), Fail> {
    are_rows(rt.alloc(), 1, CALLS)
}

#[test]
fn each_event_is_allowed_or_not(rt: HostRuntime) -> Result<(), Fail> {
    are_rows(rt.alloc(), 1, EVENTS)
}

#[test]
fn each_message_of_version_2_is_allowed_or_not(rt: HostRuntime) -> Result<(), Fail> {
    are_rows(rt.alloc(), 2, IN_VERSION_2)
}

const TAKE: &[Row] = &[(NOTHING, &[Takes(A, 1, Q, false)], Some(11))];

#[test]
fn a_take_at_the_start_is_not_allowed(rt: HostRuntime) -> Result<(), Fail> {
    are_rows(rt.alloc(), 1, TAKE)
}

fn is_at(alloc: Global, (before, acts, end, place): At) -> bool {
    match row(alloc, 1, (before, acts), None) {
        Some(service) => service.place(end) == place,
        None => false,
    }
}

#[test]
fn each_end_is_at_its_place(rt: HostRuntime) -> Result<(), Fail> {
    for row in PLACES {
        holds(is_at(rt.alloc(), *row), "the place of an end")?;
    }
    Ok(())
}
