//! Services that make the steps of a row.
ghost use Rattle.std.specs.Prelude.{IfSome};
ghost use Rattle.charlotte_calls.specs.Setting.{IsValid};

use charlotte_calls::{
    Bytes, Call, Cause, EndId, Ends, Items, LinkId, Outcome, Pid, Report, ServiceStep, Setting,
    Side, Way,
};
use link_service::{ApplyFault, Service};
use std::alloc::{AllocError, Global};
use std::test::Fail;

pub(crate) const P: Pid = Pid(0);

pub(crate) const Q: Pid = Pid(1);

/// Three links from process 0 to process 1, the next link, and one that comes later.
const FIRST: LinkId = LinkId { maker: 0, count: 0 };

const SECOND: LinkId = LinkId { maker: 0, count: 1 };

const THIRD: LinkId = LinkId { maker: 0, count: 2 };

const NEXT: LinkId = LinkId { maker: 0, count: 3 };

const AFTER: LinkId = LinkId { maker: 0, count: 4 };

/// Their ends: each end a is process 0's at the start, and each end b process 1's.
pub(crate) const A: EndId = EndId {
    link: FIRST,
    side: Side::A,
};

pub(crate) const B: EndId = EndId {
    link: FIRST,
    side: Side::B,
};

pub(crate) const C: EndId = EndId {
    link: SECOND,
    side: Side::A,
};

pub(crate) const D: EndId = EndId {
    link: SECOND,
    side: Side::B,
};

pub(crate) const E: EndId = EndId {
    link: THIRD,
    side: Side::A,
};

pub(crate) const F: EndId = EndId {
    link: THIRD,
    side: Side::B,
};

/// The ends of the next link, and one of the later.
pub(crate) const M: EndId = EndId {
    link: NEXT,
    side: Side::A,
};

pub(crate) const N: EndId = EndId {
    link: NEXT,
    side: Side::B,
};

pub(crate) const LATER: EndId = EndId {
    link: AFTER,
    side: Side::A,
};

/// A call that is refused.
#[derive(Clone, Copy)]
pub(crate) enum Ask {
    Make,
    Destroy(EndId),
    Send(EndId, &'static [EndId]),
    Receive(EndId),
    Cancel(EndId, Way),
    Wait,
    Exit,
}

/// A step. Each message has one and the same byte.
#[derive(Clone, Copy)]
pub(crate) enum Act {
    Makes(Pid, EndId, EndId),
    Refuses(Pid, Ask, Cause),
    Destroys(EndId),
    Sends(EndId, u32, &'static [EndId]),
    Receives(EndId),
    Cancels(EndId, Way),
    Waits(Pid),
    /// The report Done of a receive on B that took a message with these ends.
    Reports(Pid, &'static [EndId]),
    Exits(Pid),
    Matches(EndId, u32),
    Takes(EndId, u32, Pid, bool),
    Completes(EndId, u32),
    Withdraws(EndId),
    Frees(EndId),
    Notices(EndId, bool),
    Returns(EndId, u32, bool),
}

/// Fails the test, and tells what was looked at, unless this holds.
pub(crate) fn holds(is_so: bool, what: &str) -> Result<(), Fail> {
    if is_so { Ok(()) } else { Err(what.into()) }
}

/// Adds the words that hold.
pub(crate) fn push_words(
    text: &mut String,
    words: &[(bool, &'static str)],
) -> Result<(), AllocError> {
    for (is_so, word) in words {
        if *is_so {
            text.push_str(word)?;
        }
    }
    Ok(())
}

/// What a message of a row has: its byte, and its ends.
fn message(list: &[EndId]) -> Option<(Bytes, Ends)> {
    let Some(bytes) = Bytes::from_slice(b"x") else {
        return None;
    };
    match Ends::from_slice(list) {
        Some(ends) => Some((bytes, ends)),
        None => None,
    }
}

fn done(list: &[EndId]) -> Option<Report> {
    match message(list) {
        Some((bytes, enclosed)) => Some(Report {
            on: B,
            way: Way::Inward,
            outcome: Outcome::Done,
            bytes,
            enclosed,
        }),
        None => None,
    }
}

fn send_of(on: EndId, list: &[EndId]) -> Option<Call> {
    match message(list) {
        Some((bytes, enclose)) => Some(Call::Send { on, bytes, enclose }),
        None => None,
    }
}

fn call_of(ask: Ask) -> Option<Call> {
    match ask {
        Ask::Make => Some(Call::Make),
        Ask::Destroy(on) => Some(Call::Destroy { on }),
        Ask::Send(on, list) => send_of(on, list),
        Ask::Receive(on) => Some(Call::Receive { on }),
        Ask::Cancel(on, way) => Some(Call::Cancel { on, way }),
        Ask::Wait => Some(Call::Wait),
        Ask::Exit => Some(Call::Exit),
    }
}

/// A step that has a call, a message or a report.
fn long_step_of(act: Act) -> Option<ServiceStep> {
    match act {
        Act::Refuses(p, ask, cause) => match call_of(ask) {
            Some(call) => Some(ServiceStep::Refuse { p, call, cause }),
            None => None,
        },
        Act::Sends(on, n, list) => match message(list) {
            Some((bytes, enclose)) => Some(ServiceStep::Send {
                on,
                n,
                bytes,
                enclose,
            }),
            None => None,
        },
        Act::Reports(p, list) => match done(list) {
            Some(report) => Some(ServiceStep::Report { p, report }),
            None => None,
        },
        _ => None,
    }
}

fn step_of(act: Act) -> Option<ServiceStep> {
    Some(match act {
        Act::Makes(p, a, b) => ServiceStep::Make { p, a, b },
        Act::Destroys(on) => ServiceStep::Destroy { on },
        Act::Receives(on) => ServiceStep::Receive { on },
        Act::Cancels(on, way) => ServiceStep::Cancel { on, way },
        Act::Waits(p) => ServiceStep::Wait { p },
        Act::Exits(p) => ServiceStep::Exit { p },
        Act::Matches(on, n) => ServiceStep::Match { on, n },
        Act::Takes(on, n, p, late) => ServiceStep::Take { on, n, p, late },
        Act::Completes(on, n) => ServiceStep::Complete { on, n },
        Act::Withdraws(on) => ServiceStep::Withdraw { on },
        Act::Frees(on) => ServiceStep::Free { on },
        Act::Notices(on, dead) => ServiceStep::Notice { on, dead },
        Act::Returns(on, n, dead) => ServiceStep::Back { on, n, dead },
        Act::Refuses(..) | Act::Sends(..) | Act::Reports(..) => return long_step_of(act),
    })
}

/// Two processes on two kernels, and three links from the first to the second.
fn setting(alloc: Global, version: u8) -> Option<Setting>
    ensures { IfSome result (λ s. IsValid s) }
{
    let Ok(homes) = vec![in alloc; 0, 1] else {
        return None;
    };
    let Ok(wires) = vec![in alloc; (P, Q), (P, Q), (P, Q)] else {
        return None;
    };
    let setting = Setting {
        version,
        kernels: 2,
        homes: Items::of(homes),
        wires: Items::of(wires),
    };
    if setting.valid() { Some(setting) } else { None }
}

fn start(alloc: Global, version: u8) -> Option<Service> {
    let Some(setting) = setting(alloc, version) else {
        return None;
    };
    match Service::start(alloc, &setting) {
        Ok(service) => Some(service),
        Err(_) => None,
    }
}

/// Makes a step. The number of one that is not allowed; nothing where it could not be made.
fn step(service: &mut Service, act: Act) -> Option<Option<u8>> {
    let Some(step) = step_of(act) else {
        return None;
    };
    match service.apply(&step) {
        Ok(()) => Some(None),
        Err(ApplyFault::NotAllowed(number)) => Some(Some(number)),
        Err(ApplyFault::NoMemory) => None,
    }
}

/// Makes these steps. Whether each is allowed.
fn are_allowed(service: &mut Service, acts: &[Act]) -> bool {
    for act in acts {
        if !matches!(step(service, *act), Some(None)) {
            return false;
        }
    }
    true
}

/// Makes these steps. Whether each but the last is allowed, and the last is, or is not and of this number.
fn end_so(service: &mut Service, acts: &[Act], refused: Option<u8>) -> bool {
    let mut answer = None;
    for act in acts {
        let next = step(service, *act);
        match (answer, next) {
            (None, Some(next)) => answer = next,
            _ => return false,
        }
    }
    answer == refused
}

/// A new service that makes these steps, one list after the other. Each but the last is allowed; the last is allowed, or not and of this
/// number.
pub(crate) fn row(
    alloc: Global,
    version: u8,
    acts: (&[Act], &[Act]),
    refused: Option<u8>,
) -> Option<Service> {
    let Some(mut service) = start(alloc, version) else {
        return None;
    };
    if are_allowed(&mut service, acts.0) && end_so(&mut service, acts.1, refused) {
        Some(service)
    } else {
        None
    }
}
