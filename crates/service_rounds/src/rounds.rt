//! Messages over links in turn: each is received for, sent, matched, taken and completed, and both its reports are given.

use crate::trouble::Trouble;
use charlotte_calls::{
    Bytes, EndId, Ends, Items, LinkId, Outcome, Pid, Report, ServiceStep, Setting, Side, Way,
};
use link_service::Service;
use std::alloc::Global;

/// The one process. It owns both ends of each link.
const P: Pid = Pid(0);

/// The steps of one message.
const STEPS_OF_A_ROUND: u32 = 9;

/// Makes the links, and then as many whole rounds over them in turn as have room in these steps; tells how many steps there were.
pub(crate) fn rounds(alloc: Global, links: u32, steps: u32) -> Result<u64, Trouble> {
    let mut service = service_of_one(alloc)?;
    for link in 0..links {
        service.apply(&ServiceStep::Make {
            p: P,
            a: end(link, Side::A),
            b: end(link, Side::B),
        })?;
    }
    let rounds = steps.saturating_sub(links) / STEPS_OF_A_ROUND;
    let mut link = 0;
    let mut number = 1;
    for _ in 0..rounds {
        round(&mut service, link, number)?;
        link = link.saturating_add(1);
        if link >= links {
            link = 0;
            number = number.saturating_add(1);
        }
    }
    Ok(u64::from(links) + u64::from(rounds) * u64::from(STEPS_OF_A_ROUND))
}

/// A service of one process on one kernel.
fn service_of_one(alloc: Global) -> Result<Service, Trouble> {
    let mut homes = Vec::new(alloc);
    homes.push(0).map_err(|_| Trouble::NoMemory)?;
    let setting = Setting {
        version: 1,
        kernels: 1,
        homes: Items::of(homes),
        wires: Items::of(Vec::new(alloc)),
    };
    if !setting.valid() {
        return Err(Trouble::Words);
    }
    Ok(Service::start(alloc, &setting)?)
}

fn end(link: u32, side: Side) -> EndId {
    EndId {
        link: LinkId {
            maker: 0,
            count: link,
        },
        side,
    }
}

/// The message `n` of a link, from its end a to its end b.
fn round(service: &mut Service, link: u32, n: u32) -> Result<(), Trouble> {
    let a = end(link, Side::A);
    let b = end(link, Side::B);
    service.apply(&ServiceStep::Receive { on: b })?;
    service.apply(&ServiceStep::Send {
        on: a,
        n,
        bytes: message()?,
        enclose: none()?,
    })?;
    service.apply(&ServiceStep::Match { on: a, n })?;
    service.apply(&ServiceStep::Take {
        on: a,
        n,
        p: P,
        late: false,
    })?;
    service.apply(&ServiceStep::Complete { on: a, n })?;
    reported(service, b, Way::Inward, message()?)?;
    reported(
        service,
        a,
        Way::Outward,
        Bytes::from_slice(b"").ok_or(Trouble::NoMemory)?,
    )
}

/// A Wait, and the report Done that answers it.
fn reported(service: &mut Service, on: EndId, way: Way, bytes: Bytes) -> Result<(), Trouble> {
    service.apply(&ServiceStep::Wait { p: P })?;
    service.apply(&ServiceStep::Report {
        p: P,
        report: Report {
            on,
            way,
            outcome: Outcome::Done,
            bytes,
            enclosed: none()?,
        },
    })?;
    Ok(())
}

/// A message of one byte.
fn message() -> Result<Bytes, Trouble> {
    Bytes::from_slice(b"x").ok_or(Trouble::NoMemory)
}

/// No ends.
fn none() -> Result<Ends, Trouble> {
    Ends::from_slice(&[]).ok_or(Trouble::NoMemory)
}
