//! Links that are made by many processes, and destroyed as these exit.

use crate::trouble::Trouble;
use charlotte_calls::{EndId, Items, LinkId, Pid, ServiceStep, Setting, Side};
use link_service::Service;
use std::alloc::Global;

const PROCESSES: u16 = 64;

const KERNELS: u16 = 8;

/// Each process makes as many links as have room in these steps, and then exits; tells how many steps there were. At most 65,536 links
/// come from one kernel.
pub(crate) fn exits(alloc: Global, steps: u32) -> Result<u64, Trouble> {
    let mut service = service_of_many(alloc)?;
    let links = (steps / u32::from(PROCESSES)).saturating_sub(1).min(8_192);
    for p in 0..PROCESSES {
        let first = u32::from(p / KERNELS).saturating_mul(links);
        lives(&mut service, Pid(p), (p % KERNELS) as u8, first, links)?;
    }
    Ok(u64::from(PROCESSES) * (u64::from(links) + 1))
}

/// A process makes links from this number on, and exits.
fn lives(service: &mut Service, p: Pid, maker: u8, first: u32, links: u32) -> Result<(), Trouble> {
    for made in 0..links {
        let link = LinkId {
            maker,
            count: first.saturating_add(made),
        };
        service.apply(&ServiceStep::Make {
            p,
            a: EndId {
                link,
                side: Side::A,
            },
            b: EndId {
                link,
                side: Side::B,
            },
        })?;
    }
    service.apply(&ServiceStep::Exit { p })?;
    Ok(())
}

/// A service of 64 processes on eight kernels.
fn service_of_many(alloc: Global) -> Result<Service, Trouble> {
    let mut homes = Vec::new(alloc);
    for p in 0..PROCESSES {
        homes
            .push((p % KERNELS) as u8)
            .map_err(|_| Trouble::NoMemory)?;
    }
    let setting = Setting {
        version: 1,
        kernels: KERNELS as u8,
        homes: Items::of(homes),
        wires: Items::of(Vec::new(alloc)),
    };
    if !setting.valid() {
        return Err(Trouble::Words);
    }
    Ok(Service::start(alloc, &setting)?)
}
