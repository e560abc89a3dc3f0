//! Packets that name kernels. That their pictures have their fields is shown by each line of .ci/rows/runs on which a packet is taken.

use crate::samples::{holds, some_bytes};
use charlotte_calls::{EndId, LinkId, Side};
use charlotte_packets::{Cargo, Moving, Packet, What};
use std::test::Fail;

const TO: EndId = EndId {
    link: LinkId { maker: 1, count: 2 },
    side: Side::B,
};

/// A value whose hint names kernel 0 and then one with this hint and trail.
fn cargo(hint: u8, trail: u8) -> Cargo {
    let (first, mut second) = Moving::pair(TO.link, 0, 0);
    second.set_hint((hint, 0));
    second.set_trail(trail);
    let mut cargo = Cargo::empty();
    cargo.add(first);
    cargo.add(second);
    cargo
}

fn packet(what: What) -> Packet {
    Packet { stamp: 9, what }
}

fn parcel(at: u8, hint: u8, trail: u8) -> Result<Packet, Fail> {
    Ok(packet(What::Parcel {
        to: TO,
        n: 1,
        w: 2,
        at,
        hops: 4,
        bytes: some_bytes()?,
        moving: cargo(hint, trail),
    }))
}

fn back(hint: u8, trail: u8) -> Packet {
    packet(What::Back {
        to: TO,
        n: 1,
        moving: cargo(hint, trail),
    })
}

/// A packet of each kind; those below 8 name this kernel, and the others name none.
fn kind(number: u8, at: u8) -> Result<Packet, Fail> {
    let (to, w, n, hops) = (TO, 1, 2, 3);
    match number {
        0 => Ok(packet(What::Want { to, w, at, hops })),
        1 => Ok(packet(What::Unwant { to, w, at, hops })),
        2 => Ok(packet(What::Unwanted { to, w, at, hops })),
        3 => Ok(packet(What::Taken { to, n, at, hops })),
        4 => Ok(packet(What::Gone { to, at })),
        5 => Ok(packet(What::Moved { to, at, hops })),
        6 => parcel(at, 0, 0),
        7 => Ok(back(at, 0)),
        8 => Ok(packet(What::Known { to, hops })),
        9 => Ok(packet(What::Forget { to, hops })),
        _ => Ok(packet(What::GoneSeen { to })),
    }
}

/// Whether a packet names kernels that are there: a kernel, how many there are, and whether it is among them.
const OWN: &[(u8, u8, bool)] = &[(0, 1, true), (0, 0, false), (7, 8, true), (7, 7, false)];

fn is_addressed(number: u8, (at, kernels, want): (u8, u8, bool)) -> Result<(), Fail> {
    let addressed = kind(number, at)?.addressed(kernels);
    holds(
        addressed == want || number >= 8,
        "whether a packet names kernels that are there",
    )
}

/// The hint and the trail of a value, how many kernels there are, and whether it names only these.
const CARRIED: &[(u8, u8, u8, bool)] = &[
    (0, 0, 1, true),
    (2, 0, 2, false),
    (2, 0, 3, true),
    (0, 4, 2, false),
    (0, 4, 3, true),
    (0, 128, 7, false),
    (7, 255, 8, true),
];

fn carries_addressed((hint, trail, kernels, want): (u8, u8, u8, bool)) -> Result<(), Fail> {
    let returned = back(hint, trail).addressed(kernels);
    let sent = parcel(0, hint, trail)?.addressed(kernels);
    holds(
        (returned, sent) == (want, want),
        "whether a message names kernels that are there",
    )
}

#[test]
fn packets_name_kernels() -> Result<(), Fail> {
    for row in OWN {
        for number in 0..11 {
            is_addressed(number, *row)?;
        }
    }
    for row in CARRIED {
        carries_addressed(*row)?;
    }
    Ok(())
}
