//! Two kernels whose rings have room for one letter.

use crate::ports::Ports;
use crate::samples::{holds, is_got, packet, parcel};
use crate::threads::{Exchange, Share, across};
use kernel_net::Letter;
use std::test::Fail;

#[test]
fn a_port_learns_between_two_meetings(rt: HostRuntime) -> Result<(), Fail> {
    let mut ports = Ports::make(rt.alloc(), 2, 1)?;
    holds(ports.put(0, 1, packet(1)).is_ok(), "a first put")?;
    let Err(back) = ports.put(0, 1, packet(2)) else {
        return Err("a second put".into());
    };
    is_got(rt.alloc(), ports.get(1), 0, &packet(1))?;
    holds(ports.put(0, 1, back).is_ok(), "a put of what came back")?;
    is_got(rt.alloc(), ports.get(1), 0, &packet(2))?;
    holds(ports.get(1).is_none(), "nothing more")
}

#[test]
fn a_meeting_counts_what_is_there_and_frees_an_emptied_ring(rt: HostRuntime) -> Result<(), Fail> {
    let mut ports = Ports::make(rt.alloc(), 2, 1)?;
    for stamp in 0..100 {
        holds(ports.put(0, 1, packet(stamp)).is_ok(), "a put")?;
        holds(ports.put(1, 0, packet(stamp)).is_ok(), "a put back")?;
        holds(ports.put(1, 1, packet(stamp)).is_ok(), "a put to itself")?;
        holds(ports.meet(0, 1) == 2, "one each way")?;
        holds(ports.meet(1, 1) == 1, "one to itself")?;
        is_got(rt.alloc(), ports.get(0), 1, &packet(stamp))?;
        is_got(rt.alloc(), ports.get(1), 0, &packet(stamp))?;
        holds(ports.meet(0, 1) == 0, "none is left")?;
        is_got(rt.alloc(), ports.get(1), 1, &packet(stamp))?;
        holds(ports.meet(1, 1) == 0, "none is left to itself")?;
    }
    holds(ports.meet(0, 0) == 0, "none from kernel 0 to itself")
}

#[test]
fn a_letter_keeps_the_values_in_it(rt: HostRuntime) -> Result<(), Fail> {
    let mut ports = Ports::make(rt.alloc(), 2, 2)?;
    holds(ports.put(1, 0, parcel(7)?).is_ok(), "a put")?;
    holds(ports.put(1, 0, parcel(8)?).is_ok(), "another put")?;
    is_got(rt.alloc(), ports.get(0), 1, &parcel(7)?)
}

#[test]
fn the_first_marker_of_a_ring_and_the_last_stamp_are_put(rt: HostRuntime) -> Result<(), Fail> {
    let mut ports = Ports::make(rt.alloc(), 2, 2)?;
    let last = u64::MAX - 1;
    holds(ports.put(0, 1, Letter::Marker).is_ok(), "a marker")?;
    holds(ports.put(0, 1, packet(last)).is_ok(), "the last stamp")?;
    is_got(rt.alloc(), ports.get(1), 0, &Letter::Marker)?;
    is_got(rt.alloc(), ports.get(1), 0, &packet(last))?;
    holds(ports.put(0, 1, Letter::Marker).is_err(), "a second marker")?;
    holds(
        ports.put(0, 1, packet(last + 1)).is_err(),
        "the greatest stamp",
    )?;
    holds(ports.put(1, 0, Letter::Marker).is_ok(), "the other way")
}

#[test]
fn ports_put_and_get_in_threads_of_their_own_and_then_meet(rt: HostRuntime) -> Result<(), Fail> {
    let all = [
        Share {
            put: 10_000,
            got: 5_000,
        },
        Share {
            put: 5_000,
            got: 10_000,
        },
    ];
    holds(across(&rt, rt.alloc(), all)? == done(all, 0), "each is got")?;
    let some = [Share { put: 100, got: 47 }, Share { put: 50, got: 98 }];
    holds(
        across(&rt, rt.alloc(), some)? == done(some, 5),
        "five are there",
    )
}

/// Both shares were done, and so many letters are there.
fn done(shares: [Share; 2], there: u32) -> Exchange {
    let [first, second] = shares;
    Exchange {
        first,
        second,
        there,
    }
}
