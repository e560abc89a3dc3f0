//! Service lines and packets: those with several ends or values, the greatest numbers, and one of each kind, copied. Other forms of
//! them are shown by the worked runs of .ci/rows/runs.

use crate::journals::{asked, ends, holds, same_lines, text};
use charlotte_calls::{Call, Cause, EndId, LinkId, Outcome, Pid, Report, ServiceStep, Side, Way};
use charlotte_packets::{CargoPicture, MovingPicture, Picture, PictureWhat};
use compact_calls::{CompactPicture, CompactStep};
use journal_text::{Placed, print_entry, print_picture};
use std::alloc::Global;
use std::test::Fail;

const A: EndId = EndId {
    link: LinkId { maker: 0, count: 1 },
    side: Side::A,
};

const B: EndId = EndId {
    link: LinkId {
        maker: 12,
        count: 345,
    },
    side: Side::B,
};

fn value(dead: bool) -> MovingPicture {
    MovingPicture {
        end: B,
        hops: 1,
        hint: (2, 3),
        sent: 4,
        asked: 5,
        served: 6,
        want: 7,
        dead,
        trail: 255,
    }
}

/// A step of each kind, and its line.
fn step(number: u8) -> Result<(ServiceStep, &'static str), Fail> {
    let (on, n, p, way) = (A, 2, Pid(1), Way::Outward);
    let (call, cause, late, dead) = (Call::Make, Cause::NoEnd, true, true);
    Ok(match number {
        0 => (ServiceStep::Make { p, a: A, b: B }, ". make 0.1a 12.345b\n"),
        1 => (
            ServiceStep::Refuse { p, call, cause },
            ". refuse p1 NoEnd\n",
        ),
        2 => (ServiceStep::Destroy { on: B }, ". destroy 12.345b\n"),
        3 => (ServiceStep::Receive { on }, ". receive 0.1a\n"),
        4 => (ServiceStep::Cancel { on, way }, ". cancel 0.1a out\n"),
        5 => (ServiceStep::Wait { p: Pid(9) }, ". wait p9\n"),
        6 => (ServiceStep::Exit { p: Pid(10) }, ". exit p10\n"),
        7 => (ServiceStep::Match { on, n }, ". match 0.1a 2\n"),
        8 => (
            ServiceStep::Take { on, n, p, late },
            ". take 0.1a 2 p1 late\n",
        ),
        9 => (ServiceStep::Complete { on, n }, ". complete 0.1a 2\n"),
        10 => (ServiceStep::Withdraw { on }, ". withdraw 0.1a\n"),
        11 => (ServiceStep::Free { on }, ". free 0.1a\n"),
        12 => (ServiceStep::Notice { on, dead }, ". notice 0.1a dead\n"),
        13 => (ServiceStep::Back { on, n, dead }, ". back 0.1a 2 dead\n"),
        14 => (send()?, ". send 0.1a 7 +0.1a +12.345b\n"),
        _ => (report()?, ". report p3 0.1a in done a%20b +12.345b +0.1a\n"),
    })
}

fn send() -> Result<ServiceStep, Fail> {
    Ok(ServiceStep::Send {
        on: A,
        n: 7,
        bytes: text(b"x")?,
        enclose: ends(&[A, B])?,
    })
}

fn report() -> Result<ServiceStep, Fail> {
    Ok(ServiceStep::Report {
        p: Pid(3),
        report: Report {
            on: A,
            way: Way::Inward,
            outcome: Outcome::Done,
            bytes: text(b"a b")?,
            enclosed: ends(&[B, A])?,
        },
    })
}

/// A packet of each kind, and its text.
fn packet(number: u8) -> Result<(PictureWhat, &'static str), Fail> {
    let (to, w, n, at, hops) = (A, 1, 1, 2, 3);
    Ok(match number {
        0 => (PictureWhat::Want { to, w, at, hops }, "want 0.1a 1 2 3"),
        1 => (PictureWhat::Unwant { to, w, at, hops }, "unwant 0.1a 1 2 3"),
        2 => (
            PictureWhat::Unwanted { to, w, at, hops },
            "unwanted 0.1a 1 2 3",
        ),
        3 => (PictureWhat::Taken { to, n, at, hops }, "taken 0.1a 1 2 3"),
        4 => (PictureWhat::Moved { to, at, hops }, "moved 0.1a 2 3"),
        5 => (PictureWhat::Known { to, hops }, "known 0.1a 3"),
        6 => (PictureWhat::Forget { to, hops }, "forget 0.1a 3"),
        7 => (PictureWhat::GoneSeen { to }, "goneseen 0.1a"),
        8 => (PictureWhat::Gone { to: B, at }, "gone 12.345b 2"),
        9 => (back()?, "back 0.1a 1 +12.345b:1:2:3:4:5:6:7:1:255"),
        _ => (
            parcel()?,
            "parcel 0.1a 1 2 3 4 %00%7E +12.345b:1:2:3:4:5:6:7:0:255 +12.345b:1:2:3:4:5:6:7:1:255",
        ),
    })
}

fn back() -> Result<PictureWhat, Fail> {
    Ok(PictureWhat::Back {
        to: A,
        n: 1,
        moving: CargoPicture::from_slice(&[value(true)]).ok_or("values")?,
    })
}

fn parcel() -> Result<PictureWhat, Fail> {
    Ok(PictureWhat::Parcel {
        to: A,
        n: 1,
        w: 2,
        at: 3,
        hops: 4,
        bytes: text(b"\x00~")?,
        moving: CargoPicture::from_slice(&[value(false), value(true)]).ok_or("values")?,
    })
}

/// A step has its line, also where it takes only the memory of what it says.
fn has_line(alloc: Global, number: u8) -> Result<(), Fail> {
    let (step, line) = step(number)?;
    let compact = CompactStep::of(alloc, &step)?.copy(alloc)?;
    let entry = asked(alloc, u64::MAX, 63, &Call::Make, &[compact.step()])?;
    let printed = print_entry(alloc, &Placed { kernel: 7, entry })?;
    same_lines(&printed, &["18446744073709551615 k7 p63 make\n", line])
}

/// A packet has its text, also where it takes only the memory of what it says, and keeps its stamp.
fn has_text(alloc: Global, number: u8) -> Result<(), Fail> {
    let (what, want) = packet(number)?;
    let picture = CompactPicture::of(alloc, &Picture { stamp: 9, what })?;
    let same = picture.copy(alloc)?.picture();
    let printed = print_picture(alloc, &same)?;
    holds(
        same.stamp == 9 && printed.as_slice() == want.as_bytes(),
        want,
    )
}

#[test]
fn steps_and_packets_have_their_lines(rt: HostRuntime) -> Result<(), Fail> {
    for number in 0..16 {
        has_line(rt.alloc(), number)?;
    }
    for number in 0..11 {
        has_text(rt.alloc(), number)?;
    }
    Ok(())
}
