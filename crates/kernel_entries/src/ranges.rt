//! That values are in the range of their types, told to contracts. These calls read and do nothing else.
ghost use Rattle.std.specs.Prelude.{All};
ghost use Rattle.std.specs.List.{AllByRecursion};
ghost use Rattle.charlotte_calls.specs.Ranges.{IsU8, IsU16, IsU32, IsU64, IsEnd, AreBytes, AreBytesInRange, AreEndsInRange, IsPid, IsCallInRange, IsReportInRange, IsStepInRange};
ghost use Rattle.charlotte_packets.specs.Ranges.{AreValuesInRange, IsValueInRange, IsPacketInRange, IsPictureInRange};

use charlotte_calls::{Bytes, Call, EndId, Ends, Pid, Report, ServiceStep};
use charlotte_packets::{CargoPicture, MovingPicture, Picture, PictureWhat};

/// That a number is in the range of its type.
pub fn tell_u8(number: u8)
    ensures { IsU8 number }
{
    let _ = number;
}

pub(crate) fn tell_u32(number: u32)
    ensures { IsU32 number }
{
    let _ = number;
}

/// That a number is in the range of its type.
pub fn tell_u64(number: u64)
    ensures { IsU64 number }
{
    let _ = number;
}

/// That the number of a process is in the range of its type.
pub fn tell_pid(p: Pid)
    ensures { IsPid p }
{
    let _ = p.0;
}

pub(crate) fn tell_end(end: EndId)
    ensures { IsEnd end }
{
    let _ = (end.link.maker, end.link.count);
}

fn tell_each_byte(bytes: &[u8])
    ensures { AreBytes bytes.now }
{
    let _ = bytes;
}

pub(crate) fn tell_bytes(bytes: &Bytes)
    ensures { AreBytesInRange bytes.now }
{
    tell_each_byte(bytes.as_slice());
}

fn tell_each_end(ends: &[EndId])
    ensures { All IsEnd ends.now }
{
    for end in ends {
        tell_end(*end);
    }
}

fn tell_ends(ends: &Ends)
    ensures { AreEndsInRange ends.now }
{
    tell_each_end(ends.as_slice());
}

fn tell_value(value: MovingPicture)
    ensures { IsValueInRange value }
{
    tell_end(value.end);
    tell_u32(value.hops);
    tell_u8(value.hint.0);
    tell_u32(value.hint.1);
    tell_u32(value.sent);
    tell_u32(value.asked);
    tell_u32(value.served);
    tell_u32(value.want);
    tell_u8(value.trail);
}

pub(crate) fn tell_each_value(values: &[MovingPicture])
    ensures { All IsValueInRange values.now }
{
    for value in values {
        tell_value(*value);
    }
}

fn tell_values(values: &CargoPicture)
    ensures { AreValuesInRange values.now }
{
    tell_each_value(values.as_slice());
}

/// That the numbers of a call are in the range of their types.
pub fn tell_call(call: &Call)
    ensures { IsCallInRange call.now }
{
    match call {
        Call::Make | Call::Wait | Call::Exit => {}
        Call::Destroy { on } | Call::Receive { on } | Call::Cancel { on, way: _ } => tell_end(*on),
        Call::Send { on, bytes, enclose } => {
            tell_end(*on);
            tell_bytes(bytes);
            tell_ends(enclose);
        }
        Call::Print { bytes } => tell_bytes(bytes),
    }
}

/// The numbers of a packet with a receive: its number, its kernel and its hops.
pub(crate) fn tell_wanted(to: EndId, w: u32, at: u8, hops: u32)
    ensures { IsEnd to × IsU32 w × IsU8 at × IsU32 hops }
{
    tell_end(to);
    tell_u32(w);
    tell_u8(at);
    tell_u32(hops);
}

fn tell_what(what: &PictureWhat)
    ensures { IsPacketInRange what.now }
{
    match what {
        PictureWhat::Want { to, w, at, hops }
        | PictureWhat::Unwant { to, w, at, hops }
        | PictureWhat::Unwanted { to, w, at, hops } => tell_wanted(*to, *w, *at, *hops),
        PictureWhat::Parcel {
            to,
            n,
            w,
            at,
            hops,
            bytes,
            moving,
        } => {
            tell_wanted(*to, *w, *at, *hops);
            tell_u32(*n);
            tell_bytes(bytes);
            tell_values(moving);
        }
        PictureWhat::Taken { to, n, at, hops } => tell_wanted(*to, *n, *at, *hops),
        PictureWhat::Back { to, n, moving } => {
            tell_end(*to);
            tell_u32(*n);
            tell_values(moving);
        }
        PictureWhat::Gone { to, at } => {
            tell_end(*to);
            tell_u8(*at);
        }
        PictureWhat::Moved { to, at, hops } => {
            tell_end(*to);
            tell_u8(*at);
            tell_u32(*hops);
        }
        PictureWhat::Known { to, hops } | PictureWhat::Forget { to, hops } => {
            tell_end(*to);
            tell_u32(*hops);
        }
        PictureWhat::GoneSeen { to } => tell_end(*to),
    }
}

/// That the numbers of a picture are in the range of their types.
pub fn tell_picture(picture: &Picture)
    ensures { IsPictureInRange picture.now }
{
    tell_u64(picture.stamp);
    tell_what(&picture.what);
}

fn tell_report(report: &Report)
    ensures { IsReportInRange report.now }
{
    tell_end(report.on);
    tell_bytes(&report.bytes);
    tell_ends(&report.enclosed);
}

fn tell_numbered(on: EndId, n: u32)
    ensures { IsEnd on × IsU32 n }
{
    tell_end(on);
    tell_u32(n);
}

/// That the numbers of a step are in the range of their types.
pub fn tell_step(step: &ServiceStep)
    ensures { IsStepInRange step.now }
{
    match step {
        ServiceStep::Make { p, a, b } => {
            tell_pid(*p);
            tell_end(*a);
            tell_end(*b);
        }
        ServiceStep::Refuse { p, call, cause: _ } => {
            tell_pid(*p);
            tell_call(call);
        }
        ServiceStep::Send {
            on,
            n,
            bytes,
            enclose,
        } => {
            tell_numbered(*on, *n);
            tell_bytes(bytes);
            tell_ends(enclose);
        }
        ServiceStep::Report { p, report } => {
            tell_pid(*p);
            tell_report(report);
        }
        ServiceStep::Take { on, n, p, late: _ } => {
            tell_numbered(*on, *n);
            tell_pid(*p);
        }
        ServiceStep::Wait { p } | ServiceStep::Exit { p } => tell_pid(*p),
        ServiceStep::Match { on, n }
        | ServiceStep::Complete { on, n }
        | ServiceStep::Back { on, n, dead: _ } => tell_numbered(*on, *n),
        ServiceStep::Destroy { on }
        | ServiceStep::Receive { on }
        | ServiceStep::Cancel { on, way: _ }
        | ServiceStep::Withdraw { on }
        | ServiceStep::Free { on }
        | ServiceStep::Notice { on, dead: _ } => tell_end(*on),
    }
}

/// That the numbers of each step are in the range of their types.
pub fn tell_steps(steps: &[ServiceStep])
    ensures { All IsStepInRange steps.now }
{
    for step in steps {
        tell_step(step);
    }
}
