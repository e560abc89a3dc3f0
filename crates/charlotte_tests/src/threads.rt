//! Two ports, each in a thread of its own.
ghost use Rattle.std.specs.Prelude.{◌≡◌, ◌+◌, ◌<◌, ◌≤◌, ◌^◌, [], ◌++◌, IfOk, length};
ghost use Rattle.kernel_net.specs.Ports.{AreOfOneNet, got_from, kernels_of, place_of, put_to, there_of};
ghost use Rattle.charlotte_tests.specs.Numbered.{numbered, numbered_below};

use charlotte_calls::{EndId, LinkId, NoMemory, Side};
use charlotte_packets::{Packet, What};
use kernel_net::{Letter, Net, Port, meet};
use std::alloc::Global;
use std::thread;
use std::thread::Threads;

/// How often a thread looks at most.
const TRIES: u32 = 10_000_000;

/// What a thread is to do with its port, or did: how many letters it puts to another kernel, and how many it gets from it.
#[derive(Clone, Copy, Debug, PartialEq, Eq)]
pub(crate) struct Share {
    pub(crate) put: u32,
    pub(crate) got: u32,
}

/// What two threads did, and how many letters are then there.
#[derive(Clone, Copy, Debug, PartialEq, Eq)]
pub(crate) struct Exchange {
    pub(crate) first: Share,
    pub(crate) second: Share,
    pub(crate) there: u32,
}

/// The packet with this stamp.
fn packet(stamp: u32) -> Letter
    ensures { result ≡ numbered stamp }
{
    let link = LinkId { maker: 0, count: 0 };
    let to = EndId {
        link,
        side: Side::A,
    };
    let what = What::Known { to, hops: 1 };
    Letter::Packet(Packet {
        stamp: u64::from(stamp),
        what,
    })
}

/// Puts the packet with this stamp to a kernel, if there is a place: how many were put.
fn put_next(port: &mut Port, to: u8, put: u32) -> u32
    requires kernel { to < kernels_of (place_of port.old) }
    requires put { put_to port.old to ≡ numbered_below put }
    requires most { put + 1 < 2 ^ 32 }
    ensures place { place_of port.new ≡ place_of port.old }
    ensures put { put_to port.new to ≡ numbered_below result }
    ensures got { got_from port.new to ≡ got_from port.old to }
    ensures most { result ≤ put + 1 }
{
    match port.put(to, packet(put)) {
        Ok(()) => put + 1,
        Err(_) => {
            thread::yield_now();
            put
        }
    }
}

/// Gets a letter, if there is one: how many of this kernel were got.
fn get_next(port: &mut Port, from: u8, got: u32) -> u32
    requires got { length (got_from port.old from) ≡ got }
    requires most { got + 1 < 2 ^ 32 }
    ensures place { place_of port.new ≡ place_of port.old }
    ensures put { put_to port.new from ≡ put_to port.old from }
    ensures got { length (got_from port.new from) ≡ result }
    ensures most { result ≤ got + 1 }
{
    match port.get() {
        Some((kernel, _)) if kernel == from => got + 1,
        Some(_) => got,
        None => {
            thread::yield_now();
            got
        }
    }
}

/// Puts packets with rising stamps to a kernel and gets what comes, until the share is done, and tells what was done of it.
fn work(port: &mut Port, other: u8, share: Share) -> Share
    requires kernel { other < kernels_of (place_of port.old) }
    requires fresh { (put_to port.old other ≡ []) × (got_from port.old other ≡ []) }
    ensures place { place_of port.new ≡ place_of port.old }
    ensures put { put_to port.new other ≡ numbered_below result.put }
    ensures got { length (got_from port.new other) ≡ result.got }
{
    let mut done = Share { put: 0, got: 0 };
    for _ in 0..TRIES {
        if done.put < share.put {
            done.put = put_next(port, other, done.put);
        }
        if done.got < share.got {
            done.got = get_next(port, other, done.got);
        }
        if done == share {
            break;
        }
    }
    done
}

/// Each of two kernels does its share with the other, in a thread of its own.
fn work_beside<R: Threads + Sync>(
    rt: &R,
    a: &mut Port,
    b: &mut Port,
    shares: [Share; 2],
) -> (Share, Share)
    requires net { AreOfOneNet (place_of a.old) (place_of b.old) }
    requires fresh_a { (put_to a.old b.old.kernel ≡ []) × (got_from a.old b.old.kernel ≡ []) }
    requires fresh_b { (put_to b.old a.old.kernel ≡ []) × (got_from b.old a.old.kernel ≡ []) }
    ensures place_a { place_of a.new ≡ place_of a.old }
    ensures place_b { place_of b.new ≡ place_of b.old }
    ensures put_a { put_to a.new b.old.kernel ≡ numbered_below result.0.put }
    ensures put_b { put_to b.new a.old.kernel ≡ numbered_below result.1.put }
    ensures got_a { length (got_from a.new b.old.kernel) ≡ result.0.got }
    ensures got_b { length (got_from b.new a.old.kernel) ≡ result.1.got }
{
    let (kernel_a, kernel_b) = (a.kernel(), b.kernel());
    let [share_a, share_b] = shares;
    thread::join_mut(
        rt,
        &mut || work(a, kernel_b, share_a),
        &mut || work(b, kernel_a, share_b),
    )
}

/// Two kernels put to each other and get, each in a thread of its own, and then meet. What each got of the other, followed by what is
/// there, is what the other put: packets with rising stamps, so none is lost, comes twice or before its turn.
fn work_both<R: Threads + Sync>(rt: &R, a: &mut Port, b: &mut Port, shares: [Share; 2]) -> Exchange
    requires net { AreOfOneNet (place_of a.old) (place_of b.old) }
    requires fresh_a { (put_to a.old b.old.kernel ≡ []) × (got_from a.old b.old.kernel ≡ []) }
    requires fresh_b { (put_to b.old a.old.kernel ≡ []) × (got_from b.old a.old.kernel ≡ []) }
    ensures to_b { got_from b.new a.new.kernel ++ there_of a.new b.new ≡ numbered_below result.first.put }
    ensures to_a { got_from a.new b.new.kernel ++ there_of b.new a.new ≡ numbered_below result.second.put }
    ensures count { result.first.got + result.second.got + result.there ≡ result.first.put + result.second.put }
{
    let (first, second) = work_beside(rt, a, b, shares);
    let there = meet(a, b);
    Exchange {
        first,
        second,
        there,
    }
}

/// The same of the two kernels of a new net.
pub(crate) fn across<R: Threads + Sync>(
    rt: &R,
    alloc: Global,
    shares: [Share; 2],
) -> Result<Exchange, NoMemory>
    ensures { IfOk result (λ x. x.first.got + x.second.got + x.there ≡ x.first.put + x.second.put) }
{
    let mut ports = Net::make(alloc, 2, 4)?;
    let (front, back) = ports.split_at_mut(1);
    Ok(work_both(rt, &mut front[0], &mut back[0], shares))
}
