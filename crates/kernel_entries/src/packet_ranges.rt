//! That a packet's numbers are in the range of their types, told to contracts.
ghost use Rattle.charlotte_packets.specs.Packets.{packet_picture, what_picture};
ghost use Rattle.charlotte_packets.specs.Ranges.{AreValuesInRange, IsPacketInRange, IsPictureInRange};

use crate::ranges::{
    tell_bytes, tell_each_value, tell_end, tell_u8, tell_u32, tell_u64, tell_wanted,
};
use charlotte_packets::{Cargo, Packet, What};

/// That the numbers of a packet are in the range of their types.
pub fn tell_packet(packet: &Packet)
    ensures { IsPictureInRange (packet_picture packet.now) }
{
    tell_u64(packet.stamp);
    tell_what(&packet.what);
}

fn tell_what(what: &What)
    ensures { IsPacketInRange (what_picture what.now) }
{
    match what {
        What::Want { to, w, at, hops }
        | What::Unwant { to, w, at, hops }
        | What::Unwanted { to, w, at, hops } => tell_wanted(*to, *w, *at, *hops),
        What::Parcel {
            to,
            n,
            w,
            at,
            hops,
            bytes,
            moving,
        } => {
            tell_wanted(*to, *w, *at, *hops);
            tell_u32(*n);
            tell_bytes(bytes);
            tell_cargo(moving);
        }
        What::Taken { to, n, at, hops } => tell_wanted(*to, *n, *at, *hops),
        What::Back { to, n, moving } => {
            tell_end(*to);
            tell_u32(*n);
            tell_cargo(moving);
        }
        What::Gone { to, at } => {
            tell_end(*to);
            tell_u8(*at);
        }
        What::Moved { to, at, hops } => {
            tell_end(*to);
            tell_u8(*at);
            tell_u32(*hops);
        }
        What::Known { to, hops } | What::Forget { to, hops } => {
            tell_end(*to);
            tell_u32(*hops);
        }
        What::GoneSeen { to } => tell_end(*to),
    }
}

fn tell_cargo(values: &Cargo)
    ensures { AreValuesInRange values.now }
{
    tell_each_value(values.values());
}
