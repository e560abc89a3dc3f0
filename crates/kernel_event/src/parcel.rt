ghost use Rattle.std.specs.Prelude.{◌≡◌, true, ℕ, List, [], None, IsSome};
ghost use Rattle.end_table.specs.Table.{entries};
ghost use Rattle.kernel_event.specs.Places.{ArePlaced};
ghost use Rattle.kernel_step.specs.Progress.{progress, HasRoom, StaysWithin};
ghost use Rattle.kernel_step.specs.Room.{room_of_ends, room_of_parcel};
ghost use Rattle.kernel_step.specs.Rows.{asks, parcel_row};

use crate::carried::{arriving, passing};
use crate::order::put_behind;
use cancel_core::arrived;
use charlotte_calls::{Bytes, EndId};
use charlotte_packets::{Cargo, Work};
use end_table::Table;
use kernel_step::{Site, ends_in, no_ends, receiver};
use move_core::arrive;

/// A message in a parcel, without its bytes and its values.
#[derive(Clone, Copy)]
pub(crate) struct Head {
    pub(crate) to: EndId,
    pub(crate) n: u32,
    /// The receive that it is for.
    pub(crate) w: u32,
    /// Of the end that sent it.
    pub(crate) site: Site,
}

/// The rule of parcel: at the receive that it was sent for the message is taken, and its ends become Here. Anywhere else the
/// ends leave again, and go back with it. The values are taken out of the packet.
#[inline(never)]
pub(crate) fn parcel(
    table: &mut Table,
    made: u32,
    head: Head,
    bytes: &Bytes,
    moving: &mut Cargo,
    out: &mut Work,
)
    requires placed { ArePlaced table.old moving.old }
    requires first { out.old.packets.items ≡ [] }
    requires room { HasRoom room_of_parcel out.old }
    ensures part { progress (entries table.new) out.new
        ≡ parcel_row table.old.kernel made head.to head.n head.site.at head.site.hops bytes.now moving.old (asks head.w (entries table.old head.to)) (progress (entries table.old) out.old) }
    ensures within { StaysWithin room_of_parcel table.old table.new out.old out.new }
{
    match receiver(table, head.to, head.w) {
        Some(_) => take_parcel(table, made, head, bytes, moving, out),
        None => pass_parcel(table, made, head, moving, out),
    }
}

/// The message goes back, and its ends leave with it.
#[inline(never)]
fn pass_parcel(table: &mut Table, made: u32, head: Head, moving: &mut Cargo, out: &mut Work)
    requires unasked { asks head.w (entries table.old head.to) ≡ None }
    requires placed { ArePlaced table.old moving.old }
    requires room { HasRoom room_of_ends out.old }
    ensures part { (hops : ℕ) (bytes : List ℕ) → progress (entries table.new) out.new
        ≡ parcel_row table.old.kernel made head.to head.n head.site.at hops bytes moving.old None (progress (entries table.old) out.old) }
    ensures within { StaysWithin room_of_ends table.old table.new out.old out.new }
{
    let passed = passing(table, made, moving);
    arrive(table, head.to, head.n, head.w, head.site.at, passed, out);
}

/// The message is taken by the started receive of an end that is here.
fn take_parcel(
    table: &mut Table,
    made: u32,
    head: Head,
    bytes: &Bytes,
    moving: &mut Cargo,
    out: &mut Work,
)
    requires asked { IsSome (asks head.w (entries table.old head.to)) }
    requires placed { ArePlaced table.old moving.old }
    requires first { out.old.packets.items ≡ [] }
    requires room { HasRoom room_of_parcel out.old }
    ensures part { progress (entries table.new) out.new
        ≡ parcel_row table.old.kernel made head.to head.n head.site.at head.site.hops bytes.now moving.old (asks head.w (entries table.old head.to)) (progress (entries table.old) out.old) }
    ensures within { StaysWithin room_of_parcel table.old table.new out.old out.new }
{
    if is_empty(moving) {
        take_plain(table, head, bytes, out);
    } else {
        take_laden(table, made, head, bytes, moving, out);
    }
}

/// Whether a cargo has no values.
fn is_empty(moving: &Cargo) -> bool
    ensures { result ≡ true → moving.now ≡ [] }
{
    match moving.values() {
        [] => true,
        [_, ..] => false,
    }
}

/// A message that brings no ends is taken.
fn take_plain(table: &mut Table, head: Head, bytes: &Bytes, out: &mut Work)
    requires asked { IsSome (asks head.w (entries table.old head.to)) }
    requires room { HasRoom room_of_parcel out.old }
    ensures part { (made : ℕ) → progress (entries table.new) out.new
        ≡ parcel_row table.old.kernel made head.to head.n head.site.at head.site.hops bytes.now [] (asks head.w (entries table.old head.to)) (progress (entries table.old) out.old) }
    ensures within { StaysWithin room_of_parcel table.old table.new out.old out.new }
{
    let Head { to, n, w, site } = head;
    arrived(
        table,
        to,
        n,
        w,
        site.at,
        site.hops,
        bytes.copy(),
        no_ends(),
        out,
    );
}

/// A message is taken, and the ends that it brings become Here.
#[inline(never)]
fn take_laden(
    table: &mut Table,
    made: u32,
    head: Head,
    bytes: &Bytes,
    moving: &mut Cargo,
    out: &mut Work,
)
    requires asked { IsSome (asks head.w (entries table.old head.to)) }
    requires placed { ArePlaced table.old moving.old }
    requires first { out.old.packets.items ≡ [] }
    requires room { HasRoom room_of_parcel out.old }
    ensures part { progress (entries table.new) out.new
        ≡ parcel_row table.old.kernel made head.to head.n head.site.at head.site.hops bytes.now moving.old (asks head.w (entries table.old head.to)) (progress (entries table.old) out.old) }
    ensures within { StaysWithin room_of_parcel table.old table.new out.old out.new }
{
    let Head { to, n, w, site } = head;
    let came = arriving(table, made, moving);
    let ends = ends_in(&came);
    arrive(table, to, n, w, site.at, came, out);
    let moves = out.packets.len();
    arrived(table, to, n, w, site.at, site.hops, bytes.copy(), ends, out);
    put_behind(out, moves, moves + 1);
}
