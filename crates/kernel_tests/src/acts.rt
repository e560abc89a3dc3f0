//! What is done to the end, and what the table tells of it.
ghost use Rattle.std.specs.Prelude.{◌≡◌, true};
ghost use Rattle.end_table.specs.Table.{entries, IsDestroyed, IsHere};

use crate::samples::{END, OWNER, end_a, message};
use crate::states::is_idle;
use charlotte_calls::Pid;
use charlotte_packets::Moving;
use end_table::{Entry, HereView, Holder, Inward, Lent, NotStored, Outward, Table};
use std::alloc::{AllocError, Global};

/// A call of the table on the end.
#[derive(Clone, Copy)]
pub(crate) enum Act {
    Reserve,
    Install(Pid),
    /// The end leaves, and comes home at once.
    Travel(u8, Pid),
    /// The end leaves, and its value is destroyed.
    Leave(u8),
    Retire(u32),
    End,
    HintMark(u8, u32),
    Erase,
    Release,
    Hint(u8, u32),
    SetInward(u32),
    SetDead,
    Wait(u32),
    SetHolder(Pid),
    Change(u32),
}

/// Makes a call. Whether it answers true, where it answers that; none where it cannot be made.
pub(crate) fn perform(table: &mut Table, act: Act) -> Option<bool> {
    let is_made = match act {
        Act::Reserve => table.reserve(END).is_ok(),
        Act::Install(p) => settle(table, end_a(END.link), p),
        Act::Travel(to, p) => travel(table, to, p),
        Act::Leave(to) => leave(table, to),
        Act::Retire(hops) => return Some(table.retire(END, hops)),
        Act::HintMark(kernel, hops) => hint_mark(table, (kernel, hops)),
        Act::Erase => erase(table),
        Act::Release => {
            table.release(END);
            true
        }
        _ => return perform_here(table, act),
    };
    if is_made { Some(true) } else { None }
}

/// Installs a value of an end that is not here. Whether it could.
pub(crate) fn settle(table: &mut Table, moving: Moving, p: Pid) -> bool {
    if let Lent::Here(_) = table.lend(moving.end()) {
        moving.destroy();
        return false;
    }
    match table.install(moving, Holder::Owner(p)) {
        Ok(()) => true,
        Err(NotStored { moving }) => {
            moving.destroy();
            false
        }
    }
}

fn travel(table: &mut Table, to: u8, p: Pid) -> bool {
    if !is_idle(table) {
        return false;
    }
    let moving = table.take_out(END, to);
    settle(table, moving, p)
}

fn leave(table: &mut Table, to: u8) -> bool {
    if !is_idle(table) {
        return false;
    }
    table.take_out(END, to).destroy();
    true
}

fn hint_mark(table: &mut Table, hint: (u8, u32)) -> bool {
    if !is_destroyed(table) {
        return false;
    }
    table.hint_mark(END, hint);
    true
}

fn erase(table: &mut Table) -> bool {
    if !is_destroyed(table) {
        return false;
    }
    table.erase(END);
    true
}

/// A call on an end that is here.
fn perform_here(table: &mut Table, act: Act) -> Option<bool> {
    if !is_here(table) {
        return None;
    }
    let mut value = table.here(END).value();
    match act {
        Act::End => Some(table.end_here(END).dead()),
        Act::Hint(kernel, hops) => Some(table.hint(END, kernel, hops)),
        Act::SetInward(w) => {
            value.asked = w;
            table.set_inward(END, value, Inward::Posted { w });
            Some(true)
        }
        Act::SetDead => {
            value.dead = true;
            table.set_inward(END, value, Inward::Unreported);
            Some(true)
        }
        Act::Wait(n) => {
            let Some((bytes, enclosed)) = message(n) else {
                return None;
            };
            table.wait(END, value, n, bytes, enclosed);
            Some(true)
        }
        Act::SetHolder(p) => {
            table.set_holder(END, Holder::Owner(p));
            Some(true)
        }
        Act::Change(n) => {
            let holder = Holder::Owner(OWNER);
            let (outward, inward) = (Outward::Matched { n }, Inward::Idle);
            table.change(
                END,
                HereView {
                    value,
                    holder,
                    outward,
                    inward,
                },
            );
            Some(true)
        }
        _ => None,
    }
}

fn is_here(table: &Table) -> bool
    ensures { result ≡ true → IsHere (entries table.now END) }
{
    matches!(table.lend(END), Lent::Here(_))
}

fn is_destroyed(table: &Table) -> bool
    ensures { result ≡ true → IsDestroyed (entries table.now END) }
{
    matches!(table.lend(END), Lent::Destroyed(_))
}

/// What the table tells of the end: of one that is here its owner, its activities, and the hint, hops, trail and last receive.
pub(crate) fn told(alloc: Global, table: &Table) -> Result<String, AllocError> {
    match table.lend(END) {
        Lent::Nothing => String::from_str(alloc, "nothing"),
        Lent::Left { to, hops } => format!(in alloc; "left to {to}, hops {hops}"),
        Lent::Destroyed(mark) => format!(in alloc; "destroyed, hint {:?}", mark.hint()),
        Lent::Here(_) => told_view(alloc, &table.view(END)),
    }
}

fn told_view(alloc: Global, view: &HereView) -> Result<String, AllocError> {
    let (holder, outward, inward) = (view.holder, &view.outward, view.inward);
    let value = view.value;
    let numbers = (value.hint, value.hops, value.trail, value.asked);
    format!(in alloc; "{holder:?} {outward:?} {inward:?} {numbers:?}")
}
