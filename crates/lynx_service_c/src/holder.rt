//! Who holds an end.
ghost use Rattle.std.specs.Prelude.{◌≡◌, ◌+◌, ◌≤◌, ◌++◌, length, pos};
ghost use Rattle.lynx_service_c.specs.Holder.{IsAt, IsHolder, IsNamed, IsNobody, ending};

use crate::status::NO_MEMORY;
use arrayvec::ArrayVec;
use charlotte_calls::Side;
use history_checker::Checker;
use history_text::Draft;
use link_service::Place;
use std::alloc::Global;

/// A process owns it.
const OWNED: i32 = 10;

/// It is in a message that was not received yet.
const SENT: i32 = 11;

/// It was destroyed.
const DESTROYED: i32 = 12;

/// No line told an end of that name.
const NO_END: i32 = 13;

/// What is told beside the place of an end, with a name: that of the process that owns it, or that of the end that sent it.
#[repr(C)]
#[derive(Clone, Copy)]
pub struct Holder {
    /// Of the message that it is in, else 0.
    pub number: u32,
    /// Of the name.
    pub length: usize,
    /// The name, and zeros behind it.
    pub name: [u8; 40],
}

/// Who holds the end of a name, after the lines so far: its place is given, and the rest is put at `holder`.
pub(crate) fn found(alloc: Global, checker: &Checker, end: &[u8], holder: &mut Holder) -> i32
    ensures { IsHolder checker.now end.now holder.new result }
{
    let history = checker.history();
    match history.draft().end_named(end) {
        Ok(e) => match history.place(alloc, e) {
            Ok(place) => held(history.draft(), place, holder),
            Err(_) => named(NO_MEMORY, 0, b"", holder),
        },
        Err(_) => named(NO_END, 0, b"", holder),
    }
}

/// What is put where a pointer is null, beside `NULL`.
pub(crate) fn nobody() -> Holder
    ensures { IsNobody result (pos 1) }
{
    Holder {
        number: 0,
        length: 0,
        name: [0; 40],
    }
}

fn held(draft: &Draft, place: Place, holder: &mut Holder) -> i32
    ensures { IsAt draft.now place holder.new result }
{
    match place {
        Place::Owned(p) => named(OWNED, 0, draft.name_of_process(p), holder),
        Place::InMessage(on, n) => sent(n, draft.name_of_link(on.link), on.side, holder),
        Place::Destroyed => named(DESTROYED, 0, b"", holder),
        Place::Unmade => named(NO_END, 0, b"", holder),
    }
}

fn named(place: i32, number: u32, name: &[u8], holder: &mut Holder) -> i32
    requires { length name.now ≤ 40 }
    ensures { IsNamed place number name.now holder.new result }
{
    let mut bytes = [0; 40];
    bytes[..name.len()].copy_from_slice(name);
    *holder = Holder {
        number,
        length: name.len(),
        name: bytes,
    };
    place
}

/// In a message of an end, by the name of its link and its side.
fn sent(number: u32, link: &[u8], side: Side, holder: &mut Holder) -> i32
    requires { length link.now ≤ 32 }
    ensures { IsNamed (pos 11) number (link.now ++ ending side) holder.new result }
{
    let mut name = ArrayVec::new();
    push(&mut name, link);
    push(&mut name, ending(side));
    named(SENT, number, name.as_slice(), holder)
}

/// Puts bytes behind a name that has room for them.
fn push(name: &mut ArrayVec<u8, 34>, bytes: &[u8])
    requires { length name.old.items + length bytes.now ≤ 34 }
    ensures { name.new.items ≡ name.old.items ++ bytes.now }
{
    match name.try_extend_from_slice(bytes) {
        Ok(()) => (),
        Err(_) => unreachable!(),
    }
}

/// What stands behind the name of a link in that of its end.
fn ending(side: Side) -> &'static [u8]
    ensures same { result.now ≡ ending side }
    ensures two { length result.now ≡ 2 }
{
    match side {
        Side::A => b".a",
        Side::B => b".b",
    }
}
