//! What C calls. A service is a pointer whose inside C does not see.
ghost use Rattle.std.specs.Prelude.{ℕ, List};
ghost use base.Fml.{Share};
ghost use types.Logic.{sem};
ghost use Rattle.history_checker.specs.declared.checker.Checker.{Checker as AChecker};
ghost use Rattle.lynx_service_c.specs.Memory.{bytes_at, holder_at, left_by_line, left_by_place, left_by_why, made_at, out_at, room_at, service_at};

use crate::holder::{Holder, found, nobody};
use crate::loose::Loose;
use crate::service::{end, length_of_words, made, told, words};
use crate::status::{NO_MEMORY, NULL, OK};
use history_checker::Checker;
use std::alloc::Global;
use std::ptr::null_mut;
use std::slice::{from_raw_parts, from_raw_parts_mut};

/// Makes a service that was told no line, and puts its pointer at `out`: null where memory is out.
#[unsafe(no_mangle)]
pub unsafe extern "C" fn lynx_service_new(alloc: Global, out: *mut *mut u8) -> i32
    requires* { sem 𝓛 (out_at out) }
    ensures* { sem 𝓛 (made_at alloc out result) }
{
    if out.is_null() {
        return NULL;
    }
    match made(alloc) {
        Some(service) => {
            let Loose { at, alloc: _ } = service;
            *out = at as *mut u8;
            OK
        }
        None => {
            *out = null_mut();
            NO_MEMORY
        }
    }
}

/// Tells the next line: so many bytes at `line`, which are read alone.
#[unsafe(no_mangle)]
pub unsafe extern "C" fn lynx_service_line(
    alloc: Global,
    service: *mut u8,
    line: *const u8,
    length: usize,
) -> i32
    ghost g: { AChecker × Share × List ℕ }
    requires* { sem 𝓛 (service_at alloc service g.0) ∗ sem 𝓛 (bytes_at g.1 line length g.2) }
    ensures* { sem 𝓛 (left_by_line alloc service line length g.0 g.1 g.2 result) }
{
    if service.is_null() {
        return NULL;
    }
    if line.is_null() {
        return NULL;
    }
    let checker = service as *mut Checker;
    told(alloc, &mut *checker, from_raw_parts(line, length))
}

/// Puts the words of the refusal into the room, at most so many bytes, and gives their whole length. Without room it gives the length alone.
#[unsafe(no_mangle)]
pub unsafe extern "C" fn lynx_service_why(
    alloc: Global,
    service: *const u8,
    room: *mut u8,
    size: usize,
) -> usize
    ghost g: { AChecker × List ℕ }
    requires* { sem 𝓛 (service_at alloc service g.0) ∗ sem 𝓛 (room_at room size g.1) }
    ensures* { sem 𝓛 (left_by_why alloc service room size g.0 g.1 result) }
{
    if service.is_null() {
        return 0;
    }
    let checker = service as *const Checker;
    if room.is_null() {
        return length_of_words(&*checker);
    }
    words(&*checker, from_raw_parts_mut(room, size))
}

/// Who holds an end after the lines so far, by its name: so many bytes at `end`, which are read alone. The answer is its place, and the rest is put at
/// `holder`.
#[unsafe(no_mangle)]
pub unsafe extern "C" fn lynx_service_place(
    alloc: Global,
    service: *const u8,
    end: *const u8,
    length: usize,
    holder: *mut Holder,
) -> i32
    ghost g: { AChecker × Share × List ℕ }
    requires* { sem 𝓛 (service_at alloc service g.0) ∗ sem 𝓛 (bytes_at g.1 end length g.2) ∗ sem 𝓛 (holder_at holder) }
    ensures* { sem 𝓛 (left_by_place alloc service end length holder g.0 g.1 g.2 result) }
{
    if holder.is_null() {
        return NULL;
    }
    *holder = nobody();
    if service.is_null() {
        return NULL;
    }
    if end.is_null() {
        return NULL;
    }
    let checker = service as *const Checker;
    found(alloc, &*checker, from_raw_parts(end, length), &mut *holder)
}

/// Frees a service, and of a null pointer nothing.
#[unsafe(no_mangle)]
pub unsafe extern "C" fn lynx_service_free(alloc: Global, service: *mut u8)
    ghost g: { AChecker }
    requires* { sem 𝓛 (service_at alloc service g) }
{
    if service.is_null() {
        return;
    }
    let at = service as *mut Checker;
    end(Loose { at, alloc });
}
