//! A history that is told from outside: its lines, and the words of a refusal.
ghost use Rattle.std.specs.Prelude.{IfSome};
ghost use Rattle.lynx_service_c.specs.Service.{IsFresh, IsLength, IsTold, IsWhy};

use crate::loose::Loose;
use crate::status::status_of;
use history_checker::Checker;
use std::alloc::Global;

/// A service that was told no line, in memory of its own, where there is any.
pub(crate) fn made(alloc: Global) -> Option<Loose<Checker, Global>>
    ensures { IfSome result (λ l. IsFresh l.value) }
{
    let Ok(checker) = Checker::new(alloc) else {
        return None;
    };
    match Box::new(alloc, checker) {
        Ok(service) => Some(Loose::of(service)),
        Err(_) => None,
    }
}

/// Lets a service go, with its memory.
pub(crate) fn end(service: Loose<Checker, Global>) {
    drop(service.into_box());
}

/// Tells the next line, and gives the status of its answer.
#[tactic(auto, using(crate::proofs::Told::told_so))]
pub(crate) fn told(alloc: Global, checker: &mut Checker, line: &[u8]) -> i32
    ensures { IsTold checker.old line.now checker.new result }
{
    status_of(checker.line(alloc, line))
}

/// The length of the words of the refusal.
pub(crate) fn length_of_words(checker: &Checker) -> usize
    ensures { IsLength checker.now result }
{
    checker.why().len()
}

/// Puts as much of the words of the refusal as there is room for, and gives their whole length.
pub(crate) fn words(checker: &Checker, room: &mut [u8]) -> usize
    ensures { IsWhy checker.now room.old room.new result }
{
    let words = checker.why();
    let length = words.len().min(room.len());
    room[..length].copy_from_slice(&words[..length]);
    words.len()
}
