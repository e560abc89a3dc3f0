//! A history that is told from outside, with ample memory: worked examples of histories.

use crate::holder::{found, nobody};
use crate::service::{made, told, words};
use history_checker::Checker;

const HEADER: [&[u8]; 6] = [
    b"history 1",
    b"process alice",
    b"process bob",
    b"process carol",
    b"wire alice bob as mail",
    b"wire alice carol as box",
];

const STEPS: [&[u8]; 3] = [
    b"alice: send mail.a 1 x +box.a",
    b"bob: receive mail.b",
    b"match mail.a 1",
];

const REFUSED: &[u8] = b"alice: send box.a 1 y";

const WHY: &[u8] = b"no: this call is refused: NoEnd, box.a is in message 1 of mail.a";

/// Whether these are told, each with status 0.
fn all_told(rt: &HostRuntime, checker: &mut Checker, lines: &[&[u8]]) -> bool {
    lines
        .iter()
        .all(|line| told(rt.alloc(), checker, line) == 0)
}

/// Whether an end is at this place, with this name, and in this message.
fn is_at(
    rt: &HostRuntime,
    checker: &Checker,
    end: &[u8],
    place: i32,
    name: &[u8],
    number: u32,
) -> bool {
    let mut holder = nobody();
    found(rt.alloc(), checker, end, &mut holder) == place
        && holder.name.get(..holder.length) == Some(name)
        && holder.number == number
}

#[test]
fn ends_are_held(rt: HostRuntime) {
    let alloc = rt.alloc();
    let Ok(mut checker) = Checker::new(alloc) else {
        panic!(rt; "no memory");
    };
    assert!(rt; is_at(&rt, &checker, b"mail.a", 13, b"", 0));
    assert!(rt; all_told(&rt, &mut checker, &HEADER));
    assert!(rt; is_at(&rt, &checker, b"mail.a", 10, b"alice", 0));
    assert!(rt; all_told(&rt, &mut checker, &STEPS));
    assert!(rt; is_at(&rt, &checker, b"box.a", 11, b"mail.a", 1));
    assert!(rt; is_at(&rt, &checker, b"box.b", 10, b"carol", 0));
    assert!(rt; is_at(&rt, &checker, b"never.a", 13, b"", 0));
    assert!(rt; told(alloc, &mut checker, b"carol: destroy box.b") == 0);
    assert!(rt; is_at(&rt, &checker, b"box.b", 12, b"", 0));
}

#[test]
fn a_refused_line_has_words(rt: HostRuntime) {
    let alloc = rt.alloc();
    let Ok(mut checker) = Checker::new(alloc) else {
        panic!(rt; "no memory");
    };
    assert!(rt; all_told(&rt, &mut checker, &HEADER) && all_told(&rt, &mut checker, &STEPS));
    assert!(rt; told(alloc, &mut checker, REFUSED) == 4);
    assert!(rt; told(alloc, &mut checker, b"# a comment") == 4);
    let mut room = [7; 70];
    assert!(rt; words(&checker, &mut room) == WHY.len());
    assert!(rt; room.starts_with(WHY) && room.ends_with(&[7; 6]));
    let mut little = [7; 3];
    assert!(rt; words(&checker, &mut little) == WHY.len());
    assert!(rt; little == *b"no:");
}

#[test]
fn a_service_is_made(rt: HostRuntime) {
    match made(rt.alloc()) {
        Some(service) => crate::service::end(service),
        None => panic!(rt; "no memory"),
    }
}
