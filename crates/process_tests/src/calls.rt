//! What a process does with answers and reports, and when it waits, pauses and ends: rules 3, 9 and 10 of docs/PROCESS.md.

use crate::runs::{Row, run, run_in_both};
use std::rt::HostRuntime;
use std::test::Fail;

/// The send is over since the link is dead, and its end is held again.
const COMES_BACK: Row = (
    "module m; op give (link) : (); param a : link; param b : link; param c : link; begin try connect give on a (b) : (); when DEADLINK do connect give on c (b) : (); end; end.",
    "send 0b request 1 give(link):() link +1b > ok
receive 0b > ok
wait > back 0b +1b
cancel 0b > dead
send 2b request 1 give(link):() link +1b > ok
receive 2b > ok
wait > died 0b
wait > sent 2b
wait > came 2b reply 1 0
exit > ok
ended",
);

/// The end of a message in part is destroyed.
const DIES_IN_PART: Row = (
    "module m; op give (link, link) : (); param a : link; var x : link; var y : link; begin accept give on a (x, y) do reply (); end; end.",
    "receive 0b > ok
wait > came 0b request 1 give(link,link):() link link +5a
send 0b goahead 1 > ok
receive 0b > ok
wait > died 0b
destroy 5a > ok
wait > back 0b
exit > ok
ended",
);

#[test]
fn a_link_that_dies(rt: HostRuntime) -> Result<(), Fail> {
    run_in_both(rt.alloc(), COMES_BACK)?;
    run(rt.alloc(), 1, DIES_IN_PART)
}

/// Bytes that are no packet, and a packet that answers nothing, each with an end.
const SERVES: &str =
    "module m; op ping () : (); param a : link; entry serve of ping () begin reply (); end; begin bind a to serve; end.";

const NO_PACKET: Row = (
    SERVES,
    "receive 0b > ok
wait > came 0b wrong 1 +5a
destroy 0b > ok
destroy 5a > ok
exit > ok
ended",
);

const NO_REQUEST: Row = (
    SERVES,
    "receive 0b > ok
wait > came 0b retry 1 +5a
destroy 0b > ok
destroy 5a > ok
exit > ok
ended",
);

#[test]
fn a_message_that_is_not_readable(rt: HostRuntime) -> Result<(), Fail> {
    run_in_both(rt.alloc(), NO_PACKET)?;
    run_in_both(rt.alloc(), NO_REQUEST)
}

/// What a receive brings is destroyed, what a send returns is held again.
const IS_DESTROYED: Row = (
    "module m; op give (link) : (); op go () : (); op halt () : (); param a : link; param b : link; param c : link; param d : link; param e : link; entry ask of go () begin try connect give on a (b) : (); when DEADLINK do write 'deadlink'; when NOLINK do connect give on d (b) : (); end; reply (); end; entry finish of halt () begin destroy a; reply (); end; begin bind c to ask; bind e to finish; end.",
    "receive 2b > ok
receive 4b > ok
wait > came 2b request 1 go():()
receive 2b > ok
send 0b request 1 give(link):() link +1b > ok
receive 0b > ok
wait > came 4b request 1 halt():()
receive 4b > ok
destroy 0b > ok
send 4b reply 1 0 > ok
print deadlink > ok
send 2b reply 1 0 > ok
wait > came 0b reply 1 0 +7a
destroy 7a > ok
wait > back 0b +1b
wait > sent 2b
wait > came 2b request 2 go():()
receive 2b > ok
send 3b request 1 give(link):() link +1b > ok
receive 3b > ok
wait > nothing
exit > ok
ended",
);

#[test]
fn an_end_that_is_not_held(rt: HostRuntime) -> Result<(), Fail> {
    run_in_both(rt.alloc(), IS_DESTROYED)
}

const IS_DEAD: Row = (
    SERVES,
    "receive 0b > dead
exit > ok
ended",
);

const STOPS: Row = (
    "module m; op ping () : (); param a : link; entry serve of ping () begin reply (); end; begin bind a to serve; stop; end.",
    "receive 0b > ok
exit > ok
ended",
);

const AWAITS: Row = (
    "module m; var n : int; begin await n = 1; end.",
    "wait > nothing
exit > ok
ended",
);

const LOOPS: Row = (
    "module m; begin while true do end; end.",
    "pause
pause
pause",
);

#[test]
fn how_a_process_ends(rt: HostRuntime) -> Result<(), Fail> {
    for row in [IS_DEAD, STOPS, AWAITS] {
        run_in_both(rt.alloc(), row)?;
    }
    Ok(())
}

#[test]
fn a_loop_pauses(rt: HostRuntime) -> Result<(), Fail> {
    run_in_both(rt.alloc(), LOOPS)
}
