//! Requests and replies between processes: rules 1 to 7 of docs/PROCESS.md.

use crate::runs::{Row, run, run_in_both};
use std::rt::HostRuntime;
use std::test::Fail;

const ASKS: &str =
    "module m; op double (int) : (int); param a : link; var n : int; begin connect double on a (21) : (n); write n; end.";

const SERVES: &str =
    "module m; op double (int) : (int); param a : link; entry serve of double (n) begin reply (n + n); end; begin bind a to serve; end.";

const IS_ANSWERED: Row = (
    ASKS,
    "send 0b request 1 double(int):(int) 21 > ok
receive 0b > ok
wait > sent 0b
wait > came 0b reply 1 0 42
print 42 > ok
exit > ok
ended",
);

const ANSWERS: Row = (
    SERVES,
    "receive 0b > ok
wait > came 0b request 1 double(int):(int) 21
receive 0b > ok
send 0b reply 1 0 42 > ok
wait > sent 0b
wait > died 0b
exit > ok
ended",
);

#[test]
fn a_request_and_its_reply(rt: HostRuntime) -> Result<(), Fail> {
    run_in_both(rt.alloc(), IS_ANSWERED)?;
    run_in_both(rt.alloc(), ANSWERS)
}

/// Two threads connect on one end. The reply to the second request is a failed one, and so its thread fails the request that it serves.
const TWO_CONNECT: Row = (
    "module m; op go () : (); op ask () : (); param a : link; param b : link; param c : link; entry work of go () begin connect ask on c () : (); reply (); end; begin bind a to work; bind b to work; end.",
    "receive 0b > ok
receive 1b > ok
wait > came 0b request 1 go():()
receive 0b > ok
send 2b request 1 ask():() > ok
receive 2b > ok
wait > came 1b request 1 go():()
receive 1b > ok
wait > sent 2b
wait > came 2b reply 1 0
send 2b request 2 ask():() > ok
receive 2b > ok
send 0b reply 1 0 > ok
wait > sent 2b
wait > came 2b reply 2 1
send 1b reply 1 1 > ok
wait > sent 1b
wait > nothing
exit > ok
ended",
);

#[test]
fn one_request_is_outstanding(rt: HostRuntime) -> Result<(), Fail> {
    run_in_both(rt.alloc(), TWO_CONNECT)
}

const IS_SENT_BACK: Row = (
    ASKS,
    "send 0b request 1 double(int):(int) 21 > ok
receive 0b > ok
wait > came 0b retry 1
receive 0b > ok
wait > sent 0b
send 0b request 1 double(int):(int) 21 > ok
wait > came 0b forbid 1
receive 0b > ok
wait > sent 0b
wait > came 0b allow 1
send 0b request 1 double(int):(int) 21 > ok
receive 0b > ok
wait > sent 0b
wait > came 0b reply 1 1
exit > ok
ended",
);

#[test]
fn a_request_that_comes_back_is_sent_again(rt: HostRuntime) -> Result<(), Fail> {
    run_in_both(rt.alloc(), IS_SENT_BACK)
}

const UNBOUND: Row = (
    "module m; op ping () : (); op pong () : (); param a : link; param b : link; entry serve of ping () begin reply (); end; begin bind a to serve; unbind a from serve; connect pong on b () : (); end.",
    "receive 0b > ok
cancel 0b > late
send 1b request 1 pong():() > ok
receive 1b > ok
wait > came 0b request 1 ping():()
send 0b retry 1 > ok",
);

#[test]
fn a_late_request_is_retried(rt: HostRuntime) -> Result<(), Fail> {
    run_in_both(rt.alloc(), UNBOUND)
}

/// What was forbidden is wanted, once another entry is bound.
const BINDS_MORE: Row = (
    "module m; op ping () : (); op pong () : (); op go () : (); param a : link; param b : link; entry serve of ping () begin reply (); end; entry more of pong () begin reply (); end; entry start of go () begin bind a to more; reply (); end; begin bind a to serve; bind b to start; end.",
    "receive 0b > ok
receive 1b > ok
wait > came 0b request 1 pong():()
send 0b forbid 1 > ok
receive 0b > ok
wait > came 1b request 1 go():()
receive 1b > ok
send 1b reply 1 0 > ok
wait > sent 0b
send 0b allow 1 > ok
wait > came 0b request 1 pong():()
receive 0b > ok
wait > sent 0b
send 0b reply 1 0 > ok
wait > nothing
exit > ok
ended",
);

/// Nothing is received any more, once no entry is bound.
const UNBINDS: Row = (
    "module m; op ping () : (); op go () : (); param a : link; param b : link; entry serve of ping () begin reply (); end; entry halt of go () begin unbind a from serve; reply (); end; begin bind a to serve; bind b to halt; end.",
    "receive 0b > ok
receive 1b > ok
wait > came 0b request 1 pong():()
send 0b forbid 1 > ok
receive 0b > ok
wait > sent 0b
wait > came 1b request 1 go():()
receive 1b > ok
send 0b allow 1 > ok
cancel 0b > ok
send 1b reply 1 0 > ok
wait > nothing
exit > ok
ended",
);

#[test]
fn what_was_forbidden_is_allowed(rt: HostRuntime) -> Result<(), Fail> {
    run_in_both(rt.alloc(), BINDS_MORE)?;
    run_in_both(rt.alloc(), UNBINDS)
}

/// Who accepts comes before an entry that is bound.
const THREAD_AND_ENTRY: Row = (
    "module m; op ping () : (); param a : link; entry serve of ping () begin write 'entry'; reply (); end; begin bind a to serve; accept ping on a () do write 'thread'; reply (); end; end.",
    "receive 0b > ok
wait > came 0b request 1 ping():()
receive 0b > ok
print thread > ok
send 0b reply 1 0 > ok
wait > sent 0b
wait > came 0b request 2 ping():()
receive 0b > ok
print entry > ok
send 0b reply 2 0 > ok
wait > nothing
exit > ok
ended",
);

/// An entry that wants a request in part starts, though it is bound no longer.
const UNBOUND_IN_PART: Row = (
    "module m; op give (link, link) : (); op go () : (); param a : link; param b : link; entry serve of give (x, y) begin reply (); end; entry halt of go () begin unbind a from serve; reply (); end; begin bind a to serve; bind b to halt; end.",
    "receive 0b > ok
receive 1b > ok
wait > came 0b request 1 give(link,link):() link link +5a
send 0b goahead 1 > ok
receive 0b > ok
wait > came 1b request 1 go():()
receive 1b > ok
send 1b reply 1 0 > ok
wait > sent 0b
wait > came 0b enc 1 1 2 +6a
send 0b reply 1 0 > ok
wait > nothing
exit > ok
ended",
);

#[test]
fn who_takes_a_request(rt: HostRuntime) -> Result<(), Fail> {
    run_in_both(rt.alloc(), THREAD_AND_ENTRY)?;
    run(rt.alloc(), 1, UNBOUND_IN_PART)
}

const GIVES: &str =
    "module m; op give (link, link, link) : (); param a : link; param x : link; param y : link; param z : link; begin connect give on a (x, y, z) : (); end.";

const GIVES_ONE_BY_ONE: Row = (
    GIVES,
    "send 0b request 1 give(link,link,link):() link link link +1b > ok
receive 0b > ok
wait > sent 0b
wait > came 0b goahead 1
send 0b enc 1 1 2 +2b > ok
receive 0b > ok
wait > sent 0b
send 0b enc 1 1 3 +3b > ok
wait > sent 0b
wait > came 0b reply 1 0
exit > ok
ended",
);

const GIVES_AT_ONCE: Row = (
    GIVES,
    "send 0b request 1 give(link,link,link):() link link link +1b +2b +3b > ok
receive 0b > ok
wait > sent 0b
wait > came 0b reply 1 0
exit > ok
ended",
);

const IS_GIVEN: &str =
    "module m; op give (link, link, link) : (); param a : link; var x : link; var y : link; var z : link; begin accept give on a (x, y, z) do reply (); end; destroy y; end.";

const IS_GIVEN_ONE_BY_ONE: Row = (
    IS_GIVEN,
    "receive 0b > ok
wait > came 0b request 1 give(link,link,link):() link link link +5a
send 0b goahead 1 > ok
receive 0b > ok
wait > sent 0b
wait > came 0b enc 1 1 2 +6a
receive 0b > ok
wait > came 0b enc 1 1 3 +7a
send 0b reply 1 0 > ok
destroy 6a > ok
wait > sent 0b
exit > ok
ended",
);

const IS_GIVEN_AT_ONCE: Row = (
    IS_GIVEN,
    "receive 0b > ok
wait > came 0b request 1 give(link,link,link):() link link link +5a +6a +7a
send 0b reply 1 0 > ok
destroy 6a > ok
wait > sent 0b
exit > ok
ended",
);

#[test]
fn three_ends_in_a_request(rt: HostRuntime) -> Result<(), Fail> {
    run(rt.alloc(), 1, GIVES_ONE_BY_ONE)?;
    run(rt.alloc(), 2, GIVES_AT_ONCE)?;
    run(rt.alloc(), 1, IS_GIVEN_ONE_BY_ONE)?;
    run(rt.alloc(), 2, IS_GIVEN_AT_ONCE)
}

const RETURNS: &str =
    "module m; op get () : (link, link, link); param a : link; param x : link; param y : link; param z : link; begin accept get on a () do reply (x, y, z); end; end.";

const RETURNS_ONE_BY_ONE: Row = (
    RETURNS,
    "receive 0b > ok
wait > came 0b request 1 get():(link,link,link)
send 0b reply 1 0 link link link +1b > ok
wait > sent 0b
send 0b enc 2 1 2 +2b > ok
wait > sent 0b
send 0b enc 2 1 3 +3b > ok
wait > sent 0b
exit > ok
ended",
);

const RETURNS_AT_ONCE: Row = (
    RETURNS,
    "receive 0b > ok
wait > came 0b request 1 get():(link,link,link)
send 0b reply 1 0 link link link +1b +2b +3b > ok
wait > sent 0b
exit > ok
ended",
);

const IS_RETURNED: &str =
    "module m; op get () : (link, link, link); param a : link; var x : link; var y : link; var z : link; begin connect get on a () : (x, y, z); destroy z; end.";

const IS_RETURNED_ONE_BY_ONE: Row = (
    IS_RETURNED,
    "send 0b request 1 get():(link,link,link) > ok
receive 0b > ok
wait > sent 0b
wait > came 0b reply 1 0 link link link +5a
receive 0b > ok
wait > came 0b enc 2 1 2 +6a
receive 0b > ok
wait > came 0b enc 2 1 3 +7a
destroy 7a > ok
exit > ok
ended",
);

const IS_RETURNED_AT_ONCE: Row = (
    IS_RETURNED,
    "send 0b request 1 get():(link,link,link) > ok
receive 0b > ok
wait > sent 0b
wait > came 0b reply 1 0 link link link +5a +6a +7a
destroy 7a > ok
exit > ok
ended",
);

#[test]
fn three_ends_in_a_reply(rt: HostRuntime) -> Result<(), Fail> {
    run(rt.alloc(), 1, RETURNS_ONE_BY_ONE)?;
    run(rt.alloc(), 2, RETURNS_AT_ONCE)?;
    run(rt.alloc(), 1, IS_RETURNED_ONE_BY_ONE)?;
    run(rt.alloc(), 2, IS_RETURNED_AT_ONCE)
}
