//! What actions raise, in the order of the table "Tests of an action" of docs/PROCESS.md: rules 7 and 8.

use crate::runs::{Row, run, run_in_both};
use std::rt::HostRuntime;
use std::test::Fail;

/// NOLINK or BUSYLINK by the first value that may not go; then REPLIED, though the end is not held any more, nor the values.
const REPLIES: Row = (
    "module m; op take () : (link, link); param a : link; param b : link; param c : link; param d : link; begin destroy d; accept take on a () do try reply (d, a); when NOLINK do write 'nolink'; end; try reply (a, d); when BUSYLINK do write 'busylink'; end; try reply (b, b); when BUSYLINK do write 'busylink'; end; reply (b, c); try reply (b, c); when REPLIED do write 'replied'; end; destroy a; try reply (b, c); when REPLIED do write 'replied'; end; end; end.",
    "destroy 3b > ok
receive 0b > ok
wait > came 0b request 1 take():(link,link)
print nolink > ok
print busylink > ok
print busylink > ok
send 0b reply 1 0 link link +1b +2b > ok
print replied > ok
destroy 0b > ok
print replied > ok
exit > ok
ended",
);

/// DEADLINK before a value that is not held.
const REPLIES_LATE: Row = (
    "module m; op take () : (link); param a : link; param b : link; begin destroy b; accept take on a () do destroy a; try reply (b); when DEADLINK do write 'deadlink'; end; end; end.",
    "destroy 1b > ok
receive 0b > ok
wait > came 0b request 1 take():(link)
destroy 0b > ok
print deadlink > ok
exit > ok
ended",
);

#[test]
fn what_a_reply_raises(rt: HostRuntime) -> Result<(), Fail> {
    run(rt.alloc(), 2, REPLIES)?;
    run_in_both(rt.alloc(), REPLIES_LATE)
}

/// The end is held, then dead, then destroyed; the value is not held.
const ACTS: Row = (
    "module m; op ping () : (); op give (link) : (); param a : link; param b : link; entry serve of ping () begin reply (); end; begin destroy b; try connect give on a (b) : (); when NOLINK do write 'nolink'; end; try connect give on a (a) : (); when BUSYLINK do write 'busylink'; end; try connect ping on a () : (); when DEADLINK do write 'deadlink'; end; try connect give on a (b) : (); when DEADLINK do write 'deadlink'; end; try bind a to serve; when DEADLINK do write 'deadlink'; end; try accept ping on a () do reply (); end; when DEADLINK do write 'deadlink'; end; unbind a from serve; destroy a; try connect give on a (b) : (); when NOLINK do write 'nolink'; end; try bind a to serve; when NOLINK do write 'nolink'; end; try accept ping on a () do reply (); end; when NOLINK do write 'nolink'; end; try unbind a from serve; when NOLINK do write 'nolink'; end; try destroy a; when NOLINK do write 'nolink'; end; end.",
    "destroy 1b > ok
print nolink > ok
print busylink > ok
send 0b request 1 ping():() > dead
print deadlink > ok
print deadlink > ok
print deadlink > ok
print deadlink > ok
destroy 0b > ok
print nolink > ok
print nolink > ok
print nolink > ok
print nolink > ok
print nolink > ok
exit > ok
ended",
);

#[test]
fn what_other_actions_raise(rt: HostRuntime) -> Result<(), Fail> {
    run_in_both(rt.alloc(), ACTS)
}

/// The other end of the same link, and an end to which an entry is bound. When none is, and its Receive is cancelled, it may go.
const NEW_LINKS: Row = (
    "module m; op ping () : (); op give (link) : (); param a : link; var x : link; var y : link; entry serve of ping () begin reply (); end; begin new x, y; try connect give on x (y) : (); when BUSYLINK do write 'busylink'; end; bind y to serve; bind y to serve; try connect give on a (y) : (); when BUSYLINK do write 'busylink'; end; unbind y from serve; connect give on a (y) : (); try new x, y; when LINKSFULL do write 'linksfull'; end; end.",
    "make > made 5a 5b
print busylink > ok
receive 5b > ok
print busylink > ok
cancel 5b > ok
send 0b request 1 give(link):() link +5b > ok
receive 0b > ok
wait > sent 0b
wait > came 0b reply 1 0
make > full
print linksfull > ok
exit > ok
ended",
);

#[test]
fn a_new_link_whose_end_is_busy(rt: HostRuntime) -> Result<(), Fail> {
    run_in_both(rt.alloc(), NEW_LINKS)
}

/// An end on which a reply is owed stays.
const OWES: Row = (
    "module m; op ping () : (); op give (link) : (); param a : link; param b : link; begin accept ping on a () do try connect give on b (a) : (); when BUSYLINK do write 'busylink'; end; reply (); end; end.",
    "receive 0b > ok
wait > came 0b request 1 ping():()
print busylink > ok
send 0b reply 1 0 > ok
wait > sent 0b
exit > ok
ended",
);

#[test]
fn an_end_that_owes_a_reply(rt: HostRuntime) -> Result<(), Fail> {
    run_in_both(rt.alloc(), OWES)
}
