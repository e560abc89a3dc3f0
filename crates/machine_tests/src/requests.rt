//! Open requests: which one a reply and a close are for, and what exceptions close on their way.

use crate::playing::{Row, tried};
use std::test::Fail;

/// An accept in an entry, inside a try.
const TWO_OPEN: &str =
    "module m; op inner () : (bool); op outer (int) : (text); param a : link; var n : int; entry serve of outer (x) begin try accept inner on a () do reply (true); n := 1 / 0; end; when DIVIDE do reply ('d'); end; end; begin end.";

/// An accept in an accept in an entry.
const THREE_OPEN: &str =
    "module m; op a () : (int); op b () : (text); op c () : (bool); param l : link; entry e of c () begin accept a on l () do accept b on l () do reply ('b'); end; reply (1); end; reply (true); end; begin end.";

/// The same inside a try.
const TRIED: &str =
    "module m; op a () : (int); op b () : (text); op c () : (bool); param l : link; entry e of c () begin try accept a on l () do accept b on l () do reply ('b'); end; reply (1); end; when NOLINK do reply (true); end; end; begin end.";

/// A request is open from its accept, or the start of its thread, to its close.
const REQUESTS_ARE_NESTED: &[Row] = &[
    // with the fuel that each run leaves
    (TWO_OPEN, "0", "1 starts; 1 accept 1 0; left 996"),
    (
        TWO_OPEN,
        "0.",
        "1 starts; 1 accept 1 0; 1 reply true; left 994",
    ),
    (
        TWO_OPEN,
        "0..",
        "1 starts; 1 accept 1 0; 1 reply true; 1 close; left 991",
    ),
    (
        TWO_OPEN,
        "0...",
        "1 starts; 1 accept 1 0; 1 reply true; 1 close; 1 reply d; left 988",
    ),
    (
        TWO_OPEN,
        "0....",
        "1 starts; 1 accept 1 0; 1 reply true; 1 close; 1 reply d; 1 close; left 986",
    ),
    (
        TWO_OPEN,
        "0.....",
        "1 starts; 1 accept 1 0; 1 reply true; 1 close; 1 reply d; 1 close; finished 986",
    ),
    // a reply is for the innermost one, and behind an accept for the next one
    (
        THREE_OPEN,
        "0........",
        "1 starts; 1 accept 1 0; 1 accept 1 1; 1 reply b; 1 close; 1 reply 1; 1 close; 1 reply true; 1 close; finished 986",
    ),
    (
        "module m; op a () : (int); op b () : (text); op c () : (bool); param l : link; entry e of c () begin try reply (true); accept a on l () do reply (1); accept b on l () do reply ('b'); end; reply (2); end; when REPLIED do reply (false); end; end; begin end.",
        "0......R...",
        "1 starts; 1 reply true; 1 accept 1 0; 1 reply 1; 1 accept 1 1; 1 reply b; 1 close; 1 reply 2; 1 close; 1 reply false; 1 close; finished 980",
    ),
    (
        "module m; op a () : (int); op b () : (text); op c () : (bool); param l : link; entry e of c () begin accept a on l () do reply (1); end; accept b on l () do reply ('b'); end; reply (true); end; begin end.",
        "0........",
        "1 starts; 1 accept 1 0; 1 reply 1; 1 close; 1 accept 1 1; 1 reply b; 1 close; 1 reply true; 1 close; finished 986",
    ),
    (
        "module m; op a () : (int); op b () : (text); param l : link; begin accept a on l () do accept b on l () do reply ('b'); end; reply (1); end; write 'end'; end.",
        ".......",
        "0 accept 1 0; 0 accept 1 1; 0 reply b; 0 close; 0 reply 1; 0 close; 0 write end; finished 987",
    ),
    // each thread has its own
    (
        "module m; op a () : (int); op b () : (text); op c () : (bool); param l : link; var done : bool; entry e of c () begin accept b on l () do reply ('b'); end; reply (true); done := true; end; begin accept a on l () do await done; reply (1); end; end.",
        "0........",
        "1 starts; 0 accept 1 0; 1 accept 1 1; 1 reply b; 1 close; 1 reply true; 1 close; 0 reply 1; 0 close; finished 980",
    ),
    // threads of the last entry, the first and the one between, each with the request of its operation
    (
        "module m; op a () : (int); op b (text, int) : (text); op c (int) : (int); param l : link; entry d of b (s, k) begin reply (s); end; entry e of a () var s : text; var k : int; begin accept b on l (s, k) do reply (s); end; reply (k); end; entry f of c (k) begin reply (k + 1); end; begin end.",
        "201.........",
        "1 starts; 2 starts; 3 starts; 1 reply 8; 1 close; 2 reply t; 2 close; 3 accept 1 1; 3 reply t; 3 close; 3 reply 7; 3 close; finished 981",
    ),
    // an accept that is given an exception opens none
    (
        THREE_OPEN,
        "0N.",
        "1 starts; 1 accept 1 0; 1 close; finished 997",
    ),
    (
        THREE_OPEN,
        "0.N..",
        "1 starts; 1 accept 1 0; 1 accept 1 1; 1 close; 1 close; finished 995",
    ),
    (
        TRIED,
        "0N..",
        "1 starts; 1 accept 1 0; 1 reply true; 1 close; finished 991",
    ),
    (
        TRIED,
        "0.N...",
        "1 starts; 1 accept 1 0; 1 accept 1 1; 1 close; 1 reply true; 1 close; finished 989",
    ),
    (
        "module m; op a () : (int); op b () : (text); op c () : (bool); param l : link; entry e of c () begin accept a on l () do try accept b on l () do end; when NOLINK do reply (1); end; end; reply (true); end; begin end.",
        "0.N....",
        "1 starts; 1 accept 1 0; 1 accept 1 1; 1 reply 1; 1 close; 1 reply true; 1 close; finished 986",
    ),
    (
        "module m; op a () : (int); param l : link; begin try accept a on l () do reply (1); end; when BUSYLINK do accept a on l () do reply (2); end; end; end.",
        "B...",
        "0 accept 1 0; 0 accept 1 0; 0 reply 2; 0 close; finished 989",
    ),
];

#[test]
fn requests_are_nested(rt: HostRuntime) -> Result<(), Fail> {
    for row in REQUESTS_ARE_NESTED {
        tried(rt.alloc(), *row)?;
    }
    Ok(())
}

/// An accept in an accept in an entry, which raises in the innermost one.
const LEFT: &str =
    "module m; op a () : (int); op b () : (text); op c () : (bool); param l : link; entry e of c () begin accept a on l () do accept b on l () do raise FAILED; end; reply (1); end; reply (true); end; begin end.";

/// An exception closes what it leaves, the innermost request first.
const EXCEPTIONS_CLOSE_REQUESTS: &[Row] = &[
    // no try is open: the thread ends, from each depth
    (
        "module m; op o () : (); entry e of o () begin raise FAILED; end; begin end.",
        "0.",
        "1 starts; 1 close; finished 998",
    ),
    (
        LEFT,
        "0.....",
        "1 starts; 1 accept 1 0; 1 accept 1 1; 1 close; 1 close; 1 close; finished 994",
    ),
    (
        "module m; op a () : (int); op b () : (text); op c () : (bool); param l : link; entry e of c () begin accept a on l () do accept b on l () do reply ('b'); end; raise FAILED; end; end; begin end.",
        "0......",
        "1 starts; 1 accept 1 0; 1 accept 1 1; 1 reply b; 1 close; 1 close; 1 close; finished 991",
    ),
    (
        "module m; op a () : (); op b () : (); op c () : (); param l : link; entry e of c () begin accept a on l () do accept b on l () do destroy l; end; end; end; begin end.",
        "0..N...",
        "1 starts; 1 accept 1 0; 1 accept 1 1; 1 destroy 1; 1 close; 1 close; 1 close; finished 993",
    ),
    (
        "module m; op a () : (); op b () : (); param l : link; begin accept a on l () do accept b on l () do raise FAILED; end; end; write 'never'; end.",
        "....",
        "0 accept 1 0; 0 accept 1 1; 0 close; 0 close; finished 995",
    ),
    // a try in the innermost body, around its accept, and around both
    (
        "module m; op a () : (int); op b () : (text); op c () : (bool); param l : link; entry e of c () begin accept a on l () do accept b on l () do try raise FAILED; when FAILED do reply ('b'); end; end; reply (1); end; reply (true); end; begin end.",
        "0........",
        "1 starts; 1 accept 1 0; 1 accept 1 1; 1 reply b; 1 close; 1 reply 1; 1 close; 1 reply true; 1 close; finished 982",
    ),
    (
        "module m; op a () : (int); op b () : (text); op c () : (bool); param l : link; entry e of c () begin accept a on l () do try accept b on l () do raise FAILED; end; when FAILED do reply (1); end; end; reply (true); end; begin end.",
        "0.......",
        "1 starts; 1 accept 1 0; 1 accept 1 1; 1 close; 1 reply 1; 1 close; 1 reply true; 1 close; finished 985",
    ),
    (
        "module m; op a () : (int); op b () : (text); op c () : (bool); param l : link; entry e of c () begin try accept a on l () do accept b on l () do raise FAILED; end; reply (1); end; when FAILED do reply (true); end; end; begin end.",
        "0......",
        "1 starts; 1 accept 1 0; 1 accept 1 1; 1 close; 1 close; 1 reply true; 1 close; finished 988",
    ),
    // a try at each depth: the last one handles it, each raises another one, and none handles it
    (
        "module m; op a () : (int); op b () : (text); op c () : (bool); param l : link; entry e of c () begin try accept a on l () do try accept b on l () do try raise FAILED; when DIVIDE do reply ('b'); end; end; when RANGE do reply (1); end; end; when FAILED do reply (true); end; end; begin end.",
        "0......",
        "1 starts; 1 accept 1 0; 1 accept 1 1; 1 close; 1 close; 1 reply true; 1 close; finished 982",
    ),
    (
        "module m; op a () : (int); op b () : (text); op c () : (bool); param l : link; entry e of c () begin try accept a on l () do try accept b on l () do try raise FAILED; when FAILED do raise RANGE; end; end; when RANGE do raise DIVIDE; end; end; when DIVIDE do reply (true); end; end; begin end.",
        "0......",
        "1 starts; 1 accept 1 0; 1 accept 1 1; 1 close; 1 close; 1 reply true; 1 close; finished 982",
    ),
    (
        "module m; op a () : (int); op b () : (text); op c () : (bool); param l : link; entry e of c () begin try accept a on l () do try accept b on l () do try raise FAILED; when DIVIDE do reply ('b'); end; end; when RANGE do reply (1); end; end; when OVERFLOW do reply (true); end; end; begin end.",
        "0.....",
        "1 starts; 1 accept 1 0; 1 accept 1 1; 1 close; 1 close; 1 close; finished 985",
    ),
    // each turn of a loop leaves one
    (
        "module m; op a () : (); op c () : (bool); param l : link; var n : int; entry e of c () begin while n < 2 do try accept a on l () do n := n + 1; raise FAILED; end; when FAILED do end; end; reply (true); end; begin end.",
        "0......",
        "1 starts; 1 accept 1 0; 1 close; 1 accept 1 0; 1 close; 1 reply true; 1 close; finished 962",
    ),
    // by a connect, and no other thread goes on between the closes
    (
        "module m; op a () : (); op b () : (text); op c () : (); param l : link; var t : text; entry e of c () begin accept a on l () do connect b on l () : (t); end; end; begin end.",
        "00..F.....",
        "1 starts; 2 starts; 1 accept 1 0; 2 accept 1 0; 1 connect 1 1; 2 connect 1 1; 1 close; 1 close; 2 close; 2 close; finished 988",
    ),
    // by the condition of an await
    (
        "module m; op a () : (); op c () : (); param l : link; var n : int; var z : int; entry e of c () begin accept a on l () do await n > 0 and 1 / z > 0; end; end; begin connect a on l () : (); connect a on l () : (); n := 1; end.",
        "0.....",
        "1 starts; 0 connect 1 0; 1 accept 1 0; 0 connect 1 0; 1 close; 1 close; finished 979",
    ),
    // a thread of an entry between others ends with one
    (
        "module m; op a () : (int); op b (text, int) : (text); op c (int) : (int); param l : link; entry d of b (s, k) begin reply (s); end; entry e of a () var s : text; var k : int; begin accept b on l (s, k) do reply (s); end; reply (k); end; entry f of c (k) begin reply (k + 1); end; begin end.",
        "201.....R..",
        "1 starts; 2 starts; 3 starts; 1 reply 8; 1 close; 2 reply t; 2 close; 3 accept 1 1; 3 reply t; 3 close; 3 close; finished 985",
    ),
    // the next thread of its number has none of its requests
    (
        "module m; op a () : (); op c () : (); param l : link; var done : bool; entry e of c () begin accept a on l () do done := true; raise FAILED; end; end; begin await done; write 'body'; end.",
        "0....0...",
        "1 starts; 1 accept 1 0; 1 close; 1 close; 0 write body; 1 starts; 1 accept 1 0; 1 close; 1 close; finished 981",
    ),
];

#[test]
fn exceptions_close_requests(rt: HostRuntime) -> Result<(), Fail> {
    for row in EXCEPTIONS_CLOSE_REQUESTS {
        tried(rt.alloc(), *row)?;
    }
    Ok(())
}

/// The exception that leaves two requests is told by its handler.
const TOLD: &str =
    "module m; op a () : (); op b () : (); op c () : (); param l : link; entry e of c () begin try accept a on l () do accept b on l () do raise FAILED; end; end; when FAILED do write 'failed'; when DEADLINK do write 'dead'; when NOLINK do write 'none'; end; end; begin end.";

/// A close that is given an exception raises it, and the request is closed.
const CLOSES_RAISE: &[Row] = &[
    // in place of the exception that is under way
    (
        TOLD,
        "0......",
        "1 starts; 1 accept 1 0; 1 accept 1 1; 1 close; 1 close; 1 write failed; 1 close; finished 988",
    ),
    (
        TOLD,
        "0..D...",
        "1 starts; 1 accept 1 0; 1 accept 1 1; 1 close; 1 close; 1 write dead; 1 close; finished 987",
    ),
    (
        TOLD,
        "0...N..",
        "1 starts; 1 accept 1 0; 1 accept 1 1; 1 close; 1 close; 1 write none; 1 close; finished 986",
    ),
    (
        TOLD,
        "0..DN..",
        "1 starts; 1 accept 1 0; 1 accept 1 1; 1 close; 1 close; 1 write none; 1 close; finished 986",
    ),
    (
        TOLD,
        "0..ND.L",
        "1 starts; 1 accept 1 0; 1 accept 1 1; 1 close; 1 close; 1 write dead; 1 close; finished 987",
    ),
    (
        "module m; op a () : (); op b () : (); op c () : (); param l : link; entry e of c () begin try accept a on l () do try accept b on l () do raise FAILED; end; when FAILED do write 'b'; end; end; when DEADLINK do write 'a'; end; end; begin end.",
        "0..ND..",
        "1 starts; 1 accept 1 0; 1 accept 1 1; 1 close; 1 close; 1 write a; 1 close; finished 985",
    ),
    // where the thread ends with the instruction they change nothing
    (
        LEFT,
        "0..NDB",
        "1 starts; 1 accept 1 0; 1 accept 1 1; 1 close; 1 close; 1 close; finished 994",
    ),
    (
        THREE_OPEN,
        "0.......N",
        "1 starts; 1 accept 1 0; 1 accept 1 1; 1 reply b; 1 close; 1 reply 1; 1 close; 1 reply true; 1 close; finished 986",
    ),
    // at the end of an accept's body, at each depth
    (
        THREE_OPEN,
        "0...N..",
        "1 starts; 1 accept 1 0; 1 accept 1 1; 1 reply b; 1 close; 1 close; 1 close; finished 992",
    ),
    (
        THREE_OPEN,
        "0.....N.",
        "1 starts; 1 accept 1 0; 1 accept 1 1; 1 reply b; 1 close; 1 reply 1; 1 close; 1 close; finished 989",
    ),
    (
        TRIED,
        "0...N...",
        "1 starts; 1 accept 1 0; 1 accept 1 1; 1 reply b; 1 close; 1 close; 1 reply true; 1 close; finished 986",
    ),
    (
        TRIED,
        "0.....N..",
        "1 starts; 1 accept 1 0; 1 accept 1 1; 1 reply b; 1 close; 1 reply 1; 1 close; 1 reply true; 1 close; finished 983",
    ),
    (
        "module m; op a () : (int); op b () : (text); op c () : (bool); param l : link; entry e of c () begin accept a on l () do try accept b on l () do reply ('b'); end; when NOLINK do reply (1); end; end; reply (true); end; begin end.",
        "0...N....",
        "1 starts; 1 accept 1 0; 1 accept 1 1; 1 reply b; 1 close; 1 reply 1; 1 close; 1 reply true; 1 close; finished 983",
    ),
    // the next close raises in its place
    (
        "module m; op a () : (); op b () : (); op c () : (); param l : link; entry e of c () begin try accept a on l () do accept b on l () do end; end; when NOLINK do write 'none'; when DEADLINK do write 'dead'; end; end; begin end.",
        "0..ND..",
        "1 starts; 1 accept 1 0; 1 accept 1 1; 1 close; 1 close; 1 write dead; 1 close; finished 987",
    ),
    // no try of the body is open any longer
    (
        "module m; op a () : (int); op b () : (text); op c () : (bool); param l : link; entry e of c () begin accept a on l () do accept b on l () do try reply ('b'); when NOLINK do write 'never'; end; end; end; end; begin end.",
        "0...N..",
        "1 starts; 1 accept 1 0; 1 accept 1 1; 1 reply b; 1 close; 1 close; 1 close; finished 989",
    ),
    (
        "module m; op o () : (); param a : link; begin accept o on a () do end; write 'never'; end.",
        ".N",
        "0 accept 1 0; 0 close; finished 997",
    ),
    (
        "module m; op o () : (); param a : link; begin try accept o on a () do end; when NOLINK do write 'none'; end; end.",
        ".N.",
        "0 accept 1 0; 0 close; 0 write none; finished 991",
    ),
];

#[test]
fn closes_raise(rt: HostRuntime) -> Result<(), Fail> {
    for row in CLOSES_RAISE {
        tried(rt.alloc(), *row)?;
    }
    Ok(())
}
