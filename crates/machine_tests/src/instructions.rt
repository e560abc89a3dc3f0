//! Each instruction, by what a module writes and asks for.

use crate::playing::{Row, tried};
use std::test::Fail;

/// Numbers, truths and texts.
const OPERATORS_COMPUTE: &[Row] = &[
    (
        "module m; var n : int; begin n := - 7 + 2 * 3; write n; write 7 / 2; write 7 mod 2; write n - 1; end.",
        "....",
        "0 write -1; 0 write 3; 0 write 1; 0 write -2; finished 978",
    ),
    (
        "module m; begin write - 7 / 2; write - 7 mod 2; write 7 / - 2; write 7 mod - 2; end.",
        "....",
        "0 write -3; 0 write -1; 0 write -3; 0 write 1; finished 979",
    ),
    (
        "module m; begin write 1 = 2; write 1 <> 2; write 1 < 2; write 1 <= 1; end.",
        "....",
        "0 write false; 0 write true; 0 write true; 0 write true; finished 983",
    ),
    (
        "module m; begin write 2 > 3; write 3 >= 3; write 'a' = 'a'; write true <> true; end.",
        "....",
        "0 write false; 0 write true; 0 write true; 0 write false; finished 983",
    ),
    (
        "module m; begin write not true; write true and false; write false or true; write false and true; end.",
        "....",
        "0 write false; 0 write false; 0 write true; 0 write false; finished 985",
    ),
    (
        "module m; var t : text; begin write t; t := 'ab'; write t; end.",
        "..",
        "0 write ; 0 write ab; finished 993",
    ),
];

#[test]
fn operators_compute(rt: HostRuntime) -> Result<(), Fail> {
    for row in OPERATORS_COMPUTE {
        tried(rt.alloc(), *row)?;
    }
    Ok(())
}

/// Choices, loops, rows, and the variables of an entry.
const VARIABLES_ARE_KEPT: &[Row] = &[
    (
        "module m; var n : int; begin while n < 2 do n := n + 1; end; if n = 2 then write 'two'; else write 'other'; end; if n = 3 then write 'three'; end; end.",
        ".",
        "0 write two; finished 966",
    ),
    (
        "module m; var r : row 3; var n : int; begin r[1] := 5; n := r[1]; write n; write r[0]; end.",
        "..",
        "0 write 5; 0 write 0; finished 988",
    ),
    (
        "module m; op o (int) : (int); entry e of o (x) var y : int; var r : row 2; begin y := x * 2; r[1] := y; write r[1]; reply (y); end; begin end.",
        "0...",
        "1 starts; 1 write 14; 1 reply 14; 1 close; finished 986",
    ),
];

#[test]
fn variables_are_kept(rt: HostRuntime) -> Result<(), Fail> {
    for row in VARIABLES_ARE_KEPT {
        tried(rt.alloc(), *row)?;
    }
    Ok(())
}

/// Actions, and what they are given.
const ACTIONS_ARE_ASKED_FOR: &[Row] = &[
    (
        "module m; op o () : (); param a : link; var b : link; var c : link; entry e of o () begin reply (); end; begin new b, c; write 'x'; destroy b; bind a to e; unbind a from e; destroy c; end.",
        "......",
        "0 new; 0 write x; 0 destroy 50; 0 bind 1 0; 0 unbind 1 0; 0 destroy 51; finished 986",
    ),
    (
        "module m; op o (int, bool) : (int, text); param a : link; var n : int; var t : text; begin connect o on a (4, true) : (n, t); write n; write t; end.",
        "...",
        "0 connect 1 0 4 true; 0 write 7; 0 write t; finished 989",
    ),
    (
        "module m; op o (int) : (int); param a : link; var n : int; begin accept o on a (n) do reply (n + 1); end; end.",
        "...",
        "0 accept 1 0; 0 reply 8; 0 close; finished 991",
    ),
    (
        "module m; begin write 1; stop; write 2; end.",
        ".",
        "0 write 1; 0 stop; left 997",
    ), // each one with the last operation and the last entry, by the body and by that entry
    (
        "module m; op a () : (); op b (int) : (); op c (int) : (text); param l : link; var x : link; var y : link; var n : int; var t : text; entry d of a () begin end; entry e of c (k) begin reply ('e'); end; begin new x, y; bind y to e; unbind y from e; connect c on l (4) : (t); accept c on l (n) do reply (t); end; write n; destroy y; stop; end.",
        ".........",
        "0 new; 0 bind 51 1; 0 unbind 51 1; 0 connect 1 2 4; 0 accept 1 2; 0 reply t; 0 close; 0 write 7; 0 destroy 51; 0 stop; left 978",
    ),
    (
        "module m; op a () : (); op b (int) : (); op c (int) : (text); param l : link; var x : link; var y : link; var t : text; entry d of a () begin end; entry e of c (k) begin new x, y; bind y to e; unbind y from e; connect c on l (k) : (t); accept c on l (k) do reply (t); end; write k; destroy y; reply ('e'); stop; end; begin end.",
        "1..........",
        "1 starts; 1 new; 1 bind 51 1; 1 unbind 51 1; 1 connect 1 2 7; 1 accept 1 2; 1 reply t; 1 close; 1 write 7; 1 destroy 51; 1 reply e; 1 stop; left 975",
    ),
    // in a module without entries
    (
        "module m; op a () : (); op b (int) : (text); var x : link; var y : link; var n : int; var t : text; begin new x, y; connect b on x (4) : (t); accept b on y (n) do reply (t); end; write t; destroy x; stop; end.",
        ".......",
        "0 new; 0 connect 50 1 4; 0 accept 51 1; 0 reply t; 0 close; 0 write t; 0 destroy 50; 0 stop; left 982",
    ),
];

#[test]
fn actions_are_asked_for(rt: HostRuntime) -> Result<(), Fail> {
    for row in ACTIONS_ARE_ASKED_FOR {
        tried(rt.alloc(), *row)?;
    }
    Ok(())
}
