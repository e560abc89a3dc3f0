//! Exceptions: by what they are raised, where they are handled, and what they close.

use crate::playing::{Row, tried};
use std::test::Fail;

/// By operators and indices.
const CODE_RAISES: &[Row] = &[
    (
        "module m; begin try write 1 / 0; when DIVIDE do write 'caught'; end; end.",
        ".",
        "0 write caught; finished 991",
    ),
    (
        "module m; begin try write 1 mod 0; when DIVIDE do write 'caught'; end; end.",
        ".",
        "0 write caught; finished 991",
    ),
    (
        "module m; begin try write 9223372036854775807 + 1; when OVERFLOW do write 'caught'; end; end.",
        ".",
        "0 write caught; finished 991",
    ),
    (
        "module m; begin try write (- 9223372036854775807 - 1) / - 1; when OVERFLOW do write 'caught'; end; end.",
        ".",
        "0 write caught; finished 987",
    ),
    (
        "module m; begin try write (- 9223372036854775807 - 1) mod - 1; when OVERFLOW do write 'caught'; end; end.",
        ".",
        "0 write caught; finished 987",
    ),
    (
        "module m; begin try write - (- 9223372036854775807 - 1); when OVERFLOW do write 'caught'; end; end.",
        ".",
        "0 write caught; finished 989",
    ),
    (
        "module m; var r : row 3; begin try write r[3]; when RANGE do write 'caught'; end; end.",
        ".",
        "0 write caught; finished 992",
    ),
    (
        "module m; var r : row 3; begin try r[- 1] := 2; when RANGE do write 'caught'; end; end.",
        ".",
        "0 write caught; finished 990",
    ),
    (
        "module m; begin try raise FAILED; when FAILED do write 'caught'; end; end.",
        ".",
        "0 write caught; finished 993",
    ),
];

#[test]
fn code_raises(rt: HostRuntime) -> Result<(), Fail> {
    for row in CODE_RAISES {
        tried(rt.alloc(), *row)?;
    }
    Ok(())
}

/// By actions.
const ACTIONS_RAISE: &[Row] = &[
    (
        "module m; param a : link; begin try destroy a; when BUSYLINK do write 'caught'; end; end.",
        "B.",
        "0 destroy 1; 0 write caught; finished 992",
    ),
    (
        "module m; param a : link; begin try destroy a; when DEADLINK do write 'caught'; end; end.",
        "D.",
        "0 destroy 1; 0 write caught; finished 992",
    ),
    (
        "module m; param a : link; begin try destroy a; when NOLINK do write 'caught'; end; end.",
        "N.",
        "0 destroy 1; 0 write caught; finished 992",
    ),
    (
        "module m; param a : link; begin try destroy a; when FAILED do write 'caught'; end; end.",
        "F.",
        "0 destroy 1; 0 write caught; finished 992",
    ),
    (
        "module m; param a : link; begin try destroy a; when REPLIED do write 'caught'; end; end.",
        "R.",
        "0 destroy 1; 0 write caught; finished 992",
    ),
    (
        "module m; param a : link; begin try destroy a; when LINKSFULL do write 'caught'; end; end.",
        "L.",
        "0 destroy 1; 0 write caught; finished 992",
    ),
];

#[test]
fn actions_raise(rt: HostRuntime) -> Result<(), Fail> {
    for row in ACTIONS_RAISE {
        tried(rt.alloc(), *row)?;
    }
    Ok(())
}

/// The first one is raised, in the order of evaluation.
const EVALUATION_GOES_FROM_LEFT_TO_RIGHT: &[Row] = &[
    (
        "module m; var r : row 3; begin try write 1 / 0 + r[9]; when DIVIDE do write 'first'; end; end.",
        ".",
        "0 write first; finished 991",
    ),
    (
        "module m; var r : row 3; begin try write r[9] + 1 / 0; when RANGE do write 'first'; end; end.",
        ".",
        "0 write first; finished 992",
    ),
    (
        "module m; var r : row 3; begin try r[9] := 1 / 0; when DIVIDE do write 'value'; end; end.",
        ".",
        "0 write value; finished 990",
    ),
    (
        "module m; begin write false and 1 / 0 = 1; end.",
        ".",
        "0 write false; finished 996",
    ),
    (
        "module m; begin write true or 1 / 0 = 1; end.",
        ".",
        "0 write true; finished 996",
    ),
];

#[test]
fn evaluation_goes_from_left_to_right(rt: HostRuntime) -> Result<(), Fail> {
    for row in EVALUATION_GOES_FROM_LEFT_TO_RIGHT {
        tried(rt.alloc(), *row)?;
    }
    Ok(())
}

/// The innermost try that has a handler, and accepts that are closed on the way.
const TRIES_ARE_NESTED: &[Row] = &[
    (
        "module m; begin try try raise FAILED; when DIVIDE do write 'inner'; end; when FAILED do write 'outer'; end; end.",
        ".",
        "0 write outer; finished 990",
    ),
    (
        "module m; begin try try raise FAILED; when FAILED do raise DIVIDE; end; when DIVIDE do write 'outer'; end; end.",
        ".",
        "0 write outer; finished 990",
    ),
    (
        "module m; op o () : (); param a : link; begin try accept o on a () do accept o on a () do raise FAILED; end; end; when FAILED do write 'caught'; end; end.",
        ".....",
        "0 accept 1 0; 0 accept 1 0; 0 close; 0 close; 0 write caught; finished 989",
    ),
    (
        "module m; op o () : (); param a : link; begin accept o on a () do try raise FAILED; when FAILED do write 'caught'; end; end; end.",
        "...",
        "0 accept 1 0; 0 write caught; 0 close; finished 990",
    ),
    (
        "module m; op o () : (); param a : link; begin try accept o on a () do raise FAILED; end; when DEADLINK do write 'caught'; end; end.",
        ".D.",
        "0 accept 1 0; 0 close; 0 write caught; finished 991",
    ),
    (
        "module m; op o () : (); param a : link; begin accept o on a () do raise FAILED; end; write 'never'; end.",
        "..",
        "0 accept 1 0; 0 close; finished 997",
    ),
    (
        "module m; op o () : (); param a : link; begin accept o on a () do reply (); end; end.",
        "N",
        "0 accept 1 0; finished 998",
    ),
    (
        "module m; op o () : (); param a : link; entry e of o () begin accept o on a () do raise FAILED; end; end; begin end.",
        "0..N",
        "1 starts; 1 accept 1 0; 1 close; 1 close; finished 996",
    ),
];

#[test]
fn tries_are_nested(rt: HostRuntime) -> Result<(), Fail> {
    for row in TRIES_ARE_NESTED {
        tried(rt.alloc(), *row)?;
    }
    Ok(())
}
