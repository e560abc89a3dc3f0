//! Modules through `check`: which rule is broken, at which token, or none.

use crate::limits::holds;
use lynx_lexer::tokens;
use lynx_syntax::parse;
use lynx_types::{TypeFault, check};
use std::alloc::{AllocError, Global};
use std::fmt::Write;
use std::test::Fail;

/// What `check` answers of a module.
fn answer(alloc: Global, source: &str) -> Result<String, AllocError> {
    let mut answer = String::new(alloc);
    if source.len() > 1_000_000 {
        return Ok(answer);
    }
    let source = source.as_bytes();
    let Ok(found) = tokens(alloc, source) else {
        return Ok(answer);
    };
    let Ok(tree) = parse(alloc, source, &found) else {
        return Ok(answer);
    };
    match check(alloc, tree) {
        Ok(checked) => {
            let is_m = checked.module().name.as_slice() == b"m".as_slice();
            answer.push_str(if is_m { "ok" } else { "?" })?;
        }
        Err(TypeFault::At { place, rule }) => write!(answer, "rule {rule} at {place}")?,
        Err(TypeFault::NoMemory) => answer.push_str("no memory")?,
    }
    Ok(answer)
}

/// How a module `m` goes on, and what `check` answers.
type Row = (&'static str, &'static str);

/// Tries a module `m` that goes on so.
fn tried(alloc: Global, body: &str, want: &str) -> Result<(), Fail> {
    let mut source = String::from_str(alloc, "module m; ")?;
    source.push_str(body)?;
    holds(answer(alloc, source.as_str())?.as_str() == want, body)
}

/// One of each kind of answer, and the first of two faults. More of them are tried on the program (.ci/rows/typing).
const ROWS: &[Row] = &[
    ("begin end.", "ok"),
    (
        "op o () : (); var x : text; entry e of o () var x : int; begin x := 1; reply (); end; begin x := 'a'; end.",
        "ok",
    ),
    ("var n : int; begin n := 1 + 'a'; end.", "rule 9 at 13"),
    (
        "op o (row 17) : (); op o () : (); begin end.",
        "rule 4 at 7",
    ),
    (
        "op give (link,link,link,link,link,link,link,link,link,row 16,row 16) : (); begin end.",
        "rule 5 at 4",
    ),
];

#[test]
fn modules_are_checked(rt: HostRuntime) -> Result<(), Fail> {
    for (body, want) in ROWS {
        tried(rt.alloc(), body, want)?;
    }
    Ok(())
}
