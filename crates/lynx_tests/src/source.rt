//! Sources as modules with their tokens, or as their first fault.

use crate::limits::holds;
use lynx_source::{Place, SourceFault, read_module, read_source, token_place};
use std::alloc::{AllocError, Global};
use std::fmt::Write;
use std::str;
use std::test::Fail;

/// The name of the module, or the fault.
fn answer(alloc: Global, source: &[u8]) -> Result<String, AllocError> {
    let mut text = String::new(alloc);
    if source.len() > 1_048_576 {
        return Ok(text);
    }
    match read_module(alloc, source) {
        Ok(module) => text.push_str(str::from_utf8(module.name.as_slice()).unwrap_or("?"))?,
        Err(SourceFault::Lex { at, no }) => write!(text, "{}:{} lex {no}", at.line, at.column)?,
        Err(SourceFault::Syntax { at }) => write!(text, "{}:{} syntax", at.line, at.column)?,
        Err(SourceFault::Deep { at }) => write!(text, "{}:{} deep", at.line, at.column)?,
        Err(SourceFault::Rule { .. } | SourceFault::CodeTooLong) => text.push_str("no reading")?,
        Err(SourceFault::NoMemory) => text.push_str("no memory")?,
    }
    Ok(text)
}

/// The number of a token, and its line and column.
const PLACES: [(u32, u32, u32); 5] = [(0, 1, 1), (2, 1, 9), (3, 2, 3), (5, 2, 12), (6, 2, 13)];

/// The tokens of a module have their places, and so has the end of its source.
#[test]
fn tokens_have_places(rt: HostRuntime) -> Result<(), Fail> {
    let source = b"module m;\n  begin end.";
    let reading = read_source(rt.alloc(), source).map_err(|_| "a fault")?;
    holds(reading.tokens.len() == 6, "how many tokens there are")?;
    for (token, line, column) in PLACES {
        let at = token_place(source, &reading.tokens, token);
        holds(at == Place { line, column }, "the place of a token")?;
    }
    Ok(())
}

/// One source of each kind of answer. More of them, and those at their limits, are tried on the program (.ci/checks/readings).
const ROWS: &[(&str, &str)] = &[
    (
        "-- a server\r\nmodule\tserver_2;\r\nbegin\r\nend.\r\n",
        "server_2",
    ),
    ("module m;\nbegin\n  x := 'ab;\nend.\n", "3:8 lex 2"),
    ("module m;\nbegin\nend;\n", "3:4 syntax"),
    (
        "module m; begin n :=\n((((((((((((((((((((((((((((((((((((((((((((((((((((((((((((((((1",
        "2:64 deep",
    ),
];

fn reads(alloc: Global, source: &str, want: &str) -> Result<(), Fail> {
    let found = answer(alloc, source.as_bytes())?;
    holds(found.as_str() == want, source)
}

#[test]
fn sources_are_read(rt: HostRuntime) -> Result<(), Fail> {
    for (source, want) in ROWS {
        reads(rt.alloc(), source, want)?;
    }
    Ok(())
}
