//! Signatures of operations, and values of texts and rows.

use crate::limits::holds;
use lynx_lexer::tokens;
use lynx_syntax::parse;
use lynx_types::signature;
use std::alloc::{AllocError, Global};
use std::str;
use std::test::Fail;

/// The signatures of a module's operations, each with a line feed.
fn signatures(alloc: Global, source: &str) -> Result<String, AllocError> {
    let mut text = String::new(alloc);
    if source.len() > 1_048_576 {
        return Ok(text);
    }
    let source = source.as_bytes();
    let Ok(found) = tokens(alloc, source) else {
        return Ok(text);
    };
    let Ok(tree) = parse(alloc, source, &found) else {
        return Ok(text);
    };
    for op in &tree.ops {
        if let Ok(bytes) = signature(alloc, op) {
            text.push_str(str::from_utf8(&bytes).unwrap_or("?"))?;
            text.push('\n')?;
        }
    }
    Ok(text)
}

#[test]
fn signatures_have_no_blanks(rt: HostRuntime) -> Result<(), Fail> {
    let source =
        "module m; op add (int, int) : (int); op o () : (); op all (bool, text, link, row 16) : (row 9223372036854775807, text); begin end.";
    let text = signatures(rt.alloc(), source)?;
    holds(
        text.as_str()
            == "add(int,int):(int)\no():()\nall(bool,text,link,row16):(row9223372036854775807,text)\n",
        "signatures",
    )
}
