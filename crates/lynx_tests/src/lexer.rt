use crate::limits::holds;
use lynx_lexer::{Kind, LexFault, Token, tokens};
use std::alloc::{AllocError, Global};
use std::fmt::Write;
use std::str;
use std::test::Fail;

fn push_bytes(text: &mut String, bytes: &[u8]) -> Result<(), AllocError> {
    text.push_str(str::from_utf8(bytes).unwrap_or("?"))
}

/// Adds the token as it was read, and its place.
fn push_token(text: &mut String, token: &Token) -> Result<(), AllocError> {
    match &token.kind {
        Kind::Keyword(keyword) => push_bytes(text, keyword.as_slice())?,
        Kind::Sign(sign) => push_bytes(text, sign.as_slice())?,
        Kind::Name(name) => {
            text.push_str("<")?;
            push_bytes(text, name.to_ident().copy().as_slice())?;
            text.push_str(">")?;
        }
        Kind::Number(number) => write!(text, "{number}")?,
        Kind::Text(inside) => {
            text.push_str("'")?;
            push_bytes(text, inside.to_text().copy().as_slice())?;
            text.push_str("'")?;
        }
    }
    let from = token.from;
    let to = token.to;
    write!(text, "@{from}-{to} ")
}

fn answer(alloc: Global, source: &str) -> Result<String, AllocError> {
    let mut text = String::new(alloc);
    if source.len() > 1_000_000 {
        return Ok(text);
    }
    match tokens(alloc, source.as_bytes()) {
        Ok(found) => {
            for token in &found {
                push_token(&mut text, token)?;
            }
        }
        Err(LexFault::At { place, no }) => write!(text, "fault {no} at {place}")?,
        Err(LexFault::NoMemory) => text.push_str("no memory")?,
    }
    Ok(text)
}

/// Sources, and their tokens or first fault.
const ROWS: &[(&str, &str)] = &[
    ("module m;", "module@0-6 <m>@7-8 ;@8-9 "),
    ("x:=7-2", "<x>@0-1 :=@1-3 7@3-4 -@4-5 2@5-6 "),
    (
        "a<b<=c<>d>=e>f=g:h",
        "<a>@0-1 <@1-2 <b>@2-3 <=@3-5 <c>@5-6 <>@6-8 <d>@8-9 >=@9-11 <e>@11-12 >@12-13 <f>@13-14 =@14-15 <g>@15-16 :@16-17 <h>@17-18 ",
    ),
    (
        "1abc2_ End mod modx",
        "1@0-1 <abc2_>@1-6 <End>@7-10 mod@11-14 <modx>@15-19 ",
    ),
    ("'ab' '' '-- it'", "'ab'@0-4 ''@5-7 '-- it'@8-15 "),
    ("a-- # ' _\nb--", "<a>@0-1 <b>@10-11 "),
    (
        "\ta\r\n(b)[0];.,+*/",
        "<a>@1-2 (@4-5 <b>@5-6 )@6-7 [@7-8 0@8-9 ]@9-10 ;@10-11 .@11-12 ,@12-13 +@13-14 *@14-15 /@15-16 ",
    ),
    ("a---b\n-", "<a>@0-1 -@6-7 "),
    ("007 9223372036854775807", "7@0-3 9223372036854775807@4-23 "),
    ("", ""),
    (" \t\r\n-- no line feed", ""),
    (
        "aaaaaaaaaaaaaaaaaaaaaaaaaaaaaaaa",
        "<aaaaaaaaaaaaaaaaaaaaaaaaaaaaaaaa>@0-32 ",
    ),
    (
        "'xxxxxxxxxxxxxxxxxxxxxxxxxxxxxxxxxxxxxxxxxxxxxxxxxxxxxxxxxxxxxxxx'",
        "'xxxxxxxxxxxxxxxxxxxxxxxxxxxxxxxxxxxxxxxxxxxxxxxxxxxxxxxxxxxxxxxx'@0-66 ",
    ),
    // each fault; more of them are tried on the program (.ci/rows/modules)
    ("module m; begin n := 2 # 3; end.", "fault 1 at 23"),
    ("module m;\nbegin\n  x := 'ab;\nend.\n", "fault 2 at 23"),
    ("a 00000000000000000009223372036854775808 #", "fault 3 at 2"),
    (
        "; 'xxxxxxxxxxxxxxxxxxxxxxxxxxxxxxxxxxxxxxxxxxxxxxxxxxxxxxxxxxxxxxxxy'",
        "fault 4 at 2",
    ),
    ("(aaaaaaaaaaaaaaaaaaaaaaaaaaaaaaaab)", "fault 5 at 1"),
];

fn lexes(alloc: Global, source: &str, want: &str) -> Result<(), Fail> {
    let found = answer(alloc, source)?;
    holds(found.as_str() == want, source)
}

#[test]
fn sources_have_their_tokens_or_first_fault(rt: HostRuntime) -> Result<(), Fail> {
    for (source, want) in ROWS {
        lexes(rt.alloc(), source, want)?;
    }
    Ok(())
}
