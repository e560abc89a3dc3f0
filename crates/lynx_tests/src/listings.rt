//! Modules through `compile_source`, `compile` and `listing`: each instruction, each form of statement, what code keeps of types, and code at its limit.

use crate::limits::holds;
use compiler_source::compile_source;
use lynx_source::{SourceFault, check_source};
use lynx_threads::{Code, compile, listing};
use lynx_tree::TypeName;
use std::alloc::{AllocError, Global};
use std::str;
use std::test::Fail;

/// The listing of a module, or why there is none.
fn answer(alloc: Global, source: &str) -> Result<String, AllocError> {
    let mut answer = String::new(alloc);
    if source.len() > 1_048_576 {
        return Ok(answer);
    }
    match compile_source(alloc, source.as_bytes()) {
        Ok(code) => {
            if let Ok(text) = listing(alloc, &code) {
                answer.push_str(str::from_utf8(text.as_slice()).unwrap_or("?"))?;
            }
        }
        Err(SourceFault::CodeTooLong) => answer.push_str("too long")?,
        Err(SourceFault::NoMemory) => answer.push_str("no memory")?,
        Err(_) => answer.push_str("no module")?,
    }
    Ok(answer)
}

/// How a module `m` goes on, and its listing, whose lines are parted by semicolons.
type Row = (&'static str, &'static str);

/// Tries a module `m` that goes on so. The lines of what is wanted are parted by semicolons.
fn tried(alloc: Global, body: &str, want: &str) -> Result<(), Fail> {
    let mut source = String::from_str(alloc, "module m; ")?;
    source.push_str(body)?;
    let found = answer(alloc, source.as_str())?;
    let mut wanted = String::from_str(alloc, "code m\n")?;
    for line in want.split("; ") {
        wanted.push_str(line)?;
        wanted.push_str("\n")?;
    }
    holds(found.as_str() == wanted.as_str(), body)
}

/// Expressions, and where their values go.
const EXPRESSIONS_ARE_COMPILED: &[Row] = &[
    ("begin end.", "part main; 0 end"),
    (
        "var n : int; begin n := - 7 + 2 - 1; end.",
        "part main; 0 push 7; 1 neg; 2 push 2; 3 add; 4 push 1; 5 sub; 6 storeg 0; 7 end",
    ),
    (
        "var n : int; begin n := (n * 2) / 3 mod 4; end.",
        "part main; 0 loadg 0; 1 push 2; 2 mul; 3 push 3; 4 div; 5 push 4; 6 mod; 7 storeg 0; 8 end",
    ),
    (
        "var n : int; var r : row 3; begin r[n] := r[n + 1]; end.",
        "part main; 0 loadg 0; 1 loadg 0; 2 push 1; 3 add; 4 atg 1; 5 putg 1; 6 end",
    ),
    (
        "begin write 1 = 2; write 1 <> 2; write 1 < 2; write 1 <= 2; write 1 > 2; write 1 >= 2; end.",
        "part main; 0 push 1; 1 push 2; 2 eq; 3 write; 4 push 1; 5 push 2; 6 ne; 7 write; 8 push 1; 9 push 2; 10 lt; 11 write; 12 push 1; 13 push 2; 14 le; 15 write; 16 push 1; 17 push 2; 18 gt; 19 write; 20 push 1; 21 push 2; 22 ge; 23 write; 24 end",
    ),
    (
        "begin write not true and 'a' = '' and false; write true or false or true; end.",
        "part main; 0 push true; 1 not; 2 andj 6; 3 push 'a'; 4 push ''; 5 eq; 6 andj 8; 7 push false; 8 write; 9 push true; 10 orj 12; 11 push false; 12 orj 14; 13 push true; 14 write; 15 end",
    ),
];

#[test]
fn expressions_are_compiled(rt: HostRuntime) -> Result<(), Fail> {
    for (body, want) in EXPRESSIONS_ARE_COMPILED {
        tried(rt.alloc(), body, want)?;
    }
    Ok(())
}

/// Choices, loops and exceptions.
const JUMPS_ARE_COMPILED: &[Row] = &[
    (
        "begin if true then stop; end; if false then else stop; end; end.",
        "part main; 0 push true; 1 jumpf 3; 2 stop; 3 push false; 4 jumpf 6; 5 jump 7; 6 stop; 7 end",
    ),
    (
        "var n : int; begin while n < 2 do n := n + 1; end; await n > 1; end.",
        "part main; 0 loadg 0; 1 push 2; 2 lt; 3 jumpf 9; 4 loadg 0; 5 push 1; 6 add; 7 storeg 0; 8 jump 0; 9 loadg 0; 10 push 1; 11 gt; 12 await 9; 13 end",
    ),
    (
        "begin try end; end.",
        "part main; 0 try 3; 1 untry; 2 jump 4; 3 again; 4 end",
    ),
    (
        "begin try raise RANGE; when DIVIDE do when RANGE do try stop; end; end; end.",
        "part main; 0 try 4; 1 raise RANGE; 2 untry; 3 jump 14; 4 case DIVIDE 6; 5 jump 14; 6 case RANGE 13; 7 try 11; 8 stop; 9 untry; 10 jump 12; 11 again; 12 jump 14; 13 again; 14 end",
    ),
];

#[test]
fn jumps_are_compiled(rt: HostRuntime) -> Result<(), Fail> {
    for (body, want) in JUMPS_ARE_COMPILED {
        tried(rt.alloc(), body, want)?;
    }
    Ok(())
}

/// What is done with links, and the names of entries.
const LINKS_ARE_COMPILED: &[Row] = &[
    (
        "param p : link; var l : link; begin new l, p; destroy l; end.",
        "part main; 0 new; 1 storeg 0; 2 storeg 1; 3 loadg 1; 4 destroy; 5 end",
    ),
    (
        "op o () : (); op a (int, bool) : (int, bool); param l : link; var n : int; var b : bool; entry e of o () var l : int; begin l := n; end; entry main of a (x, n) var r : row 2; begin r[x] := 1; reply (r[x], n); end; begin bind l to e; unbind l from main; connect a on l (n, b) : (n, b); accept a on l (n, b) do reply (n, b); end; connect o on l () : (); end.",
        "part main; 0 loadg 0; 1 bind 0; 2 loadg 0; 3 unbind 1; 4 loadg 1; 5 loadg 2; 6 loadg 0; 7 connect 1; 8 storeg 2; 9 storeg 1; 10 loadg 0; 11 accept 1; 12 storeg 2; 13 storeg 1; 14 loadg 1; 15 loadg 2; 16 reply 2; 17 close; 18 loadg 0; 19 connect 0; 20 end; part e; 21 loadg 1; 22 storel 0; 23 end; part main; 24 loadl 0; 25 push 1; 26 putl 2; 27 loadl 0; 28 atl 2; 29 loadl 1; 30 reply 2; 31 end",
    ),
];

#[test]
fn links_are_compiled(rt: HostRuntime) -> Result<(), Fail> {
    for (body, want) in LINKS_ARE_COMPILED {
        tried(rt.alloc(), body, want)?;
    }
    Ok(())
}

/// Whether code has a param that is a link and a variable of type int, and one operation, `a(int,bool):(text)`.
fn has_declarations(code: &Code) -> bool {
    let [TypeName::Link, TypeName::Int] = code.globals.as_slice() else {
        return false;
    };
    let [op] = code.ops.as_slice() else {
        return false;
    };
    code.params == 1
        && op.signature.as_slice() == b"a(int,bool):(text)".as_slice()
        && op.arguments.len() == 2
        && op.results.len() == 1
}

/// Whether code has a body without variables, and an entry behind it with an int, a bool and a row.
fn has_parts(code: &Code) -> bool {
    let [main, entry] = code.parts.as_slice() else {
        return false;
    };
    let [TypeName::Int, TypeName::Bool, TypeName::Row(3)] = entry.locals.as_slice() else {
        return false;
    };
    main.op.is_none()
        && main.locals.is_empty()
        && main.start == 0
        && entry.op == Some(0)
        && entry.start == 3
}

/// What code keeps of declarations and of parts.
#[test]
fn declarations_are_kept(rt: HostRuntime) -> Result<(), Fail> {
    let source =
        "module m; op a (int, bool) : (text); param p : link; var n : int; entry e of a (x, y) var r : row 3; begin end; begin write n; end.";
    let Ok(checked) = check_source(rt.alloc(), source.as_bytes()) else {
        return Err("the module".into());
    };
    let Ok(code) = compile(rt.alloc(), &checked) else {
        return Err("the code".into());
    };
    if !has_declarations(&code) {
        return Err("the declarations".into());
    }
    if !has_parts(&code) {
        return Err("the parts".into());
    }
    Ok(())
}

/// Whether two codes have the same listing.
fn are_listed_alike(alloc: Global, one: &Code, other: &Code) -> bool {
    let Ok(text) = listing(alloc, one) else {
        return false;
    };
    let Ok(other_text) = listing(alloc, other) else {
        return false;
    };
    text.as_slice() == other_text.as_slice()
}

/// What a copy of code keeps: declarations, parts and instructions, also with texts.
#[test]
fn copies_are_equal(rt: HostRuntime) -> Result<(), Fail> {
    let source =
        "module m; op a (int, bool) : (text); param p : link; var n : int; entry e of a (x, y) var r : row 3; begin reply ('yes'); end; begin write 'no'; end.";
    let Ok(checked) = check_source(rt.alloc(), source.as_bytes()) else {
        return Err("the module".into());
    };
    let Ok(code) = compile(rt.alloc(), &checked) else {
        return Err("the code".into());
    };
    let Ok(copy) = code.copy(rt.alloc()) else {
        return Err("the copy".into());
    };
    if !has_declarations(&copy) {
        return Err("the declarations".into());
    }
    if !has_parts(&copy) {
        return Err("the parts".into());
    }
    if !are_listed_alike(rt.alloc(), &code, &copy) {
        return Err("the listing".into());
    }
    Ok(())
}

/// The copy of code with a try.
#[test]
fn handlers_are_copied(rt: HostRuntime) -> Result<(), Fail> {
    let source =
        "module m; var n : int; begin try n := 1 / n; when DIVIDE do n := 3; end; write n; end.";
    let Ok(checked) = check_source(rt.alloc(), source.as_bytes()) else {
        return Err("the module".into());
    };
    let Ok(code) = compile(rt.alloc(), &checked) else {
        return Err("the code".into());
    };
    let Ok(copy) = code.copy(rt.alloc()) else {
        return Err("the copy".into());
    };
    holds(are_listed_alike(rt.alloc(), &code, &copy), "the listing")
}

/// How many instructions a body of so many statements `write 1;` has; none where it is too long.
fn instructions(alloc: Global, statements: u32) -> Result<Option<usize>, AllocError> {
    let mut source = String::from_str(alloc, "module m; begin ")?;
    for _ in 0..statements {
        source.push_str("write 1;")?;
    }
    source.push_str("end.")?;
    if source.len() > 1_048_576 {
        return Ok(None);
    }
    let Ok(checked) = check_source(alloc, source.as_bytes()) else {
        return Ok(None);
    };
    match compile(alloc, &checked) {
        Ok(code) => Ok(Some(code.instructions.len())),
        Err(_) => Ok(None),
    }
}

/// The longest code, and code that is too long.
#[test]
fn code_has_a_limit(rt: HostRuntime) -> Result<(), Fail> {
    if instructions(rt.alloc(), 32767)? != Some(65535) {
        return Err("the longest code".into());
    }
    if instructions(rt.alloc(), 32768)?.is_some() {
        return Err("code that is too long".into());
    }
    Ok(())
}
