//! Modules through `tokens`, `parse` and `print`.

use crate::limits::holds;
use lynx_lexer::{LexFault, tokens};
use lynx_syntax::{SyntaxFault, parse, print};
use std::alloc::{AllocError, Global};
use std::fmt::Write;
use std::str;
use std::test::Fail;

/// The printed module, or the fault.
fn answer(alloc: Global, source: &str) -> Result<String, AllocError> {
    let mut text = String::new(alloc);
    if source.len() > 1_048_576 {
        return Ok(text);
    }
    let source = source.as_bytes();
    let found = match tokens(alloc, source) {
        Ok(found) => found,
        Err(LexFault::At { place, no }) => {
            write!(text, "lex {no} at {place}")?;
            return Ok(text);
        }
        Err(LexFault::NoMemory) => {
            text.push_str("no memory")?;
            return Ok(text);
        }
    };
    match parse(alloc, source, &found) {
        Ok(tree) => match print(alloc, &tree) {
            Ok(bytes) => text.push_str(str::from_utf8(&bytes).unwrap_or("?"))?,
            Err(_) => text.push_str("no memory")?,
        },
        Err(SyntaxFault::At { token }) => write!(text, "at {token}")?,
        Err(SyntaxFault::TooDeep { token }) => write!(text, "deep {token}")?,
        Err(SyntaxFault::NoMemory) => text.push_str("no memory")?,
    }
    Ok(text)
}

/// Reads and prints a module, and what is printed too.
fn prints(alloc: Global, source: &str, printed: &str) -> Result<(), Fail> {
    answers(alloc, source, printed)?;
    answers(alloc, printed, printed)
}

/// A name server, a server that it names and a client of both, as they are read and as they are printed.
const NAMES: &str = "module names;
op register (link) : ();
op find () : (link);
op take (link) : ();
param a : link; param b : link; param c : link; param d : link;
var kept : link; var ready : bool;
entry reg of register (l) begin kept := l; ready := true; reply (); end;
entry get of find () var x : link; var y : link;
begin
  await ready; new x, y;
  connect take on kept (x) : (); reply (y);
end;
begin bind a to reg; bind b to get; bind c to get; bind d to get; end.
";

const PRINTED_NAMES: &str = "module names ;
op register ( link ) : ( ) ;
op find ( ) : ( link ) ;
op take ( link ) : ( ) ;
param a : link ;
param b : link ;
param c : link ;
param d : link ;
var kept : link ;
var ready : bool ;
entry reg of register ( l ) begin kept := l ;
ready := true ;
reply ( ) ;
end ;
entry get of find ( ) var x : link ;
var y : link ;
begin await ready ;
new x , y ;
connect take on kept ( x ) : ( ) ;
reply ( y ) ;
end ;
begin bind a to reg ;
bind b to get ;
bind c to get ;
bind d to get ;
end .
";

const ADDER: &str = "module adder;
op register (link) : ();
op take (link) : ();
op add (int, int) : (int);
param n : link;
var mine : link; var theirs : link;
entry sum of add (x, y) begin reply (x + y); end;
entry more of take (l) begin bind l to sum; reply (); end;
begin
  new mine, theirs; bind mine to more;
  connect register on n (theirs) : ();
end.
";

const PRINTED_ADDER: &str = "module adder ;
op register ( link ) : ( ) ;
op take ( link ) : ( ) ;
op add ( int , int ) : ( int ) ;
param n : link ;
var mine : link ;
var theirs : link ;
entry sum of add ( x , y ) begin reply ( x + y ) ;
end ;
entry more of take ( l ) begin bind l to sum ;
reply ( ) ;
end ;
begin new mine , theirs ;
bind mine to more ;
connect register on n ( theirs ) : ( ) ;
end .
";

const CLIENT: &str = "module client;
op find () : (link);
op add (int, int) : (int);
param n : link;
var l : link; var r : int;
begin
  connect find on n () : (l);
  connect add on l (20, 22) : (r);
  write r; destroy l;
end.
";

const PRINTED_CLIENT: &str = "module client ;
op find ( ) : ( link ) ;
op add ( int , int ) : ( int ) ;
param n : link ;
var l : link ;
var r : int ;
begin connect find on n ( ) : ( l ) ;
connect add on l ( 20 , 22 ) : ( r ) ;
write r ;
destroy l ;
end .
";

/// A sum of many numbers, as it is printed.
fn long_chain(alloc: Global) -> Result<String, AllocError> {
    let mut text = String::from_str(alloc, "module m ;\nbegin n := 1 ")?;
    for _ in 0..250_000u32 {
        text.push_str("+ 1 ")?;
    }
    text.push_str(";\nend .\n")?;
    Ok(text)
}

/// Modules, and what is printed of each.
const PRINTED: &[(&str, &str)] = &[
    (
        "module m; var n : int; begin n := 7 - 2; write n; end.",
        "module m ;\nvar n : int ;\nbegin n := 7 - 2 ;\nwrite n ;\nend .\n",
    ),
    ("module m; begin end.", "module m ;\nbegin end .\n"),
    (
        "module m; op p (int, row 3) : (text); op q () : (); param a : link; var b : bool; entry e of p (x, y) var t : text; begin reply ('a b'); end; begin end.",
        "module m ;\nop p ( int , row 3 ) : ( text ) ;\nop q ( ) : ( ) ;\nparam a : link ;\nvar b : bool ;\nentry e of p ( x , y ) var t : text ;\nbegin reply ( 'a b' ) ;\nend ;\nbegin end .\n",
    ),
    (
        "module m; begin x[1] := not a or b and c = 1 + 2 * -3 mod (4) - y[i]; end.",
        "module m ;\nbegin x [ 1 ] := not a or b and c = 1 + 2 * - 3 mod ( 4 ) - y [ i ] ;\nend .\n",
    ),
    (
        "module m; begin if a then stop; else raise X; end; if b then end; while c do await true; end; end.",
        "module m ;\nbegin if a then stop ;\nelse raise X ;\nend ;\nif b then end ;\nwhile c do await true ;\nend ;\nend .\n",
    ),
    (
        "module m; begin new a, b; destroy a; bind b to e; unbind b from e; connect p on b (1, 'x') : (r, s); accept p on b () do reply (); end; end.",
        "module m ;\nbegin new a , b ;\ndestroy a ;\nbind b to e ;\nunbind b from e ;\nconnect p on b ( 1 , 'x' ) : ( r , s ) ;\naccept p on b ( ) do reply ( ) ;\nend ;\nend .\n",
    ),
    (
        "module m; begin try n := 1 / n; when DIVIDE do n := 3; when RANGE do end; try end; end.",
        "module m ;\nbegin try n := 1 / n ;\nwhen DIVIDE do n := 3 ;\nwhen RANGE do end ;\ntry end ;\nend .\n",
    ),
    (
        "module m; begin x := a - b - c < d * e / f; write a or b or c and d; end.",
        "module m ;\nbegin x := a - b - c < d * e / f ;\nwrite a or b or c and d ;\nend .\n",
    ),
    (NAMES, PRINTED_NAMES),
    (ADDER, PRINTED_ADDER),
    (CLIENT, PRINTED_CLIENT),
];

/// Modules that are refused, and where. More of them are tried on the program (.ci/rows/modules).
const REFUSED: &[(&str, &str)] = &[
    ("module m; begin x := ; end.", "at 6"),
    (
        "module m; begin n := ((((((((((((((((((((((((((((((((((((((((((((((((((((((((((((((((1",
        "deep 69",
    ),
];

fn answers(alloc: Global, source: &str, want: &str) -> Result<(), Fail> {
    holds(answer(alloc, source)?.as_str() == want, source)
}

#[test]
fn modules_are_printed_and_read_again(rt: HostRuntime) -> Result<(), Fail> {
    for (source, want) in PRINTED {
        prints(rt.alloc(), source, want)?;
    }
    for (source, want) in REFUSED {
        answers(rt.alloc(), source, want)?;
    }
    Ok(())
}

#[test]
fn a_long_module_is_printed_and_read_again(rt: HostRuntime) -> Result<(), Fail> {
    let long = long_chain(rt.alloc())?;
    let found = answer(rt.alloc(), long.as_str())?;
    holds(found.as_str() == long.as_str(), "a long sum")
}
