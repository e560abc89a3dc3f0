//! Turns: where a thread switches, and how far a run comes.

use crate::playing::{Row, machine, played_so, started, tried};
use std::alloc::AllocError;
use std::test::Fail;

/// A thread goes on unless it connects, accepts, ends, or finds false.
const THREADS_SWITCH_ONLY_WHERE_THEY_BLOCK: &[Row] = &[
    // any other action
    (
        "module m; op o () : (); var a : link; var b : link; entry e of o () begin write 'entry'; end; begin new a, b; write 'body'; destroy a; end.",
        "0.....",
        "1 starts; 0 new; 0 write body; 0 destroy 50; 1 write entry; 1 close; finished 989",
    ),
    // a connect, also one that raises at once
    (
        "module m; op o () : (); param a : link; entry e of o () begin write 'entry'; end; begin connect o on a () : (); write 'body'; end.",
        "0....",
        "1 starts; 0 connect 1 0; 1 write entry; 1 close; 0 write body; finished 992",
    ),
    (
        "module m; op o () : (); param a : link; entry e of o () begin write 'entry'; end; begin try connect o on a () : (); when FAILED do write 'body'; end; end.",
        "0F...",
        "1 starts; 0 connect 1 0; 1 write entry; 1 close; 0 write body; finished 989",
    ),
    // an accept
    (
        "module m; op o () : (); param a : link; entry e of o () begin write 'entry'; end; begin accept o on a () do write 'body'; end; end.",
        "0.....",
        "1 starts; 0 accept 1 0; 1 write entry; 1 close; 0 write body; 0 close; finished 991",
    ),
    // new threads take their turns in order
    (
        "module m; op o () : (); entry e of o () begin write 'one'; end; entry f of o () begin write 'two'; end; begin write 'body'; end.",
        "10.....",
        "1 starts; 2 starts; 0 write body; 1 write two; 1 close; 2 write one; 2 close; finished 991",
    ),
];

#[test]
fn threads_switch_only_where_they_block(rt: HostRuntime) -> Result<(), Fail> {
    for row in THREADS_SWITCH_ONLY_WHERE_THEY_BLOCK {
        tried(rt.alloc(), *row)?;
    }
    Ok(())
}

/// A thread that connected or accepted waits for its outcome.
const OUTCOMES_COME_LATER: &[Row] = &[
    (
        "module m; op o () : (int); param a : link; var n : int; begin connect o on a () : (n); write n; end.",
        "-.",
        "0 connect 1 0; blocked; 0 write 7; finished 994",
    ),
    (
        "module m; op o () : (); param a : link; begin accept o on a () do write 'body'; end; end.",
        "-..",
        "0 accept 1 0; blocked; 0 write body; 0 close; finished 994",
    ),
];

#[test]
fn outcomes_come_later(rt: HostRuntime) -> Result<(), Fail> {
    for row in OUTCOMES_COME_LATER {
        tried(rt.alloc(), *row)?;
    }
    Ok(())
}

/// An await that finds false is tried again where another thread has blocked or ended since.
const AWAITS_ARE_TRIED_AGAIN: &[Row] = &[
    ("module m; begin await false; end.", "", "blocked 998"),
    // one that finds true does not switch
    (
        "module m; op o () : (); entry e of o () begin write 'entry'; end; begin await true; write 'body'; end.",
        "0...",
        "1 starts; 0 write body; 1 write entry; 1 close; finished 992",
    ),
    // a condition that another thread makes true
    (
        "module m; op o () : (); var ready : bool; entry e of o () begin ready := true; write 'set'; end; begin await ready; write 'go'; end.",
        "0...",
        "1 starts; 1 write set; 1 close; 0 write go; finished 988",
    ),
    // a vain try wakes no one
    (
        "module m; op o () : (); entry e of o () begin await false; end; begin await false; end.",
        "0",
        "1 starts; blocked 994",
    ),
    // each awaits what the other makes true
    (
        "module m; op o () : (); var a : bool; var b : bool; entry e of o () begin await a; b := true; write 'entry'; end; begin a := true; await b; write 'body'; end.",
        "0...",
        "1 starts; 1 write entry; 1 close; 0 write body; finished 984",
    ),
    // a condition that raises ends the try
    (
        "module m; op o () : (); var n : int; var z : int; entry e of o () begin n := 1; end; begin try await n > 0 and 1 / z > 0; when DIVIDE do write 'raised'; end; end.",
        "0..",
        "1 starts; 1 close; 0 write raised; finished 979",
    ),
];

#[test]
fn awaits_are_tried_again(rt: HostRuntime) -> Result<(), Fail> {
    for row in AWAITS_ARE_TRIED_AGAIN {
        tried(rt.alloc(), *row)?;
    }
    Ok(())
}

/// A module, its fuel, and what it is given and does.
const WITH_FUEL: &[(&str, u32, &str, &str)] = &[
    ("module m; begin while true do end; end.", 5, "", "spent 0"),
    ("module m; begin end.", 0, "", "spent 0"),
    ("module m; begin end.", 1, "", "finished 0"),
    (
        "module m; begin write 1; end.",
        2,
        ".",
        "0 write 1; spent 0",
    ),
    (
        "module m; begin write 1; end.",
        3,
        ".",
        "0 write 1; finished 0",
    ),
    // the close of an entry's end was answered, and its thread ends without fuel
    (
        "module m; op o () : (); entry e of o () begin end; begin end.",
        2,
        "0.",
        "1 starts; 1 close; spent 0",
    ),
    (
        "module m; op o () : (); entry e of o () begin end; begin end.",
        3,
        "0.",
        "1 starts; 1 close; finished 1",
    ), // so does a thread amid an exception that closes two requests, and each close takes none
    (
        "module m; op o () : (); param a : link; entry e of o () begin accept o on a () do raise FAILED; end; end; begin end.",
        4,
        "0..",
        "1 starts; 1 accept 1 0; 1 close; spent 0",
    ),
    (
        "module m; op o () : (); param a : link; entry e of o () begin accept o on a () do raise FAILED; end; end; begin end.",
        5,
        "0...",
        "1 starts; 1 accept 1 0; 1 close; 1 close; finished 1",
    ),
];

/// Fuel is spent to the last unit, and none is taken by what comes after an action.
#[test]
fn fuel_is_spent_exactly(rt: HostRuntime) -> Result<(), Fail> {
    for (source, fuel, letters, want) in WITH_FUEL {
        played_so(rt.alloc(), source, *fuel, letters, want)?;
    }
    Ok(())
}

/// At most 32 threads stand.
#[test]
fn there_is_no_thread_33(rt: HostRuntime) -> Result<(), Fail> {
    let alloc = rt.alloc();
    let source = "module m; op o () : (); entry e of o () begin end; begin end.";
    let mut machine = machine(alloc, source)?;
    for number in 1..32_u8 {
        if started(alloc, &mut machine, 0)? != Some(number) {
            return Err("another number".into());
        }
    }
    if started(alloc, &mut machine, 0)?.is_some() {
        return Err("one more thread".into());
    }
    if machine.standing() == 32 {
        Ok(())
    } else {
        Err("another number stands".into())
    }
}
