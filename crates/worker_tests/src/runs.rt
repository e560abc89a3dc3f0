//! What runs leave: their transcripts, the turns that they take, and how they end.

use crate::nodes::{Making, holds, run};
use std::alloc::Global;
use std::test::Fail;

/// Rings of 64 letters, as the programs have, and turns enough.
pub(crate) const AMPLE: Making = Making {
    letters: 64,
    limit: 100,
    begins: None,
};

/// A message between two kernels, whose processes both wait for its report; then one exits, and the other is told of it.
pub(crate) const MESSAGE: (&str, &str) = (
    "version 2
kernels 2
process 0 on 0
process 1 on 1
wire 0 1
p0 send 0.0a hello
p0 wait
p0 exit
p1 receive 0.0b
p1 wait
p1 exit
",
    "transcript 2
kernels 2
process 0 on 0
process 1 on 1
wire 0 1
1 k0 p0 send 0.0a hello
. send 0.0a 1
1 k1 p1 receive 0.0b
. receive 0.0b
2 k0 p0 wait
. wait p0
2 k1 p1 wait
. wait p1
3 k0 from 1 want 0.0a 1 1 0
. match 0.0a 1
4 k1 from 0 parcel 0.0b 1 1 0 0 hello
. take 0.0a 1 p1
. report p1 0.0b in done hello
5 k0 from 1 taken 0.0a 1 1 0
. complete 0.0a 1
. report p0 0.0a out done
5 k1 p1 exit
. exit p1
6 k0 from 1 gone 0.0a 1
. notice 0.0a
7 k0 p0 exit
. exit p0
7 k1 from 0 goneseen 0.0b
quiet
",
);

/// Three packets of one event: where the ring holds one letter, two of them wait in the outbox, one for two turns.
const MANY: (&str, &str) = (
    "version 2
kernels 2
process 0 on 0
process 1 on 1
wire 0 1
wire 0 1
wire 0 1
p0 exit
",
    "transcript 2
kernels 2
process 0 on 0
process 1 on 1
wire 0 1
wire 0 1
wire 0 1
1 k0 p0 exit
. exit p0
2 k1 from 0 gone 0.0b 0
. notice 0.0b
3 k0 from 1 goneseen 0.0a
3 k1 from 0 gone 0.1b 0
. notice 0.1b
4 k0 from 1 goneseen 0.1a
4 k1 from 0 gone 0.2b 0
. notice 0.2b
5 k0 from 1 goneseen 0.2a
quiet
",
);

/// Three processes of one kernel make their calls in turn, and its packets to itself are taken before the next call. One waits at the end.
const ONE_KERNEL: (&str, &str) = (
    "version 2
kernels 1
process 0 on 0
process 1 on 0
process 2 on 0
wire 0 1
wire 2 2
p0 print a
p1 destroy 0.0b
p1 print b
p2 receive 0.1a
p2 wait
",
    "transcript 2
kernels 1
process 0 on 0
process 1 on 0
process 2 on 0
wire 0 1
wire 2 2
1 k0 p0 print a
2 k0 p1 destroy 0.0b
. destroy 0.0b
3 k0 from 0 gone 0.0a 0
. notice 0.0a
4 k0 from 0 goneseen 0.0b
5 k0 p2 receive 0.1a
. receive 0.1a
6 k0 from 0 want 0.1b 1 0 0
7 k0 p1 print b
8 k0 p2 wait
. wait p2
quiet
",
);

/// Two processes that print twice, on kernels 1 and 2, and none on kernel 0.
pub(crate) const PRINTS: &str = "version 2
kernels 3
process 0 on 1
process 1 on 2
p0 print a
p0 print b
p1 print c
p1 print d
";

/// The run of a script has this transcript.
fn has_transcript(alloc: Global, making: Making, row: (&str, &str)) -> Result<(), Fail> {
    let (script, text) = row;
    let ran = run(alloc, making, script)?;
    holds(ran.text.as_slice() == text.as_bytes(), text)
}

#[test]
fn runs_have_their_transcripts(rt: HostRuntime) -> Result<(), Fail> {
    for row in [MESSAGE, MANY, ONE_KERNEL] {
        has_transcript(rt.alloc(), AMPLE, row)?;
    }
    Ok(())
}

#[test]
fn a_letter_waits_for_its_place(rt: HostRuntime) -> Result<(), Fail> {
    let making = Making {
        letters: 1,
        ..AMPLE
    };
    for row in [MESSAGE, MANY] {
        has_transcript(rt.alloc(), making, row)?;
    }
    Ok(())
}

/// The last line of a run that prints, with so many turns.
fn prints_end(alloc: Global, limit: u32, last: &str) -> Result<(), Fail> {
    let ran = run(alloc, Making { limit, ..AMPLE }, PRINTS)?;
    holds(ran.text.ends_with(last.as_bytes()), last)
}

/// A program that prints twice takes three turns; one that ends with its last turn is quiet, and else the least kernel is named.
#[test]
fn turns_are_used_up(rt: HostRuntime) -> Result<(), Fail> {
    for (limit, last) in [
        (1, "1 k2 p1 print c\nspent 1\n"),
        (2, "2 k2 p1 print d\nspent 1\n"),
        (3, "2 k2 p1 print d\nquiet\n"),
    ] {
        prints_end(rt.alloc(), limit, last)?;
    }
    Ok(())
}
