//! Entries, and transcripts that no script has.
ghost use Rattle.std.specs.Prelude.{◌≡◌, IfOk};

use charlotte_calls::{
    Bytes, Call, EndId, Ends, Items, LinkId, Pid, ServiceStep, Setting, Short, Side,
};
use charlotte_packets::{Picture, PictureWhat};
use journal_text::{Entry, Happened, Last, Placed, ScriptNote, print_header, print_transcript};
use std::alloc::Global;
use std::test::Fail;

/// Fails the test, and tells what was looked at, unless this holds.
pub(crate) fn holds(is_so: bool, what: &str) -> Result<(), Fail> {
    if is_so { Ok(()) } else { Err(what.into()) }
}

pub(crate) fn text(bytes: &[u8]) -> Result<Bytes, Fail> {
    Ok(Short::from_slice(bytes).ok_or("at most 256 bytes")?)
}

pub(crate) fn ends(items: &[EndId]) -> Result<Ends, Fail> {
    Ok(Short::from_slice(items).ok_or("at most eight ends")?)
}

pub(crate) fn asked(
    alloc: Global,
    stamp: u64,
    p: u16,
    call: &Call,
    steps: &[ServiceStep],
) -> Result<Entry, Fail>
    ensures { IfOk result (λ entry. entry.stamp ≡ stamp) }
{
    let happened = Happened::asked(alloc, Pid(p), call)?;
    Ok(Entry::of(alloc, stamp, happened, steps)?)
}

fn took(alloc: Global, stamp: u64, what: PictureWhat) -> Result<Entry, Fail>
    ensures { IfOk result (λ entry. entry.stamp ≡ stamp) }
{
    let picture = Picture { stamp: 0, what };
    let happened = Happened::took(alloc, 0, &picture)?;
    Ok(Entry::of(alloc, stamp, happened, &[])?)
}

pub(crate) fn same_lines(lines: &[Vec<u8>], wanted: &[&str]) -> Result<(), Fail> {
    holds(lines.len() == wanted.len(), "how many lines there are")?;
    for (line, want) in lines.iter().zip(wanted) {
        holds(line.as_slice() == want.as_bytes(), want)?;
    }
    Ok(())
}

pub(crate) const A: EndId = EndId {
    link: LinkId { maker: 0, count: 0 },
    side: Side::A,
};

const B: EndId = EndId {
    link: LinkId { maker: 0, count: 0 },
    side: Side::B,
};

pub(crate) const MADE: ServiceStep = ServiceStep::Make {
    p: Pid(0),
    a: A,
    b: B,
};

pub(crate) fn setting(alloc: Global) -> Result<Setting, Fail> {
    Ok(Setting {
        version: 2,
        kernels: 8,
        homes: Items::of(vec![in alloc; 0, 7]?),
        wires: Items::of(vec![in alloc; (Pid(0), Pid(1))]?),
    })
}

/// Entries, notes and a last line that go together in no run have their lines all the same.
pub(crate) const LINES: [&str; 17] = [
    "transcript 2\n",
    "kernels 8\n",
    "process 0 on 0\n",
    "process 1 on 7\n",
    "wire 0 1\n",
    "1 k0 p0 make\n",
    ". make 0.0a 0.0b\n",
    "1 k1 p0 make\n",
    ". make 0.0a 0.0b\n",
    "2 k1 from 0 goneseen 0.0a\n",
    "2 k2 p0 make\n",
    ". make 0.0a 0.0b\n",
    "3 k2 from 0 goneseen 0.0a\n",
    "4 k0 from 0 goneseen 0.0a\n",
    "note 7 nothing\n",
    "note 4294967295 waits\n",
    "spent 3\n",
];

pub(crate) const NOTES: [ScriptNote; 2] = [
    ScriptNote {
        line: 7,
        waits: false,
    },
    ScriptNote {
        line: 4_294_967_295,
        waits: true,
    },
];

/// The entries of `journals` in order, with their kernels.
fn placed(alloc: Global) -> Result<Vec<Placed>, Fail> {
    let mut placed = Vec::new(alloc);
    for (stamp, kernel, is_made) in [
        (1, 0, true),
        (1, 1, true),
        (2, 1, false),
        (2, 2, true),
        (3, 2, false),
        (4, 0, false),
    ] {
        let entry = if is_made {
            asked(alloc, stamp, 0, &Call::Make, &[MADE])?
        } else {
            took(alloc, stamp, PictureWhat::GoneSeen { to: A })?
        };
        placed.push(Placed { kernel, entry })?;
    }
    Ok(placed)
}

#[test]
fn entries_are_printed(rt: HostRuntime) -> Result<(), Fail> {
    let alloc = rt.alloc();
    let (setting, merged) = (setting(alloc)?, placed(alloc)?);
    let lines = print_transcript(alloc, &setting, &merged, &NOTES, Last::Spent(3))?;
    same_lines(&lines, &LINES)?;
    same_lines(&print_header(alloc, &setting)?, &LINES[..5])
}
