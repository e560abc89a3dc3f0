//! Journals: what is noted in one and read from it, and the merge of three.
ghost use Rattle.std.specs.Prelude.{◌≡◌, ◌<◌, [], ◌∷◌, ◌++◌, OnOk, length};
ghost use Rattle.charlotte_calls.specs.declared.calls.Call.TheVariants.{Make};
ghost use Rattle.charlotte_packets.specs.Packets.{packet_picture};
ghost use Rattle.journal_text.specs.Journal.{IsAfterLast};
ghost use Rattle.kernel_entries.specs.declared.entry.Happened.TheVariants.{Asked, Took};

use crate::journals::{A, LINES, MADE, NOTES, holds, setting};
use charlotte_calls::{Call, Items, NoMemory, Pid, ServiceStep};
use charlotte_packets::{Packet, What};
use journal_text::Last;
use std::alloc::Global;
use std::test::Fail;
use written_journal::{EntryLines, Merged, TranscriptLines, WrittenJournal};

/// Notes a Make of process 0.
fn note_made(
    journal: &mut WrittenJournal,
    stamp: u64,
    steps: Vec<ServiceStep>,
) -> Result<Vec<ServiceStep>, NoMemory>
    requires { IsAfterLast journal.old.entries stamp }
    ensures { OnOk result (journal.new.entries ≡ journal.old.entries ++ record { stamp = stamp; what = Asked (record { 0 = 0 }) Make; steps = steps.items } ∷ []) }
{
    journal.asked(Pid(0), &Call::Make)?;
    Ok(journal.note(stamp, steps))
}

/// Notes that this packet of kernel 0 was taken.
fn note_taken(
    journal: &mut WrittenJournal,
    packet: &Packet,
    stamp: u64,
    steps: Vec<ServiceStep>,
) -> Result<Vec<ServiceStep>, NoMemory>
    requires { IsAfterLast journal.old.entries stamp }
    ensures { OnOk result (journal.new.entries ≡ journal.old.entries ++ record { stamp = stamp; what = Took 0 (packet_picture packet.now); steps = steps.items } ∷ []) }
{
    journal.took(0, packet)?;
    Ok(journal.note(stamp, steps))
}

/// Notes a Make at the first stamp, and a packet at the second.
fn note_two(
    journal: &mut WrittenJournal,
    stamps: (u64, u64),
    steps: Vec<ServiceStep>,
) -> Result<Vec<ServiceStep>, NoMemory>
    requires none { journal.old.entries ≡ [] }
    requires rising { stamps.0 < stamps.1 }
    ensures { OnOk result (length journal.new.entries ≡ 2) }
{
    let emptied = note_made(journal, stamps.0, steps)?;
    let what = What::GoneSeen { to: A };
    note_taken(journal, &Packet { stamp: 0, what }, stamps.1, emptied)
}

/// The lines of an entry at kernel 7.
fn are_lines(entry: EntryLines, wanted: &[&str], line: &mut Vec<u8>) -> Result<(), Fail> {
    let mut lines = entry.lines(7);
    for want in wanted {
        holds(lines.next_line(line)?, "a line")?;
        holds(line.as_slice() == want.as_bytes(), want)?;
    }
    holds(!lines.next_line(line)?, "the end of an entry")
}

/// An entry in which a packet was taken.
fn is_taking(entry: &EntryLines, text: &mut Vec<u8>) -> Result<(), Fail> {
    holds(entry.from() == Some(0), "the sender of a packet")?;
    text.clear();
    entry.push_picture(text)?;
    holds(
        text.as_slice() == b"goneseen 0.0a".as_slice(),
        "the text of a packet",
    )
}

/// The lines of the first entry.
const FIRST: [&str; 2] = ["5 k7 p0 make\n", ". make 0.0a 0.0b\n"];

/// The line of the second.
const SECOND: [&str; 1] = ["18446744073709551615 k7 from 0 goneseen 0.0a\n"];

/// Each of two entries is found by its place.
fn are_two(journal: &WrittenJournal, line: &mut Vec<u8>) -> Result<(), Fail>
    requires { length journal.now.entries ≡ 2 }
{
    holds(journal.len() == 2, "how many entries there are")?;
    is_taking(&journal.entry(1)?, line)?;
    are_lines(journal.entry(1)?, &SECOND, line)?;
    are_lines(journal.entry(0)?, &FIRST, line)
}

/// Of two entries the first is kept.
fn keeps_first(journal: &mut WrittenJournal, line: &mut Vec<u8>) -> Result<(), Fail>
    requires { length journal.old.entries ≡ 2 }
{
    journal.cut(1);
    holds(journal.len() == 1, "how many entries are kept")?;
    let first = journal.entry(0)?;
    holds(first.from().is_none(), "no sender")?;
    are_lines(first, &FIRST, line)
}

/// Entries are found by their places, after each want of memory too: with `rt try --test --fail-alloc N` one request for memory fails, that
/// of a `note` among them.
#[test]
fn entries_are_given_by_their_places(rt: HostRuntime) -> Result<(), Fail> {
    let alloc = rt.alloc();
    let mut line = Vec::with_capacity(alloc, 64)?;
    let steps = vec![in alloc; MADE]?;
    let mut journal = WrittenJournal::start(alloc);
    let emptied = note_two(&mut journal, (5, 18_446_744_073_709_551_615), steps)?;
    holds(emptied.is_empty(), "the list that comes back")?;
    are_two(&journal, &mut line)?;
    keeps_first(&mut journal, &mut line)
}

/// A journal of two entries with these stamps.
fn of_two(alloc: Global, stamps: (u64, u64)) -> Result<WrittenJournal, NoMemory>
    requires { stamps.0 < stamps.1 }
{
    let steps = vec![in alloc; MADE]?;
    let mut journal = WrittenJournal::start(alloc);
    note_two(&mut journal, stamps, steps)?;
    Ok(journal)
}

/// The merge of the journals of three kernels.
fn of_three(alloc: Global) -> Result<Merged, NoMemory> {
    let mut journals = Vec::with_capacity(alloc, 3)?;
    journals.push(of_two(alloc, (1, 4))?)?;
    journals.push(of_two(alloc, (1, 2))?)?;
    journals.push(of_two(alloc, (2, 3))?)?;
    Merged::of_journals(alloc, journals)
}

#[test]
fn journals_are_merged_by_stamp_and_then_by_kernel(rt: HostRuntime) -> Result<(), Fail> {
    let alloc = rt.alloc();
    let merged = of_three(alloc)?;
    let notes = Items::of(Vec::from_array(alloc, NOTES)?);
    let mut lines = TranscriptLines::of(setting(alloc)?, merged, notes, Last::Spent(3));
    let mut line = Vec::new(alloc);
    for want in LINES {
        holds(lines.next_line(&mut line)?, "a line")?;
        holds(line.as_slice() == want.as_bytes(), want)?;
    }
    holds(!lines.next_line(&mut line)?, "the end of a transcript")
}
