//! Names, bytes and calls, each with its one spelling. Malformed ones are tried on the program too (.ci/rows/scripts).

ghost use Rattle.std.specs.Prelude.{◌≤◌};

use crate::journals::holds;
use charlotte_calls::{EndId, LinkId, NoMemory, Pid, Side, Way};
use charlotte_text::{
    Fault, Number, cut, end_of_line, next_word, push_bytes, push_call, push_end, push_ends,
    push_number, push_process, push_way, read_below, read_bytes, read_call, read_end, read_ends,
    read_number, read_process, read_way,
};
use compact_calls::CompactCall;
use std::alloc::Global;
use std::test::Fail;

const END: EndId = EndId {
    link: LinkId {
        maker: 255,
        count: 4_294_967_295,
    },
    side: Side::B,
};

/// End a of the first link of maker 0.
const ZERO: EndId = EndId {
    link: LinkId { maker: 0, count: 0 },
    side: Side::A,
};

/// A name, a number or a way.
#[derive(Clone, Copy)]
enum Word {
    Number(u64),
    Process(Pid),
    End(EndId),
    Ends(&'static [EndId]),
    Way(Way),
}

const WORDS: [(Word, &str); 5] = [
    (Word::Number(u64::MAX), "18446744073709551615"),
    (Word::Process(Pid(7)), "p7"),
    (Word::Ends(&[END, ZERO]), " +255.4294967295b +0.0a"),
    (Word::End(END), "255.4294967295b"),
    (Word::Way(Way::Outward), "out"),
];

fn push_word(out: &mut Vec<u8>, word: Word) -> Result<(), NoMemory> {
    match word {
        Word::Number(number) => push_number(out, number),
        Word::Process(p) => push_process(out, p),
        Word::End(end) => push_end(out, end),
        Word::Ends(ends) => push_ends(out, ends),
        Word::Way(way) => push_way(out, way),
    }
}

fn is_written(alloc: Global, word: Word, text: &str) -> Result<(), Fail> {
    let mut out = Vec::new(alloc);
    push_word(&mut out, word)?;
    holds(out.as_slice() == text.as_bytes(), text)
}

#[test]
fn names_are_written(rt: HostRuntime) -> Result<(), Fail> {
    for (word, text) in WORDS {
        is_written(rt.alloc(), word, text)?;
    }
    Ok(())
}

const NUMBERS: [(&[u8], Result<Number, Fault>); 4] = [
    (b"18446744073709551615", Ok(Number::Is(u64::MAX))),
    (b"18446744073709551616", Ok(Number::Large)),
    (b"007", Err(Fault::Form)),
    (b"", Err(Fault::Form)),
];

fn is_below_read() -> bool {
    read_below(b"63", 64) == Ok(63) && read_below(b"64", 64) == Err(Fault::Form)
}

fn is_way_read() -> bool {
    read_way(b"in") == Ok(Way::Inward) && read_way(b"up") == Err(Fault::Form)
}

fn is_end_read() -> bool {
    read_end(b"255.4294967295b") == Ok(END) && read_end(b"256.0a") == Err(Fault::Form)
}

/// How many of two ends are read, where at most so many may stand.
fn ends_read(most: usize) -> Option<usize>
    requires { most ≤ 8 }
{
    match read_ends(Some(b"+0.1a +0.2a"), most) {
        Ok(ends) => Some(ends.as_slice().len()),
        Err(_) => None,
    }
}

#[test]
fn names_are_read() -> Result<(), Fail> {
    for (word, number) in NUMBERS {
        holds(read_number(word) == number, "a number")?;
    }
    holds(read_process(b"p64") == Ok(Number::Is(64)), "a process")?;
    holds(is_below_read(), "a number below 64")?;
    holds(is_way_read(), "a way")?;
    holds(is_end_read(), "an end")?;
    holds((ends_read(2), ends_read(1)) == (Some(2), None), "two ends")
}

/// Words, and the bytes that they spell.
const SPELLED: [(&[u8], &[u8]); 3] = [
    (b"-", b""),
    (b"%2D%20a%00%FF%0A", &[45, 32, 97, 0, 255, 10]),
    (&[b'z'; 256], &[b'z'; 256]),
];

/// Whether a word spells these bytes, and they are spelled so.
fn both_ways(alloc: Global, word: &[u8], bytes: &[u8]) -> Result<(), Fail> {
    let read = read_bytes(word).is_ok_and(|read| read.as_slice() == bytes);
    let mut out = Vec::new(alloc);
    push_bytes(&mut out, bytes)?;
    holds(read && out.as_slice() == word, "bytes that are spelled")
}

#[test]
fn bytes_have_their_texts(rt: HostRuntime) -> Result<(), Fail> {
    for (word, bytes) in SPELLED {
        both_ways(rt.alloc(), word, bytes)?;
    }
    let faults = (read_bytes(&[b'z'; 257]).err(), read_bytes(b"%2d").err());
    holds(
        faults == (Some(Fault::Long), Some(Fault::Form)),
        "too many bytes, and a malformed text",
    )
}

#[test]
fn lines_are_cut() -> Result<(), Fail> {
    let (first, rest) = cut(b'\n', b"a\n\nb");
    holds(first == b"a".as_slice(), "the first part")?;
    holds(
        rest.is_some_and(|rest| rest == b"\nb".as_slice()),
        "the other parts",
    )?;
    holds(
        next_word(None).is_err() && end_of_line(None).is_ok(),
        "the end of a line",
    )
}

const CALLS: [&str; 10] = [
    "make",
    "destroy 0.1b",
    "send 0.0a -",
    "send 0.0a hello +0.1a +0.2a +0.3a +0.4a +0.5a +0.6a +0.7a +0.8a",
    "receive 0.0b",
    "cancel 0.0a out",
    "cancel 0.0a in",
    "wait",
    "print hello",
    "exit",
];

/// A line is a call of version 2, and that call is spelled so, also where it takes only the memory of what it says.
fn is_call(alloc: Global, line: &str) -> Result<(), Fail> {
    let call = CompactCall::of(alloc, &read_call(Some(line.as_bytes()), 2)?)?;
    let copy = call.copy(alloc)?;
    let mut out = Vec::new(alloc);
    push_call(&mut out, &copy.call())?;
    holds(out.as_slice() == line.as_bytes(), line)
}

/// Lines that are no calls of version 1.
const NO_CALLS: [Option<&[u8]>; 3] = [None, Some(b"send 0.0a x +0.1a +0.2a"), Some(b"exit 0")];

#[test]
fn calls_have_their_texts(rt: HostRuntime) -> Result<(), Fail> {
    for line in CALLS {
        is_call(rt.alloc(), line)?;
    }
    for line in NO_CALLS {
        holds(
            read_call(line, 1).err() == Some(Fault::Form),
            "a malformed call",
        )?;
    }
    Ok(())
}
