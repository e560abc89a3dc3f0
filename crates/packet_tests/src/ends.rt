//! Each packet at an end in each state, by the rules of what a process does with it.

use charlotte_calls::{EndId, Ends, Items, LinkId, NoMemory, Side};
use end_protocol::{Accept, Binding, Connect, Heard, Kept};
use lynx_packets::{RtPacket, RtValue, decode};
use lynx_tree::TypeName;
use std::alloc::Global;
use std::rt::HostRuntime;
use std::test::Fail;

/// How an end came to be as it is when the packet comes.
#[derive(Clone, Copy)]
enum State {
    /// The process has just got it.
    Fresh,
    /// A thread accepts `o`.
    Accepts,
    /// An entry that serves `o` is bound.
    Bound,
    /// A thread connects `o`, and its request is sent.
    Asks,
    /// The same, and the request was forbidden.
    Barred,
    /// A request without ends was accepted, and is owed a reply.
    Owes,
    /// A request is in part.
    InPart,
    /// A reply is in part.
    Returning,
    Dead,
}

/// The operation `o`.
const O: &[u8] = b"o(link,link):(link,link)";

/// Packets, and how many ends come with them in version 1. Version 2 has the first seven.
const PACKETS: &[(&[u8], usize)] = &[
    (b"\x01\0\0\0\x01\x18o(link,link):(link,link)\x05\x05", 1),
    (b"\x01\0\0\0\x01\x06p():()", 0),
    (b"\x02\0\0\0\x01\0\x05\x05", 1),
    (b"\x02\0\0\0\x01\x01", 0),
    (b"\x03\0\0\0\x01", 1),
    (b"\x04\0\0\0\x01", 1),
    (b"\x05\0\0\0\x01", 0),
    (b"\x06\0\0\0\x01", 0),
    (b"\x07\x01\0\0\0\x01\x02", 1),
    (b"\x07\x02\0\0\0\x01\x02", 1),
];

/// A version, a state, and for each packet what comes of it: nothing for a thread (-), it is accepted (A), it is returned (R), it is too late (T), it
/// can't be read (U); and the packets that are queued then: request, retry, forbid, allow, goahead, enc (q, t, f, a, g, e).
type Row = (u8, State, &'static str);

const ROWS: &[Row] = &[
    (1, State::Fresh, " -t -t U U U U U U U U"),
    (1, State::Accepts, " -g -f U U U U U U U U"),
    (1, State::Bound, " -g -f U U U U U U U U"),
    (1, State::Asks, " -f -f - R -q - U -e U U"),
    (1, State::Barred, " -f -f U U U U -q U U U"),
    (1, State::Owes, " U U U U U U U U U U"),
    (1, State::InPart, " U U U U U U U U A U"),
    (1, State::Returning, " -f -f U U -q - U -e U R"),
    (1, State::Dead, " -t -t T T T T T T T T"),
    (2, State::Fresh, " -t -t U U U U U"),
    (2, State::Accepts, " A -f U U U U U"),
    (2, State::Bound, " A -f U U U U U"),
    (2, State::Asks, " -f -f R R -q - U"),
    (2, State::Barred, " -f -f U U U U -q"),
    (2, State::Owes, " U U U U U U U"),
    (2, State::Dead, " -t -t T T T T T"),
];

fn end(count: u32) -> EndId {
    EndId {
        link: LinkId { maker: 0, count },
        side: Side::A,
    }
}

/// So many ends come with a packet.
fn coming(version: u8, many: usize) -> Ends {
    let pair = [end(5), end(6)];
    let many = if version == 2 && many == 1 { 2 } else { many };
    match Ends::from_slice(&pair[..many.min(2)]) {
        Some(ends) => ends,
        None => unreachable!(),
    }
}

fn connect(alloc: Global) -> Result<Connect, NoMemory> {
    Ok(Connect {
        thread: 0,
        number: 0,
        signature: Items::of(Vec::from_slice(alloc, O)?),
        values: Items::of(vec![in alloc; RtValue::Link, RtValue::Link]?),
        results: Items::of(Vec::from_slice(alloc, &[TypeName::Link, TypeName::Link])?),
        ends: Items::of(Vec::from_slice(alloc, &[end(1), end(2)])?),
    })
}

fn signature(alloc: Global, text: &[u8]) -> Result<Items<u8>, NoMemory> {
    Ok(Items::of(Vec::from_slice(alloc, text)?))
}

fn accept(kept: &mut Kept, alloc: Global, text: &[u8]) -> Result<(), NoMemory> {
    let signature = signature(alloc, text)?;
    kept.accept(Accept {
        thread: 3,
        signature,
    })
}

fn bind(kept: &mut Kept, alloc: Global) -> Result<(), NoMemory> {
    let signature = signature(alloc, O)?;
    kept.bind(Binding {
        entry: 7,
        signature,
    })
}

/// A connect, whose request is sent.
fn ask(kept: &mut Kept, alloc: Global, version: u8) -> Result<(), NoMemory> {
    let connect = connect(alloc)?;
    kept.connect(alloc, version, connect)?;
    kept.sent();
    Ok(())
}

/// What comes of the packet of this number.
fn hear(kept: &mut Kept, alloc: Global, version: u8, at: usize) -> Result<char, NoMemory> {
    let (bytes, many) = match PACKETS.get(at) {
        Some((bytes, many)) => (*bytes, *many),
        None => return Ok('?'),
    };
    if version == 0 || version > 2 || bytes.len() > 300 {
        return Ok('?');
    }
    let Ok(packet) = decode(alloc, version, bytes) else {
        return Ok('?');
    };
    let heard = kept.hear(alloc, version, true, packet, coming(version, many))?;
    Ok(match heard {
        Heard::Nothing => '-',
        Heard::Accepted(_) => 'A',
        Heard::Returned(_, _) => 'R',
        Heard::TooLate(_) => 'T',
        Heard::Unreadable(_) => 'U',
    })
}

fn prepare(kept: &mut Kept, alloc: Global, version: u8, state: State) -> Result<(), NoMemory> {
    match state {
        State::Fresh => {}
        State::Accepts => accept(kept, alloc, O)?,
        State::Bound => bind(kept, alloc)?,
        State::Asks => ask(kept, alloc, version)?,
        State::Barred => {
            ask(kept, alloc, version)?;
            hear(kept, alloc, version, 5)?;
        }
        State::Owes => {
            accept(kept, alloc, b"p():()")?;
            hear(kept, alloc, version, 1)?;
        }
        State::InPart => {
            accept(kept, alloc, O)?;
            hear(kept, alloc, version, 0)?;
            kept.sent();
        }
        State::Returning => {
            ask(kept, alloc, version)?;
            hear(kept, alloc, version, 2)?;
        }
        State::Dead => {
            let _ = kept.die(alloc);
        }
    }
    Ok(())
}

fn kind(packet: &RtPacket) -> &'static str {
    match packet {
        RtPacket::Request { .. } => "q",
        RtPacket::Reply { .. } => "r",
        RtPacket::Retry(_) => "t",
        RtPacket::Forbid(_) => "f",
        RtPacket::Allow(_) => "a",
        RtPacket::GoAhead(_) => "g",
        RtPacket::Enc { .. } => "e",
    }
}

/// What is queued.
fn push_queue(text: &mut String, kept: &mut Kept) -> Result<(), NoMemory> {
    for _ in 0..3 {
        if let Some(message) = kept.queue.take() {
            text.push_str(kind(&message.packet))?;
        }
    }
    Ok(())
}

/// What comes of the packet at an end in this state.
fn push_word(
    text: &mut String,
    alloc: Global,
    version: u8,
    state: State,
    at: usize,
) -> Result<(), NoMemory> {
    let mut kept = Kept::new(alloc);
    prepare(&mut kept, alloc, version, state)?;
    let mark = hear(&mut kept, alloc, version, at)?;
    text.push_str(" ")?;
    text.push(mark)?;
    push_queue(text, &mut kept)
}

#[test]
fn each_packet_at_each_state(rt: HostRuntime) -> Result<(), Fail> {
    let alloc = rt.alloc();
    for (version, state, want) in ROWS {
        let mut text = String::new(alloc);
        let packets = if *version == 1 { 10 } else { 7 };
        for at in 0..packets {
            push_word(&mut text, alloc, *version, *state, at)?;
        }
        if text.as_str() != *want {
            return Err(text.as_str().into());
        }
    }
    Ok(())
}
