//! How items are written: texts with numbers in them, and what kernels and processes do.
ghost use Rattle.std.specs.Prelude.{◌≡◌, ◌++◌, ◌∷◌, [], ℕ, IfOk, List, OnOk, codes, drop, option_copied, option_map};
ghost use Rattle.charlotte_packets.specs.Packets.{packet_picture};
ghost use Rattle.transcript_items.specs.Texts.{filled, first_number, process_text, stamp_text, way_text};

use crate::kernels::Doing;
use charlotte_calls::{NoMemory, Pid};
use charlotte_packets::Packet;
use charlotte_text::push_number;
use journal_text::print_picture;
use std::alloc::Global;

/// Appends a text, with the next number in the place of each `#`.
pub(crate) fn fill(out: &mut Vec<u8>, text: &[u8], numbers: &[u64]) -> Result<(), NoMemory>
    ensures { OnOk result (out.new.items ≡ out.old.items ++ filled text.now numbers.now) }
{
    let mut left = numbers;
    for byte in text {
        left = fill_byte(out, *byte, left)?;
    }
    Ok(())
}

/// Appends a byte, or the next number in its place, and gives the numbers behind that.
fn fill_byte<'a>(out: &mut Vec<u8>, byte: u8, numbers: &'a [u64]) -> Result<&'a [u64], NoMemory>
    ensures { IfOk result (λ left. (rest : List ℕ) → out.new.items ++ filled rest left.now ≡ out.old.items ++ filled (byte ∷ rest) numbers.now) }
{
    if byte == b'#' {
        let (number, others) = next_number(numbers);
        push_number(out, number)?;
        return Ok(others);
    }
    out.push(byte)?;
    Ok(numbers)
}

/// The first of some numbers, and the others.
fn next_number(numbers: &[u64]) -> (u64, &[u64])
    ensures first { result.0 ≡ first_number numbers.now }
    ensures others { result.1.now ≡ drop 1 numbers.now }
{
    match numbers {
        [] => (0, numbers),
        [first, others @ ..] => (*first, others),
    }
}

/// Appends the last entry.
pub(crate) fn push_latest(out: &mut Vec<u8>, stamp: u64, kernel: u8) -> Result<(), NoMemory>
    ensures { OnOk result (out.new.items ≡ out.old.items ++ filled (codes "last entry # k#") (stamp ∷ kernel ∷ [])) }
{
    fill(out, b"last entry # k#", &[stamp, u64::from(kernel)])
}

/// Appends the last stamp of a kernel, if it is there.
pub(crate) fn push_stamp(out: &mut Vec<u8>, kernel: u8, stamp: Option<u64>) -> Result<(), NoMemory>
    ensures { OnOk result (out.new.items ≡ out.old.items ++ stamp_text kernel stamp) }
{
    let number = u64::from(kernel);
    match stamp {
        Some(stamp) => fill(out, b"k# stamp #", &[number, stamp]),
        None => fill(out, b"k# not there", &[number]),
    }
}

/// Appends what a process is doing, and at which kernel, if it is there.
pub(crate) fn push_process(
    out: &mut Vec<u8>,
    p: Pid,
    doing: Option<(u8, Doing)>,
) -> Result<(), NoMemory>
    ensures { OnOk result (out.new.items ≡ out.old.items ++ process_text p doing) }
{
    let number = u64::from(p.0);
    match doing {
        Some((kernel, Doing::Runs)) => { fill(out, b"p# at k# runs", &[number, u64::from(kernel)]) }
        Some((kernel, Doing::Waits)) => {
            fill(out, b"p# at k# waits", &[number, u64::from(kernel)])
        }
        Some((kernel, Doing::Exited)) => {
            fill(out, b"p# at k# exited", &[number, u64::from(kernel)])
        }
        None => fill(out, b"p# not there", &[number]),
    }
}

/// Appends the first packet on the way from a kernel to a kernel, if one is under way.
pub(crate) fn push_way(
    alloc: Global,
    out: &mut Vec<u8>,
    from: u8,
    to: u8,
    packet: Option<&Packet>,
) -> Result<(), NoMemory>
    ensures { OnOk result (out.new.items ≡ out.old.items ++ way_text from to (option_map packet_picture (option_copied packet.entry))) }
{
    let ends = [u64::from(from), u64::from(to)];
    let Some(packet) = packet else {
        return fill(out, b"k# to k# no packet", &ends);
    };
    fill(out, b"k# to k# ", &ends)?;
    let text = print_picture(alloc, &packet.picture())?;
    out.extend_from_slice(text.as_slice())?;
    fill(out, b", sent at #", &[packet.stamp])
}
