ghost use Rattle.std.specs.Prelude.{◌≡◌, ◌++◌, ◌∷◌, [], OnOk, codes};
ghost use Rattle.charlotte_packets.specs.Packets.{what_picture};
ghost use Rattle.charlotte_text.specs.Spelling.{end_text, bytes_text};
ghost use Rattle.compact_calls.specs.Stored.{what_of};
ghost use Rattle.transcript_lines.specs.Transcript.{fields_text, numbers_behind, numbers_text, value_text, values_text, packet_text};

use charlotte_calls::{EndId, NoMemory};
use charlotte_packets::{MovingPicture, What};
use charlotte_text::{push_bytes, push_end, push_number};
use compact_calls::StoredWhat;
use transcript_lines::value_fields;

/// Appends numbers, each behind this byte.
pub(crate) fn push_numbers(out: &mut Vec<u8>, mark: u8, numbers: &[u32]) -> Result<(), NoMemory>
    ensures { OnOk result (out.new.items ≡ out.old.items ++ numbers_behind mark numbers.now) }
{
    for number in numbers {
        out.push(mark)?;
        push_number(out, u64::from(*number))?;
    }
    Ok(())
}

/// Appends a word with its blank, and an end.
pub(crate) fn push_on(out: &mut Vec<u8>, word: &[u8], end: EndId) -> Result<(), NoMemory>
    ensures { OnOk result (out.new.items ≡ out.old.items ++ word.now ++ end_text end) }
{
    out.extend_from_slice(word)?;
    push_end(out, end)?;
    Ok(())
}

/// Appends a word with its blank, an end, and numbers.
pub(crate) fn push_form(
    out: &mut Vec<u8>,
    word: &[u8],
    end: EndId,
    numbers: &[u32],
) -> Result<(), NoMemory>
    ensures { OnOk result (out.new.items ≡ out.old.items ++ word.now ++ end_text end ++ numbers_text numbers.now) }
{
    push_on(out, word, end)?;
    push_numbers(out, b' ', numbers)?;
    Ok(())
}

fn push_value(out: &mut Vec<u8>, value: &MovingPicture) -> Result<(), NoMemory>
    ensures { OnOk result (out.new.items ≡ out.old.items ++ value_text value.now) }
{
    push_end(out, value.end)?;
    push_numbers(out, b':', &value_fields(value))?;
    Ok(())
}

fn push_values(out: &mut Vec<u8>, values: &[MovingPicture]) -> Result<(), NoMemory>
    ensures { OnOk result (out.new.items ≡ out.old.items ++ values_text values.now) }
{
    for value in values {
        out.extend_from_slice(b" +")?;
        push_value(out, value)?;
    }
    Ok(())
}

/// Appends a word with its blank, an end, and one number.
pub(crate) fn push_numbered(
    out: &mut Vec<u8>,
    word: &[u8],
    end: EndId,
    number: u32,
) -> Result<(), NoMemory>
    ensures { OnOk result (out.new.items ≡ out.old.items ++ word.now ++ end_text end ++ numbers_text (number ∷ [])) }
{
    push_form(out, word, end, &[number])
}

/// Appends a word with its blank, an end, the kernel of its opposite end and the hops of that.
fn push_place(out: &mut Vec<u8>, word: &[u8], to: EndId, at: u8, hops: u32) -> Result<(), NoMemory>
    ensures { OnOk result (out.new.items ≡ out.old.items ++ word.now ++ end_text to ++ numbers_text (at ∷ hops ∷ [])) }
{
    push_form(out, word, to, &[u32::from(at), hops])
}

/// Appends a word with its blank, an end, the number of an activity, and where its opposite end is.
fn push_about(
    out: &mut Vec<u8>,
    word: &[u8],
    to: EndId,
    number: u32,
    at: u8,
    hops: u32,
) -> Result<(), NoMemory>
    ensures { OnOk result (out.new.items ≡ out.old.items ++ word.now ++ end_text to ++ numbers_text (number ∷ at ∷ hops ∷ [])) }
{
    push_form(out, word, to, &[number, u32::from(at), hops])
}

/// Appends what a parcel carries: its bytes, and its values.
fn push_carried(out: &mut Vec<u8>, bytes: &[u8], values: &[MovingPicture]) -> Result<(), NoMemory>
    ensures { OnOk result (out.new.items ≡ out.old.items ++ codes " " ++ bytes_text bytes.now ++ values_text values.now) }
{
    out.push(b' ')?;
    push_bytes(out, bytes)?;
    push_values(out, values)
}

/// Appends a parcel with its numbers: that of the message and of its receive, and where the opposite end is.
fn push_parcel(
    out: &mut Vec<u8>,
    to: EndId,
    numbers: (u32, u32, u8, u32),
    bytes: &[u8],
    values: &[MovingPicture],
) -> Result<(), NoMemory>
    ensures { OnOk result (out.new.items ≡ out.old.items ++ codes "parcel " ++ end_text to ++ numbers_text (numbers.0 ∷ numbers.1 ∷ numbers.2 ∷ numbers.3 ∷ []) ++ codes " " ++ bytes_text bytes.now ++ values_text values.now) }
{
    let (n, w, at, hops) = numbers;
    let numbers = [n, w, u32::from(at), hops];
    push_form(out, b"parcel ", to, &numbers)?;
    push_carried(out, bytes, values)
}

fn push_back(out: &mut Vec<u8>, to: EndId, n: u32, values: &[MovingPicture]) -> Result<(), NoMemory>
    ensures { OnOk result (out.new.items ≡ out.old.items ++ codes "back " ++ end_text to ++ numbers_text (n ∷ []) ++ values_text values.now) }
{
    push_numbered(out, b"back ", to, n)?;
    push_values(out, values)
}

/// Appends a packet as it is kept, as `want 0.0a 1 0 0`.
pub(crate) fn push_kept_packet(out: &mut Vec<u8>, what: &StoredWhat) -> Result<(), NoMemory>
    ensures { OnOk result (out.new.items ≡ out.old.items ++ packet_text (what_of what.now)) }
{
    match what {
        StoredWhat::Want { to, w, at, hops } => push_about(out, b"want ", *to, *w, *at, *hops),
        StoredWhat::Unwant { to, w, at, hops } => push_about(out, b"unwant ", *to, *w, *at, *hops),
        StoredWhat::Unwanted { to, w, at, hops } => {
            push_about(out, b"unwanted ", *to, *w, *at, *hops)
        }
        StoredWhat::Parcel {
            to,
            n,
            w,
            at,
            hops,
            carried,
        } => {
            let numbers = (*n, *w, *at, *hops);
            push_parcel(out, *to, numbers, carried.bytes(), carried.moving())
        }
        StoredWhat::Taken { to, n, at, hops } => push_about(out, b"taken ", *to, *n, *at, *hops),
        StoredWhat::Back { to, n, moving } => push_back(out, *to, *n, moving.as_slice()),
        StoredWhat::Gone { to, at } => push_form(out, b"gone ", *to, &[u32::from(*at)]),
        StoredWhat::Moved { to, at, hops } => push_place(out, b"moved ", *to, *at, *hops),
        StoredWhat::Known { to, hops } => push_numbered(out, b"known ", *to, *hops),
        StoredWhat::Forget { to, hops } => push_numbered(out, b"forget ", *to, *hops),
        StoredWhat::GoneSeen { to } => push_on(out, b"goneseen ", *to),
    }
}

/// Appends a packet, as `want 0.0a 1 0 0`.
pub(crate) fn push_packet(out: &mut Vec<u8>, what: &What) -> Result<(), NoMemory>
    ensures { OnOk result (out.new.items ≡ out.old.items ++ packet_text (what_picture what.now)) }
{
    match what {
        What::Want { to, w, at, hops } => push_about(out, b"want ", *to, *w, *at, *hops),
        What::Unwant { to, w, at, hops } => push_about(out, b"unwant ", *to, *w, *at, *hops),
        What::Unwanted { to, w, at, hops } => push_about(out, b"unwanted ", *to, *w, *at, *hops),
        What::Parcel {
            to,
            n,
            w,
            at,
            hops,
            bytes,
            moving,
        } => {
            let numbers = (*n, *w, *at, *hops);
            push_parcel(out, *to, numbers, bytes.as_slice(), moving.values())
        }
        What::Taken { to, n, at, hops } => push_about(out, b"taken ", *to, *n, *at, *hops),
        What::Back { to, n, moving } => push_back(out, *to, *n, moving.values()),
        What::Gone { to, at } => push_form(out, b"gone ", *to, &[u32::from(*at)]),
        What::Moved { to, at, hops } => push_place(out, b"moved ", *to, *at, *hops),
        What::Known { to, hops } => push_numbered(out, b"known ", *to, *hops),
        What::Forget { to, hops } => push_numbered(out, b"forget ", *to, *hops),
        What::GoneSeen { to } => push_on(out, b"goneseen ", *to),
    }
}
