//! Packets are written.

ghost use Rattle.std.specs.Prelude.{◌≡◌, ◌<◌, ◌≤◌, ◌↔◌, ◌++◌, [], ◌∷◌, length, map, IsErr, IfOk, OnOk, OnErr, ℤ};
ghost use Rattle.std.specs.List.{flat_map};
ghost use Rattle.lynx_packets.specs.Spelling.{int_text, number_text, bool_text, value_text, values_text, spelling};
ghost use Rattle.lynx_packets.specs.declared.packet.RtPacket.TheVariants.{Request, Reply};

use crate::fault::TooLong;
use crate::packet::RtPacket;
use crate::value::RtValue;
use arrayvec::ArrayVec;
use charlotte_calls::Bytes;
use typing_rules::Row16;

/// Room for the bytes of one message.
type Room = ArrayVec<u8, 256>;

#[inline(always)]
fn put(out: &mut Room, bytes: &[u8]) -> Result<(), TooLong>
    ensures ok { OnOk result (out.new.items ≡ out.old.items ++ bytes.now) }
    ensures long { OnErr result (256 < length (out.old.items ++ bytes.now)) }
{
    match out.try_extend_from_slice(bytes) {
        Ok(()) => Ok(()),
        Err(_) => Err(TooLong),
    }
}

#[tactic(auto, unfolding(crate::specs::Spelling::int_text))]
#[inline(always)]
fn put_int(out: &mut Room, number: &i64) -> Result<(), TooLong>
    ensures ok { OnOk result (out.new.items ≡ out.old.items ++ int_text number.now) }
    ensures long { OnErr result (256 < length (out.old.items ++ int_text number.now)) }
{
    put(out, &number.to_be_bytes())
}

#[tactic(auto, unfolding(crate::specs::Spelling::number_text))]
#[inline(always)]
fn put_number(out: &mut Room, tag: u8, number: u32) -> Result<(), TooLong>
    ensures ok { OnOk result (out.new.items ≡ out.old.items ++ tag ∷ number_text number) }
    ensures long { OnErr result (256 < length (out.old.items ++ tag ∷ number_text number)) }
{
    let [a, b, c, d] = number.to_be_bytes();
    put(out, &[tag, a, b, c, d])
}

fn put_numbers(out: &mut Room, numbers: &[i64]) -> Result<(), TooLong>
    ensures ok { OnOk result (out.new.items ≡ out.old.items ++ flat_map int_text numbers.now) }
    ensures long { OnErr result (256 < length (out.old.items ++ flat_map int_text numbers.now)) }
{
    for number in numbers {
        put_int(out, number)?;
    }
    Ok(())
}

#[inline(always)]
fn put_row(out: &mut Room, row: &Row16) -> Result<(), TooLong>
    ensures ok { OnOk result (out.new.items ≡ out.old.items ++ 4 ∷ length row.now ∷ flat_map int_text row.now) }
    ensures long { OnErr result (256 < length (out.old.items ++ 4 ∷ length row.now ∷ flat_map int_text row.now)) }
{
    let numbers = row.as_slice();
    put(out, &[4, numbers.len() as u8])?;
    put_numbers(out, numbers)
}

#[inline(always)]
fn put_tagged(out: &mut Room, tag: &[u8], bytes: &[u8]) -> Result<(), TooLong>
    ensures ok { OnOk result (out.new.items ≡ out.old.items ++ tag.now ++ bytes.now) }
    ensures long { OnErr result (256 < length (out.old.items ++ tag.now ++ bytes.now)) }
{
    put(out, tag)?;
    put(out, bytes)
}

#[tactic(auto, unfolding(crate::specs::Spelling::value_text))]
#[inline(always)]
fn put_value(out: &mut Room, value: &RtValue) -> Result<(), TooLong>
    ensures ok { OnOk result (out.new.items ≡ out.old.items ++ value_text value.now) }
    ensures long { OnErr result (256 < length (out.old.items ++ value_text value.now)) }
{
    match value {
        RtValue::Int(number) => {
            put(out, &[1])?;
            put_int(out, number)
        }
        RtValue::Bool(true) => put(out, &[2, 1]),
        RtValue::Bool(false) => put(out, &[2, 0]),
        RtValue::Text(text) => {
            let bytes = text.as_slice();
            put_tagged(out, &[3, bytes.len() as u8], bytes)
        }
        RtValue::Row(row) => put_row(out, row),
        RtValue::Link => put(out, &[5]),
    }
}

fn put_values(out: &mut Room, values: &[RtValue]) -> Result<(), TooLong>
    ensures ok { OnOk result (out.new.items ≡ out.old.items ++ values_text values.now) }
    ensures long { OnErr result (256 < length (out.old.items ++ values_text values.now)) }
{
    for value in values {
        put_value(out, value)?;
    }
    Ok(())
}

fn put_request(
    out: &mut Room,
    number: u32,
    signature: &[u8],
    values: &[RtValue],
) -> Result<(), TooLong>
    ensures ok { OnOk result (out.new.items ≡ out.old.items ++ 1 ∷ number_text number ++ length signature.now ∷ signature.now ++ values_text values.now) }
    ensures long { OnErr result (256 < length (out.old.items ++ 1 ∷ number_text number ++ length signature.now ∷ signature.now ++ values_text values.now)) }
{
    let Ok(length) = u8::try_from(signature.len()) else {
        return Err(TooLong);
    };
    put_number(out, 1, number)?;
    put_tagged(out, &[length], signature)?;
    put_values(out, values)
}

fn put_reply(out: &mut Room, number: u32, status: u8, values: &[RtValue]) -> Result<(), TooLong>
    ensures ok { OnOk result (out.new.items ≡ out.old.items ++ 2 ∷ number_text number ++ status ∷ values_text values.now) }
    ensures long { OnErr result (256 < length (out.old.items ++ 2 ∷ number_text number ++ status ∷ values_text values.now)) }
{
    put_number(out, 2, number)?;
    put(out, &[status])?;
    put_values(out, values)
}

/// The bytes as a message.
#[inline(always)]
fn message(bytes: &[u8]) -> Bytes
    requires { length bytes.now ≤ 256 }
    ensures { result ≡ bytes.now }
{
    let mut room = ArrayVec::new();
    match room.try_extend_from_slice(bytes) {
        Ok(()) => Bytes::of(room),
        Err(_) => unreachable!(),
    }
}

/// A packet that is a number alone.
#[tactic(auto, unfolding(crate::specs::Spelling::number_text))]
fn numbered(kind: u8, number: u32) -> Bytes
    ensures { result ≡ kind ∷ number_text number }
{
    let [a, b, c, d] = number.to_be_bytes();
    message(&[kind, a, b, c, d])
}

#[tactic(auto, unfolding(crate::specs::Spelling::number_text))]
fn enc(kind: u8, number: u32, index: u8) -> Bytes
    ensures { result ≡ 7 ∷ kind ∷ number_text number ++ index ∷ [] }
{
    let [a, b, c, d] = number.to_be_bytes();
    message(&[7, kind, a, b, c, d, index])
}

/// A reply without values.
#[tactic(auto, unfolding(crate::specs::Spelling::number_text))]
fn bare_reply(number: u32, status: u8) -> Bytes
    ensures { result ≡ 2 ∷ number_text number ++ status ∷ [] }
{
    let [a, b, c, d] = number.to_be_bytes();
    message(&[2, a, b, c, d, status])
}

#[tactic(auto, unfolding(crate::specs::Spelling::spelling))]
fn request(number: u32, signature: &[u8], values: &[RtValue]) -> Result<Bytes, TooLong>
    ensures ok { IfOk result (λ bytes. bytes ≡ spelling (Request number signature.now values.now)) }
    ensures long { IsErr result ↔ (256 < length (spelling (Request number signature.now values.now))) }
{
    let mut room = ArrayVec::new();
    put_request(&mut room, number, signature, values)?;
    Ok(Bytes::of(room))
}

#[tactic(auto, unfolding(crate::specs::Spelling::spelling))]
fn reply(number: u32, status: u8, values: &[RtValue]) -> Result<Bytes, TooLong>
    ensures ok { IfOk result (λ bytes. bytes ≡ spelling (Reply number status values.now)) }
    ensures long { IsErr result ↔ (256 < length (spelling (Reply number status values.now))) }
{
    if values.is_empty() {
        return Ok(bare_reply(number, status));
    }
    let mut room = ArrayVec::new();
    put_reply(&mut room, number, status, values)?;
    Ok(Bytes::of(room))
}

/// The bytes of a packet, which are the same in each version that has it. TooLong exactly where they are more than 256.
#[tactic(auto, unfolding(crate::specs::Spelling::spelling))]
pub fn encode(packet: &RtPacket) -> Result<Bytes, TooLong>
    ensures long { IsErr result ↔ (256 < length (spelling packet.now)) }
    ensures same { IfOk result (λ bytes. bytes ≡ spelling packet.now) }
{
    match packet {
        RtPacket::Request {
            number,
            signature,
            values,
        } => request(*number, signature.as_slice(), values.as_slice()),
        RtPacket::Reply {
            number,
            status,
            values,
        } => reply(*number, *status, values.as_slice()),
        RtPacket::Retry(number) => Ok(numbered(3, *number)),
        RtPacket::Forbid(number) => Ok(numbered(4, *number)),
        RtPacket::Allow(number) => Ok(numbered(5, *number)),
        RtPacket::GoAhead(number) => Ok(numbered(6, *number)),
        RtPacket::Enc {
            kind,
            number,
            index,
        } => Ok(enc(*kind, *number, *index)),
    }
}
