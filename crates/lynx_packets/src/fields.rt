//! Fields of packets are read.

ghost use Rattle.std.specs.Prelude.{◌≡◌, length};
ghost use Rattle.lynx_packets.specs.Reading.{Gives, first_at, byte_at, bytes_at, number_at, int_at, text_at};

use crate::fault::Unread;

/// A byte from low to high, and what stands behind it.
pub(crate) fn byte(low: u8, high: u8, bytes: &[u8]) -> Result<(u8, &[u8]), Unread>
    ensures { Gives (λ x. (x.0, x.1.now)) result (byte_at low high bytes.now) }
{
    match bytes {
        [] => Err(Unread::Wrong(0)),
        [byte, rest @ ..] if low <= *byte && *byte <= high => Ok((*byte, rest)),
        _ => Err(Unread::Wrong(bytes.len())),
    }
}

/// A byte, and what stands behind it.
pub(crate) fn first(bytes: &[u8]) -> Result<(u8, &[u8]), Unread>
    ensures { Gives (λ x. (x.0, x.1.now)) result (first_at bytes.now) }
{
    match bytes {
        [] => Err(Unread::Wrong(0)),
        [byte, rest @ ..] => Ok((*byte, rest)),
    }
}

/// So many bytes, and what stands behind them.
pub(crate) fn front(size: usize, bytes: &[u8]) -> Result<(&[u8], &[u8]), Unread>
    ensures { Gives (λ x. (x.0.now, x.1.now)) result (bytes_at size bytes.now) }
{
    if bytes.len() < size {
        return Err(Unread::Wrong(0));
    }
    Ok(bytes.split_at(size))
}

#[tactic(auto, unfolding(crate::specs::Reading::number_at))]
pub(crate) fn number(bytes: &[u8]) -> Result<(u32, &[u8]), Unread>
    ensures { Gives (λ x. (x.0, x.1.now)) result (number_at bytes.now) }
{
    let (field, rest) = front(4, bytes)?;
    let number = u32::from_be_bytes([field[0], field[1], field[2], field[3]]);
    Ok((number, rest))
}

#[tactic(auto, unfolding(crate::specs::Reading::int_at))]
pub(crate) fn int(bytes: &[u8]) -> Result<(i64, &[u8]), Unread>
    ensures { Gives (λ x. (x.0, x.1.now)) result (int_at bytes.now) }
{
    let (field, rest) = front(8, bytes)?;
    let number = i64::from_be_bytes([
        field[0], field[1], field[2], field[3], field[4], field[5], field[6], field[7],
    ]);
    Ok((number, rest))
}
