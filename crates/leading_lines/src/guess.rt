//! With what the entry begins that comes next.
ghost use Rattle.std.specs.Prelude.{◌≡◌, ◌++◌, IfSome, codes};
ghost use Rattle.charlotte_text.specs.Spelling.{number_text, process_text};
ghost use Rattle.leading_lines.specs.Ahead.{head_text};

use crate::behind::{behind_byte, behind_short};
use crate::number::leading_number;
use crate::values::{leading_process, leading_u8};
use charlotte_calls::Pid;

/// With what an entry begins, up to its call or its packet.
#[derive(Clone, Copy, Debug)]
pub enum Ahead {
    Call(CallAhead),
    Packet(PacketAhead),
}

/// The entry of a call, as `7 k1 p3 CALL`.
#[derive(Clone, Copy, Debug)]
pub struct CallAhead {
    pub stamp: u64,
    pub kernel: u8,
    pub p: Pid,
}

/// The entry of a packet, as `7 k1 from 0 PACKET`.
#[derive(Clone, Copy, Debug)]
pub struct PacketAhead {
    pub stamp: u64,
    pub kernel: u8,
    pub from: u8,
}

/// With what an entry begins, and what stands behind that; `None` promises nothing.
#[inline(always)]
pub fn look_ahead(text: &[u8]) -> Option<(Ahead, &[u8])>
    ensures { IfSome result (λ x. text.now ≡ head_text x.0 ++ x.1.now) }
{
    let (stamp, rest) = leading_number(text)?;
    let (kernel, rest) = leading_u8(behind_short(rest, b" k")?)?;
    let rest = behind_byte(rest, b' ')?;
    match rest {
        [b'p', ..] => {
            let (p, rest) = leading_caller(rest)?;
            Some((Ahead::Call(CallAhead { stamp, kernel, p }), rest))
        }
        _ => {
            let (from, rest) = leading_origin(rest)?;
            Some((
                Ahead::Packet(PacketAhead {
                    stamp,
                    kernel,
                    from,
                }),
                rest,
            ))
        }
    }
}

/// A process and its blank.
#[inline(always)]
fn leading_caller(text: &[u8]) -> Option<(Pid, &[u8])>
    ensures { IfSome result (λ x. text.now ≡ process_text x.0 ++ codes " " ++ x.1.now) }
{
    let (p, rest) = leading_process(text)?;
    let rest = behind_byte(rest, b' ')?;
    Some((p, rest))
}

/// The kernel that a packet comes from, and its blank.
#[inline(always)]
fn leading_origin(text: &[u8]) -> Option<(u8, &[u8])>
    ensures { IfSome result (λ x. text.now ≡ codes "from " ++ number_text x.0 ++ codes " " ++ x.1.now) }
{
    let (from, rest) = leading_u8(behind_short(text, b"from ")?)?;
    let rest = behind_byte(rest, b' ')?;
    Some((from, rest))
}
