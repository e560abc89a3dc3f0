use charlotte_packets::Packet;
use rtrb::Protocol;

/// What a ring carries: a packet, or the mark of a snapshot, which never reaches a kernel. One that is let go spends the values in it.
#[derive(Debug, Drop)]
pub enum Letter {
    Packet(Packet),
    Marker,
}

/// The rule of the rings: which letters may be put.
#[derive(Clone, Copy)]
pub(crate) struct LetterRule;

impl Protocol<Letter> for LetterRule {
    ghost use Rattle.kernel_net.specs.Letters.{MayBePut};

    ghost allows = { MayBePut };
}
