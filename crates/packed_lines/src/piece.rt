//! What texts are made of, packed or not.
ghost use Rattle.std.specs.Prelude.{◌≡◌};
ghost use Rattle.packed_lines.specs.Packed.{is_alone, stands};

/// Behind it a byte of a packed text is what it is not alone. No word of a transcript has this letter, but for what processes say.
pub(crate) const ESCAPE: u8 = b'Z';

/// A byte that stands for itself, or one that is spelled by a code.
#[derive(Clone, Copy)]
pub(crate) struct Piece {
    pub(crate) itself: bool,
    pub(crate) byte: u8,
}

/// A piece of this byte.
pub(crate) fn piece_of(itself: bool, byte: u8) -> Piece
    ensures { result ≡ record { itself = itself; byte = byte } }
{
    Piece { itself, byte }
}

/// Whether a byte alone is itself in a packed text.
pub(crate) fn stands(byte: u8) -> bool
    ensures { result ≡ stands byte }
{
    32 <= byte && byte <= 126 && byte != ESCAPE
}

/// Whether a piece is packed as its byte alone.
pub(crate) fn is_alone(piece: Piece) -> bool
    ensures { result ≡ is_alone piece }
{
    if stands(piece.byte) {
        piece.itself
    } else {
        !piece.itself
    }
}
