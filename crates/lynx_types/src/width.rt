//! The links and the widest packets of operations.

ghost use Rattle.std.specs.Prelude.{◌≡◌, ◌+◌, ◌≤◌, ◌&&◌, nat_le, length, min};
ghost use Rattle.std.specs.List.{sum_by};
ghost use Rattle.lynx_tree.specs.Trees.{op_tree};
ghost use Rattle.typing_rules.specs.Signatures.{type_text, types_text, widest, widest_request, widest_reply, links_among};

use itoa::Buffer;
use lynx_tree::{OpDecl, TypeName};
use typing_rules::is_link;

/// The most links among an operation's arguments, and among its results.
const MOST_LINKS: usize = 8;

/// The most bytes of a packet.
const MOST_BYTES: u64 = 256;

/// The bytes of a packet before the signature and the values.
const HEAD_BYTES: u64 = 6;

/// The signs of a signature, besides the commas.
const SIGN_BYTES: u64 = 5;

/// How many of the types are links.
fn links_among(types: &[TypeName]) -> usize
    ensures { result ≡ links_among types.now }
{
    let mut links = 0;
    for kind in types {
        if is_link(*kind) {
            links += 1;
        }
    }
    links
}

/// Whether few enough links are among an operation's arguments and among its results.
pub(crate) fn has_few_links(op: &OpDecl) -> bool
    ensures { result ≡ (nat_le (links_among (op_tree op.now).arguments) 8 && nat_le (links_among (op_tree op.now).results) 8) }
{
    links_among(&op.arguments) <= MOST_LINKS && links_among(&op.results) <= MOST_LINKS
}

/// So many bytes and more. What passes the bytes of a packet counts as one more than they.
fn plus(bytes: u64, more: u64) -> u64
    requires { bytes ≤ 257 }
    ensures { result ≡ min (bytes + more) 257 }
{
    (bytes + more.min(MOST_BYTES + 1)).min(MOST_BYTES + 1)
}

/// The bytes of the widest value of a type, behind so many others, with the same limit.
fn behind(bytes: u64, kind: TypeName) -> u64
    requires { bytes ≤ 257 }
    ensures { result ≡ min (bytes + widest kind) 257 }
{
    let more = match kind {
        TypeName::Int => 9,
        TypeName::Bool => 2,
        TypeName::Text => 66,
        TypeName::Link => 1,
        TypeName::Row(length) => 2 + 8 * length.unsigned_abs().min(MOST_BYTES),
    };
    (bytes + more).min(MOST_BYTES + 1)
}

/// The bytes of the widest values of these types behind so many others, with the same limit.
fn width(bytes: u64, types: &[TypeName]) -> u64
    requires { bytes ≤ 257 }
    ensures { result ≡ min (bytes + sum_by widest types.now) 257 }
{
    let mut sum = bytes;
    for kind in types {
        sum = behind(sum, *kind);
    }
    sum
}

/// The bytes of a type in a signature.
fn type_length(kind: TypeName) -> u64
    ensures value { result ≡ length (type_text kind) }
    ensures short { result ≤ 43 }
{
    match kind {
        TypeName::Int => 3,
        TypeName::Bool | TypeName::Text | TypeName::Link => 4,
        TypeName::Row(length) => 3 + Buffer::new().format(length).len() as u64,
    }
}

/// The bytes of types with commas between them, behind so many others, with the same limit.
fn spelled(bytes: u64, types: &[TypeName]) -> u64
    requires { bytes ≤ 257 }
    ensures { result ≡ min (bytes + length (types_text types.now)) 257 }
{
    let Some((first, rest)) = types.split_first() else {
        return bytes;
    };
    let mut sum = plus(bytes, type_length(*first));
    for kind in rest {
        sum = plus(sum, 1 + type_length(*kind));
    }
    sum
}

/// The bytes of the widest request of an operation, with the same limit.
fn request_width(op: &OpDecl) -> u64
    ensures { result ≡ min (widest_request (op_tree op.now)) 257 }
{
    let name = op.name.as_slice().len() as u64;
    let arguments = spelled(HEAD_BYTES + SIGN_BYTES + name, &op.arguments);
    let signature = spelled(arguments, &op.results);
    width(signature, &op.arguments)
}

/// Whether the widest request and the widest reply of an operation are packets.
pub(crate) fn fits_packets(op: &OpDecl) -> bool
    ensures { result ≡ (nat_le (widest_request (op_tree op.now)) 256 && nat_le (widest_reply (op_tree op.now)) 256) }
{
    request_width(op) <= MOST_BYTES && width(HEAD_BYTES, &op.results) <= MOST_BYTES
}
