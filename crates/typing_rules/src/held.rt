//! What is known of the types of values.

ghost use Rattle.std.specs.Prelude.{◌≡◌};
ghost use Rattle.typing_rules.specs.Types.{same_type, agree, fits, is_row_or_link, may_be_row, has_length, is_link};

use lynx_tree::TypeName;

/// The most numbers of a row.
const MOST_NUMBERS: i64 = 16;

/// The type of a value; None where a rule fails inside it, and then it is held to have the type that its place needs.
pub type Held = Option<TypeName>;

/// Whether two types are the same. Rows are where their lengths are.
fn same_type(a: TypeName, b: TypeName) -> bool
    ensures { result ≡ same_type a b }
{
    match a {
        TypeName::Int => matches!(b, TypeName::Int),
        TypeName::Bool => matches!(b, TypeName::Bool),
        TypeName::Text => matches!(b, TypeName::Text),
        TypeName::Link => matches!(b, TypeName::Link),
        TypeName::Row(length) => match b {
            TypeName::Row(other) => length == other,
            _ => false,
        },
    }
}

/// Whether two values may be of one type.
pub fn agree(a: Held, b: Held) -> bool
    ensures { result ≡ agree a b }
{
    match (a, b) {
        (Some(a), Some(b)) => same_type(a, b),
        _ => true,
    }
}

/// Whether a value may be of the type.
pub fn fits(wanted: TypeName, held: Held) -> bool
    ensures { result ≡ fits wanted held }
{
    agree(Some(wanted), held)
}

/// Whether a value is one that is neither written nor compared.
pub fn is_row_or_link(held: Held) -> bool
    ensures { result ≡ is_row_or_link held }
{
    match held {
        Some(TypeName::Link | TypeName::Row(_)) => true,
        Some(TypeName::Int | TypeName::Bool | TypeName::Text) | None => false,
    }
}

/// Whether a value may be indexed.
pub fn may_be_row(held: Held) -> bool
    ensures { result ≡ may_be_row held }
{
    match held {
        None => true,
        Some(kind) => matches!(kind, TypeName::Row(_)),
    }
}

/// Whether the type is that of links.
pub fn is_link(kind: TypeName) -> bool
    ensures { result ≡ is_link kind }
{
    matches!(kind, TypeName::Link)
}

/// Whether the type is no row, or one that has a length that rows may have.
pub fn has_length(kind: TypeName) -> bool
    ensures { result ≡ has_length kind }
{
    match kind {
        TypeName::Row(length) => length >= 1 && length <= MOST_NUMBERS,
        TypeName::Int | TypeName::Bool | TypeName::Text | TypeName::Link => true,
    }
}
