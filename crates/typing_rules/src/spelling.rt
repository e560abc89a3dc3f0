//! Signatures of operations.

ghost use Rattle.std.specs.Prelude.{◌≡◌, ◌++◌, IfOk, OnOk, codes};
ghost use Rattle.std.specs.Fmt.{signed_decimal};
ghost use Rattle.lynx_tree.specs.Trees.{op_tree};
ghost use Rattle.typing_rules.specs.Signatures.{type_text, more_types_text, types_text, signature_text};

use itoa::Buffer;
use lynx_lexer::NoMemory;
use lynx_tree::{OpDecl, TypeName};
use std::alloc::Global;

/// The bytes of the longest name, and of the signs around the types.
const NAME_BYTES: usize = 37;

/// The bytes of the longest type that rows may have, and of the sign behind it.
const TYPE_BYTES: usize = 6;

/// How many bytes a signature has at most, where no row is too long.
fn room(op: &OpDecl) -> usize {
    let types = op.arguments.len().saturating_add(op.results.len());
    types.saturating_mul(TYPE_BYTES).saturating_add(NAME_BYTES)
}

fn push_length(out: &mut Vec<u8>, length: i64) -> Result<(), NoMemory>
    ensures { OnOk result (out.new.items ≡ out.old.items ++ signed_decimal length) }
{
    let mut buffer = Buffer::new();
    out.extend_from_slice(buffer.format(length).as_bytes())?;
    Ok(())
}

fn push_type(out: &mut Vec<u8>, kind: TypeName) -> Result<(), NoMemory>
    ensures { OnOk result (out.new.items ≡ out.old.items ++ type_text kind) }
{
    match kind {
        TypeName::Int => out.extend_from_slice(b"int")?,
        TypeName::Bool => out.extend_from_slice(b"bool")?,
        TypeName::Text => out.extend_from_slice(b"text")?,
        TypeName::Link => out.extend_from_slice(b"link")?,
        TypeName::Row(length) => {
            out.extend_from_slice(b"row")?;
            push_length(out, length)?;
        }
    }
    Ok(())
}

/// Writes a comma and the type, at once where the type is one word.
fn push_next_type(out: &mut Vec<u8>, kind: TypeName) -> Result<(), NoMemory>
    ensures { OnOk result (out.new.items ≡ out.old.items ++ (codes "," ++ type_text kind)) }
{
    match kind {
        TypeName::Int => out.extend_from_slice(b",int")?,
        TypeName::Bool => out.extend_from_slice(b",bool")?,
        TypeName::Text => out.extend_from_slice(b",text")?,
        TypeName::Link => out.extend_from_slice(b",link")?,
        TypeName::Row(length) => {
            out.extend_from_slice(b",row")?;
            push_length(out, length)?;
        }
    }
    Ok(())
}

fn push_types(out: &mut Vec<u8>, types: &[TypeName]) -> Result<(), NoMemory>
    ensures { OnOk result (out.new.items ≡ out.old.items ++ types_text types.now) }
{
    let Some((first, rest)) = types.split_first() else {
        return Ok(());
    };
    push_type(out, *first)?;
    push_more_types(out, rest)?;
    Ok(())
}

fn push_more_types(out: &mut Vec<u8>, types: &[TypeName]) -> Result<(), NoMemory>
    ensures { OnOk result (out.new.items ≡ out.old.items ++ more_types_text types.now) }
{
    for kind in types {
        push_next_type(out, *kind)?;
    }
    Ok(())
}

/// The signature of an operation: its name and its types without blanks, as `add(int,int):(int)`. Two processes agree on
/// an operation where they spell it alike.
pub fn signature(alloc: Global, op: &OpDecl) -> Result<Vec<u8>, NoMemory>
    ensures text { IfOk result (λ v. v.items ≡ signature_text (op_tree op.now)) }
{
    let mut out = Vec::with_capacity(alloc, room(op))?;
    out.extend_from_slice(op.name.as_slice())?;
    out.extend_from_slice(b"(")?;
    push_types(&mut out, &op.arguments)?;
    out.extend_from_slice(b"):(")?;
    push_types(&mut out, &op.results)?;
    out.extend_from_slice(b")")?;
    Ok(out)
}
