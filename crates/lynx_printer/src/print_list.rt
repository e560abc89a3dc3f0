//! Lists in brackets as text.

ghost use Rattle.std.specs.Prelude.{◌≡◌, ℕ, [], ◌∷◌, ◌++◌, map, OnOk};
ghost use Rattle.lynx_tree.specs.Grammar.{Mark, name, commas, names_marks, exprs_marks, type_marks, types_marks};
ghost use Rattle.lynx_tree.specs.Trees.{expr_list};
ghost use Rattle.lynx_tree.specs.Printing.{Prints};

use crate::print_expression::push_chain;
use crate::print_token::{push_keyword, push_name, push_number, push_sign};
use lynx_lexer::{IdentRef, Keyword, NoMemory, Sign};
use lynx_tree::{Expr, TypeName};

fn push_name_list(names: &[IdentRef], out: &mut Vec<u8>) -> Result<(), NoMemory>
    ensures { (d : ℕ) → OnOk result (Prints out.old.items out.new.items (commas d (map (λ n. name d n ∷ []) names.now))) }
{
    let Some((first, rest)) = names.split_first() else {
        return Ok(());
    };
    push_name(first, out)?;
    for name in rest {
        push_sign(Sign::Comma, out)?;
        push_name(name, out)?;
    }
    Ok(())
}

/// Adds names in brackets.
#[tactic(auto, using(crate::proofs::Texts::texts))]
pub fn push_names(names: &[IdentRef], out: &mut Vec<u8>) -> Result<(), NoMemory>
    ensures { (d : ℕ) → OnOk result (Prints out.old.items out.new.items (names_marks d names.now)) }
{
    push_sign(Sign::Open, out)?;
    push_name_list(names, out)?;
    push_sign(Sign::Close, out)
}

/// Adds values in brackets.
#[tactic(auto, using(crate::proofs::Texts::texts))]
pub fn push_exprs(values: &[Expr], out: &mut Vec<u8>) -> Result<(), NoMemory>
    ensures { (d : ℕ) → OnOk result (Prints out.old.items out.new.items (exprs_marks d (expr_list values.now))) }
{
    push_sign(Sign::Open, out)?;
    push_chain(values, b",", out)?;
    push_sign(Sign::Close, out)
}

/// Adds a type.
#[tactic(auto, using(crate::proofs::Texts::texts))]
pub fn push_type(kind: TypeName, out: &mut Vec<u8>) -> Result<(), NoMemory>
    ensures { (d : ℕ) → OnOk result (Prints out.old.items out.new.items (type_marks d kind)) }
{
    match kind {
        TypeName::Int => push_keyword(Keyword::Int, out),
        TypeName::Bool => push_keyword(Keyword::Bool, out),
        TypeName::Text => push_keyword(Keyword::Text, out),
        TypeName::Link => push_keyword(Keyword::Link, out),
        TypeName::Row(length) => {
            push_keyword(Keyword::Row, out)?;
            push_number(length, out)
        }
    }
}

fn push_type_list(types: &[TypeName], out: &mut Vec<u8>) -> Result<(), NoMemory>
    ensures { OnOk result (Prints out.old.items out.new.items (commas 1 (map (type_marks 1) types.now))) }
{
    let Some((first, rest)) = types.split_first() else {
        return Ok(());
    };
    push_type(*first, out)?;
    for kind in rest {
        push_sign(Sign::Comma, out)?;
        push_type(*kind, out)?;
    }
    Ok(())
}

/// Adds types in brackets.
#[tactic(auto, using(crate::proofs::Texts::texts))]
pub fn push_types(types: &[TypeName], out: &mut Vec<u8>) -> Result<(), NoMemory>
    ensures { OnOk result (Prints out.old.items out.new.items (types_marks types.now)) }
{
    push_sign(Sign::Open, out)?;
    push_type_list(types, out)?;
    push_sign(Sign::Close, out)
}
