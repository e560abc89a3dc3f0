//! The code of expressions.

ghost use Rattle.std.specs.Prelude.{◌≡◌, ◌<◌, ◌≤◌, ◌+◌, ◌∷◌, [], ◌++◌, length, true, Err, OnOk};
ghost use Rattle.lynx_tree.specs.Trees.{expr_tree, expr_list, sum_list, term_list};
ghost use Rattle.lynx_code.specs.Generation.{expr_code, chain_code, sum_code, term_code, exprs_code, relation, sum_operator, term_operator};
ghost use Rattle.lynx_code.specs.declared.instruction.Instruction.TheVariants as instructions;
ghost use Rattle.lynx_code.specs.declared.instruction.Literal.TheVariants as literals;
ghost use Rattle.compiler_emission.specs.declared.fault.CompileFault.TheVariants as faults;
ghost use Rattle.compiler_emission.specs.Chains.{chain_jump, member_code};
ghost use Rattle.compiler_emission.specs.Tables.{names_in};

use crate::emit::{behind, push, set};
use crate::fault::CompileFault;
use crate::scope::Scope;
use lynx_code::{Instruction, KeptText, Literal};
use lynx_lexer::{Sign, TextRef};
use lynx_tree::{Expr, TermSign};

fn relation(sign: Sign) -> Instruction
    ensures { result ≡ relation sign }
{
    match sign {
        Sign::Equal => Instruction::Eq,
        Sign::NotEqual => Instruction::Ne,
        Sign::Less => Instruction::Lt,
        Sign::AtMost => Instruction::Le,
        Sign::Greater => Instruction::Gt,
        _ => Instruction::Ge,
    }
}

fn sum_operator(sign: Sign) -> Instruction
    ensures { result ≡ sum_operator sign }
{
    match sign {
        Sign::Plus => Instruction::Add,
        _ => Instruction::Sub,
    }
}

fn term_operator(sign: TermSign) -> Instruction
    ensures { result ≡ term_operator sign }
{
    match sign {
        TermSign::Times => Instruction::Mul,
        TermSign::Over => Instruction::Div,
        TermSign::Mod => Instruction::Mod,
    }
}

// Adds the `push` of a text.
fn push_text(inside: &TextRef, code: &mut Vec<Instruction>) -> Result<(), CompileFault>
    ensures ok { OnOk result (code.new.items ≡ code.old.items ++ instructions.Push (literals.Text inside.now) ∷ []) }
    ensures long { result ≡ Err faults.CodeTooLong → 65535 ≤ length code.old.items }
{
    let text = KeptText::of(*code.allocator(), inside.to_text())?;
    push(code, Instruction::Push(Literal::Text(text)))
}

/// Adds the code of an expression.
#[cycle(emit_expression)]
pub fn emit_expr(
    expr: &Expr,
    code: &mut Vec<Instruction>,
    names: &Scope,
) -> Result<(), CompileFault>
    ensures ok { OnOk result (code.new.items ≡ code.old.items ++ expr_code (names_in names.now) (length code.old.items) (expr_tree expr.now)) }
    ensures long { result ≡ Err faults.CodeTooLong → 65535 < length code.old.items + length (expr_code (names_in names.now) (length code.old.items) (expr_tree expr.now)) }
{
    match expr {
        Expr::Or(members) => emit_chain(true, members, code, names),
        Expr::And(members) => emit_chain(false, members, code, names),
        Expr::Relation {
            sign,
            first,
            second,
        } => {
            emit_expr(first, code, names)?;
            emit_then(second, relation(*sign), code, names)
        }
        Expr::Sum {
            sign,
            first,
            second,
        } => {
            emit_expr(first, code, names)?;
            emit_then(second, sum_operator(*sign), code, names)
        }
        Expr::Sums { first, rest } => {
            emit_expr(first, code, names)?;
            emit_sums(rest, code, names)
        }
        Expr::Term {
            sign,
            first,
            second,
        } => {
            emit_expr(first, code, names)?;
            emit_then(second, term_operator(*sign), code, names)
        }
        Expr::Terms { first, rest } => {
            emit_expr(first, code, names)?;
            emit_terms(rest, code, names)
        }
        Expr::Minus(inner) => emit_then(inner, Instruction::Neg, code, names),
        Expr::Not(inner) => emit_then(inner, Instruction::Not, code, names),
        Expr::Number(number) => push(code, Instruction::Push(Literal::Int(*number))),
        Expr::Text(inside) => push_text(inside, code),
        Expr::True => push(code, Instruction::Push(Literal::Bool(true))),
        Expr::False => push(code, Instruction::Push(Literal::Bool(false))),
        Expr::Name(name) => push(code, names.load(name)),
        Expr::Member { name, index } => emit_then(index, names.load_member(name), code, names),
        Expr::Bracket(inner) => emit_expr(inner, code, names),
    }
}

/// Adds the code of an expression, and an instruction behind it.
#[cycle(emit_expression)]
pub fn emit_then(
    expr: &Expr,
    instruction: Instruction,
    code: &mut Vec<Instruction>,
    names: &Scope,
) -> Result<(), CompileFault>
    ensures ok { OnOk result (code.new.items ≡ code.old.items ++ (expr_code (names_in names.now) (length code.old.items) (expr_tree expr.now) ++ instruction ∷ [])) }
    ensures long { result ≡ Err faults.CodeTooLong → 65535 < length code.old.items + length (expr_code (names_in names.now) (length code.old.items) (expr_tree expr.now) ++ instruction ∷ []) }
{
    emit_expr(expr, code, names)?;
    push(code, instruction)
}

/// Adds the code of a chain of `or`, or else of `and`.
#[cycle(emit_expression)]
fn emit_chain(
    or: bool,
    members: &[Expr],
    code: &mut Vec<Instruction>,
    names: &Scope,
) -> Result<(), CompileFault>
    ensures ok { OnOk result (code.new.items ≡ code.old.items ++ chain_code (names_in names.now) (chain_jump or) (length code.old.items) (expr_list members.now)) }
    ensures long { result ≡ Err faults.CodeTooLong → 65535 < length code.old.items + length (chain_code (names_in names.now) (chain_jump or) (length code.old.items) (expr_list members.now)) }
{
    let Some((first, rest)) = members.split_first() else {
        return Ok(());
    };
    emit_expr(first, code, names)?;
    for member in rest {
        emit_member(or, member, code, names)?;
    }
    Ok(())
}

/// Adds the code of a member of a chain behind the first, with the jump over it.
#[cycle(emit_expression)]
fn emit_member(
    or: bool,
    member: &Expr,
    code: &mut Vec<Instruction>,
    names: &Scope,
) -> Result<(), CompileFault>
    ensures ok { OnOk result (code.new.items ≡ code.old.items ++ member_code (names_in names.now) (chain_jump or) (length code.old.items) (expr_tree member.now)) }
    ensures long { result ≡ Err faults.CodeTooLong → 65535 < length code.old.items + length (member_code (names_in names.now) (chain_jump or) (length code.old.items) (expr_tree member.now)) }
{
    let at = code.len();
    push(code, Instruction::End)?;
    emit_expr(member, code, names)?;
    let end = behind(code, 0)?;
    set(code, at, chain_jump(or, end));
    Ok(())
}

fn chain_jump(or: bool, address: u16) -> Instruction
    ensures { result ≡ chain_jump or address }
{
    if or {
        Instruction::OrJ(address)
    } else {
        Instruction::AndJ(address)
    }
}

/// Adds the code of the members of a sum behind the first.
#[cycle(emit_expression)]
fn emit_sums(
    members: &[(Sign, Expr)],
    code: &mut Vec<Instruction>,
    names: &Scope,
) -> Result<(), CompileFault>
    ensures ok { OnOk result (code.new.items ≡ code.old.items ++ sum_code (names_in names.now) (length code.old.items) (sum_list members.now)) }
    ensures long { result ≡ Err faults.CodeTooLong → 65535 < length code.old.items + length (sum_code (names_in names.now) (length code.old.items) (sum_list members.now)) }
{
    for (sign, member) in members {
        emit_then(member, sum_operator(*sign), code, names)?;
    }
    Ok(())
}

/// Adds the code of the members of a term behind the first.
#[cycle(emit_expression)]
fn emit_terms(
    members: &[(TermSign, Expr)],
    code: &mut Vec<Instruction>,
    names: &Scope,
) -> Result<(), CompileFault>
    ensures ok { OnOk result (code.new.items ≡ code.old.items ++ term_code (names_in names.now) (length code.old.items) (term_list members.now)) }
    ensures long { result ≡ Err faults.CodeTooLong → 65535 < length code.old.items + length (term_code (names_in names.now) (length code.old.items) (term_list members.now)) }
{
    for (sign, member) in members {
        emit_then(member, term_operator(*sign), code, names)?;
    }
    Ok(())
}

/// Adds the code of expressions.
pub fn emit_exprs(
    values: &[Expr],
    code: &mut Vec<Instruction>,
    names: &Scope,
) -> Result<(), CompileFault>
    ensures ok { OnOk result (code.new.items ≡ code.old.items ++ exprs_code (names_in names.now) (length code.old.items) (expr_list values.now)) }
    ensures long { result ≡ Err faults.CodeTooLong → 65535 < length code.old.items + length (exprs_code (names_in names.now) (length code.old.items) (expr_list values.now)) }
{
    for value in values {
        emit_expr(value, code, names)?;
    }
    Ok(())
}
