//! Expressions as text.

ghost use Rattle.std.specs.Prelude.{◌≡◌, ℕ, [], ◌∷◌, ◌++◌, OnOk};
ghost use Rattle.lynx_tree.specs.Grammar.{Mark, expr_marks, index_marks, chain_marks, sum_marks, term_marks, term_sign};
ghost use Rattle.lynx_tree.specs.Trees.{expr_tree, expr_list, sum_list, term_list};
ghost use Rattle.lynx_tree.specs.Printing.{Prints, token_text};

use crate::print_token::{
    push_keyword, push_name, push_number, push_sign, push_spelling, push_text,
};
use lynx_lexer::{Keyword, NoMemory, Sign};
use lynx_tree::{Expr, TermSign};

/// Adds an expression.
#[cycle(print_expression)]
#[tactic(auto, using(crate::proofs::Texts::texts))]
pub fn push_expr(expr: &Expr, out: &mut Vec<u8>) -> Result<(), NoMemory>
    ensures { (d : ℕ) → OnOk result (Prints out.old.items out.new.items (expr_marks d (expr_tree expr.now))) }
{
    match expr {
        Expr::Or(members) => push_chain(members, b"or", out),
        Expr::And(members) => push_chain(members, b"and", out),
        Expr::Relation {
            sign,
            first,
            second,
        } => {
            push_expr(first, out)?;
            push_sign(*sign, out)?;
            push_expr(second, out)
        }
        Expr::Sum {
            sign,
            first,
            second: member,
        } => {
            push_expr(first, out)?;
            push_sign(*sign, out)?;
            push_expr(member, out)
        }
        Expr::Sums { first, rest } => {
            push_expr(first, out)?;
            push_sums(rest, out)
        }
        Expr::Term {
            sign,
            first,
            second: member,
        } => {
            push_expr(first, out)?;
            push_term_sign(*sign, out)?;
            push_expr(member, out)
        }
        Expr::Terms { first, rest } => {
            push_expr(first, out)?;
            push_terms(rest, out)
        }
        Expr::Minus(inner) => {
            push_sign(Sign::Minus, out)?;
            push_expr(inner, out)
        }
        Expr::Not(inner) => {
            push_keyword(Keyword::Not, out)?;
            push_expr(inner, out)
        }
        Expr::Number(number) => push_number(*number, out),
        Expr::Text(inside) => push_text(inside, out),
        Expr::True => push_keyword(Keyword::True, out),
        Expr::False => push_keyword(Keyword::False, out),
        Expr::Name(name) => push_name(name, out),
        Expr::Member { name, index } => {
            push_name(name, out)?;
            push_index(index, out)
        }
        Expr::Bracket(inner) => {
            push_sign(Sign::Open, out)?;
            push_expr(inner, out)?;
            push_sign(Sign::Close, out)
        }
    }
}

/// Adds an index in its brackets.
#[cycle(print_expression)]
#[tactic(auto, using(crate::proofs::Texts::texts))]
pub fn push_index(index: &Expr, out: &mut Vec<u8>) -> Result<(), NoMemory>
    ensures { (d : ℕ) → OnOk result (Prints out.old.items out.new.items (index_marks d (expr_tree index.now))) }
{
    push_sign(Sign::OpenRow, out)?;
    push_expr(index, out)?;
    push_sign(Sign::CloseRow, out)
}

/// Adds expressions with a token between them, which a blank follows.
#[cycle(print_expression)]
#[tactic(auto, using(crate::proofs::Texts::texts))]
pub fn push_chain(members: &[Expr], between: &[u8], out: &mut Vec<u8>) -> Result<(), NoMemory>
    ensures { (d : ℕ) (t : Mark) → token_text t.kind ≡ between.now ++ 32 ∷ [] → OnOk result (Prints out.old.items out.new.items (chain_marks d t (expr_list members.now))) }
{
    let Some((first, rest)) = members.split_first() else {
        return Ok(());
    };
    push_expr(first, out)?;
    for member in rest {
        push_spelling(between, b' ', out)?;
        push_expr(member, out)?;
    }
    Ok(())
}

/// Adds members of a sum, each behind its sign.
#[cycle(print_expression)]
#[tactic(auto, using(crate::proofs::Texts::texts))]
fn push_sums(members: &[(Sign, Expr)], out: &mut Vec<u8>) -> Result<(), NoMemory>
    ensures { (d : ℕ) → OnOk result (Prints out.old.items out.new.items (sum_marks d (sum_list members.now))) }
{
    for (sign, member) in members {
        push_sign(*sign, out)?;
        push_expr(member, out)?;
    }
    Ok(())
}

/// Adds members of a term, each behind its sign.
#[cycle(print_expression)]
#[tactic(auto, using(crate::proofs::Texts::texts))]
fn push_terms(members: &[(TermSign, Expr)], out: &mut Vec<u8>) -> Result<(), NoMemory>
    ensures { (d : ℕ) → OnOk result (Prints out.old.items out.new.items (term_marks d (term_list members.now))) }
{
    for (sign, member) in members {
        push_term_sign(*sign, out)?;
        push_expr(member, out)?;
    }
    Ok(())
}

#[tactic(auto, using(crate::proofs::Texts::texts))]
fn push_term_sign(sign: TermSign, out: &mut Vec<u8>) -> Result<(), NoMemory>
    ensures { (d : ℕ) → OnOk result (Prints out.old.items out.new.items (term_sign d sign ∷ [])) }
{
    match sign {
        TermSign::Times => push_sign(Sign::Times, out),
        TermSign::Over => push_sign(Sign::Over, out),
        TermSign::Mod => push_keyword(Keyword::Mod, out),
    }
}
