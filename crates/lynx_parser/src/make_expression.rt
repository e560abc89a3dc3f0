//! Expressions made of their parts.

ghost use Rattle.std.specs.Prelude.{◌≡◌, ℕ, [], ◌∷◌, map, option_map, Option, IfOk};
ghost use Rattle.lynx_tree.specs.Trees as trees;
ghost use Rattle.lynx_tree.specs.Trees.{expr_tree, boxed_tree};
ghost use Rattle.lynx_descent.specs.ReadingExpressions.{exprs_of, sum_of, term_of, named_of};
ghost use Rattle.lynx_parser.specs.Making.{Makes};

use crate::spare::without_spare;
use lynx_descent::Refusal;
use lynx_lexer::{IdentRef, Sign};
use lynx_tree::{Expr, TermSign};
use std::alloc::{AllocError, Global};

/// A list of one expression.
pub fn one<'a>(alloc: Global, first: Expr<'a>) -> Result<Vec<Expr<'a>>, AllocError>
    ensures { IfOk result (λ v. v.items ≡ first.entry ∷ []) }
{
    let mut all = Vec::new(alloc);
    all.push(first)?;
    Ok(all)
}

#[tactic(auto, using(crate::proofs::Made::made))]
pub fn or_of<'a>(alloc: Global, members: Vec<Expr<'a>>) -> Result<Expr<'a>, Refusal>
    ensures { Makes (trees.Or (exprs_of (map expr_tree members.entry.items))) result }
{
    Ok(Expr::Or(Box::new(alloc, members)?))
}

#[tactic(auto, using(crate::proofs::Made::made))]
pub fn and_of<'a>(alloc: Global, members: Vec<Expr<'a>>) -> Result<Expr<'a>, Refusal>
    ensures { Makes (trees.And (exprs_of (map expr_tree members.entry.items))) result }
{
    Ok(Expr::And(Box::new(alloc, members)?))
}

#[tactic(auto, using(crate::proofs::Made::made))]
pub fn relation_of<'a>(
    alloc: Global,
    first: Box<Expr<'a>>,
    sign: Sign,
    second: Expr<'a>,
) -> Result<Expr<'a>, Refusal>
    ensures { Makes (trees.Relation (boxed_tree first.entry) sign (expr_tree second.entry)) result }
{
    let second = Box::new(alloc, second)?;
    Ok(Expr::Relation {
        sign,
        first,
        second,
    })
}

/// A sum, or its first member where it has no other.
#[tactic(auto, using(crate::proofs::Made::made))]
pub fn sum_of<'a>(
    alloc: Global,
    first: Box<Expr<'a>>,
    mut rest: Vec<(Sign, Expr<'a>)>,
) -> Result<Expr<'a>, Refusal>
    ensures { Makes (sum_of (boxed_tree first.entry) (map (λ m. (m.0, expr_tree m.1)) rest.entry.items)) result }
{
    if rest.len() > 1 {
        without_spare(&mut rest);
        let rest = Box::new(alloc, rest)?;
        return Ok(Expr::Sums { first, rest });
    }
    let Some((sign, second)) = rest.pop() else {
        return Ok(Box::into_inner(first));
    };
    let second = Box::new(alloc, second)?;
    Ok(Expr::Sum {
        sign,
        first,
        second,
    })
}

/// A term, or its first member where it has no other.
#[tactic(auto, using(crate::proofs::Made::made))]
pub fn term_of<'a>(
    alloc: Global,
    first: Box<Expr<'a>>,
    mut rest: Vec<(TermSign, Expr<'a>)>,
) -> Result<Expr<'a>, Refusal>
    ensures { Makes (term_of (boxed_tree first.entry) (map (λ m. (m.0, expr_tree m.1)) rest.entry.items)) result }
{
    if rest.len() > 1 {
        without_spare(&mut rest);
        let rest = Box::new(alloc, rest)?;
        return Ok(Expr::Terms { first, rest });
    }
    let Some((sign, second)) = rest.pop() else {
        return Ok(Box::into_inner(first));
    };
    let second = Box::new(alloc, second)?;
    Ok(Expr::Term {
        sign,
        first,
        second,
    })
}

#[tactic(auto, using(crate::proofs::Made::made))]
pub fn minus_of<'a>(alloc: Global, inner: Expr<'a>) -> Result<Expr<'a>, Refusal>
    ensures { Makes (trees.Minus (expr_tree inner.entry)) result }
{
    Ok(Expr::Minus(Box::new(alloc, inner)?))
}

#[tactic(auto, using(crate::proofs::Made::made))]
pub fn not_of<'a>(alloc: Global, inner: Expr<'a>) -> Result<Expr<'a>, Refusal>
    ensures { Makes (trees.Not (expr_tree inner.entry)) result }
{
    Ok(Expr::Not(Box::new(alloc, inner)?))
}

#[tactic(auto, using(crate::proofs::Made::made))]
pub fn bracket_of<'a>(inner: Box<Expr<'a>>) -> Expr<'a>
    ensures { expr_tree result ≡ trees.Bracket (boxed_tree inner.entry) }
{
    Expr::Bracket(inner)
}

/// A variable, or a member of a row.
#[tactic(auto, using(crate::proofs::Made::made))]
pub fn named_of<'a>(
    alloc: Global,
    name: IdentRef<'a>,
    index: Option<Box<Expr<'a>>>,
) -> Result<Expr<'a>, Refusal>
    ensures { Makes (named_of name.entry (option_map boxed_tree index.entry)) result }
{
    let Some(index) = index else {
        return Ok(Expr::Name(name));
    };
    let name = Box::new(alloc, name)?;
    Ok(Expr::Member { name, index })
}
