//! Statements made of their parts.

ghost use Rattle.std.specs.Prelude.{◌≡◌, ℕ, List, map, option_map};
ghost use Rattle.lynx_tree.specs.Trees as trees;
ghost use Rattle.lynx_tree.specs.Trees.{expr_tree, boxed_tree, stmt_tree};
ghost use Rattle.lynx_descent.specs.ReadingExpressions.{exprs_of};
ghost use Rattle.lynx_descent.specs.ReadingStatements.{assign_of, choice_of, body_of, handlers_of, handler_of};

use lynx_lexer::IdentRef;
use lynx_tree::{Expr, Handler, Stmt};

#[tactic(auto, using(crate::proofs::MadeStatements::made_statements))]
pub fn assign_of<'a>(name: IdentRef<'a>, index: Option<Box<Expr<'a>>>, value: Expr<'a>) -> Stmt<'a>
    ensures { stmt_tree result ≡ assign_of name.entry (option_map boxed_tree index.entry) (expr_tree value.entry) }
{
    Stmt::Assign { name, index, value }
}

#[tactic(auto, using(crate::proofs::MadeStatements::made_statements))]
pub fn connect_of<'a>(
    op: IdentRef<'a>,
    link: IdentRef<'a>,
    values: Vec<Expr<'a>>,
    results: Vec<IdentRef<'a>>,
) -> Stmt<'a>
    ensures { stmt_tree result ≡ trees.Connect op.entry link.entry (exprs_of (map expr_tree values.entry.items)) results.entry.items }
{
    Stmt::Connect {
        op,
        link,
        values,
        results,
    }
}

#[tactic(auto, using(crate::proofs::MadeStatements::made_statements))]
pub fn reply_of<'a>(values: Vec<Expr<'a>>) -> Stmt<'a>
    ensures { stmt_tree result ≡ trees.Reply (exprs_of (map expr_tree values.entry.items)) }
{
    Stmt::Reply(values)
}

#[tactic(auto, using(crate::proofs::MadeStatements::made_statements))]
pub fn choice_of<'a>(
    condition: Box<Expr<'a>>,
    then: Vec<Stmt<'a>>,
    otherwise: Option<Vec<Stmt<'a>>>,
) -> Stmt<'a>
    ensures { stmt_tree result ≡ choice_of (boxed_tree condition.entry) (body_of then.entry.items) (option_map (λ v. body_of v.items) otherwise.entry) }
{
    Stmt::If {
        condition,
        then,
        otherwise,
    }
}

#[tactic(auto, using(crate::proofs::MadeStatements::made_statements))]
pub fn repetition_of<'a>(condition: Box<Expr<'a>>, body: Vec<Stmt<'a>>) -> Stmt<'a>
    ensures { stmt_tree result ≡ trees.While (boxed_tree condition.entry) (body_of body.entry.items) }
{
    Stmt::While {
        condition: Box::into_inner(condition),
        body,
    }
}

#[tactic(auto, using(crate::proofs::MadeStatements::made_statements))]
pub fn accept_of<'a>(
    op: IdentRef<'a>,
    link: IdentRef<'a>,
    names: Vec<IdentRef<'a>>,
    body: Vec<Stmt<'a>>,
) -> Stmt<'a>
    ensures { stmt_tree result ≡ trees.Accept op.entry link.entry names.entry.items (body_of body.entry.items) }
{
    Stmt::Accept {
        op,
        link,
        names,
        body,
    }
}

#[tactic(auto, using(crate::proofs::MadeStatements::made_statements))]
pub fn attempt_of<'a>(body: Vec<Stmt<'a>>, handlers: Vec<Handler<'a>>) -> Stmt<'a>
    ensures { stmt_tree result ≡ trees.Try (body_of body.entry.items) (handlers_of (map handler_of handlers.entry.items)) }
{
    Stmt::Try { body, handlers }
}
