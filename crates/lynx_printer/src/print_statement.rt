//! Statements as text.

ghost use Rattle.std.specs.Prelude.{◌≡◌, ℕ, [], ◌∷◌, ◌++◌, OnOk};
ghost use Rattle.lynx_tree.specs.Grammar.{Mark, word, mark, name, expr_marks, stmt_marks, stmts_marks, handlers_marks, target_marks, accept_marks};
ghost use Rattle.lynx_tree.specs.Trees.{expr_tree, stmt_tree, stmt_list, handler_list, index_tree, expr_list, Connect, Reply};
ghost use Rattle.lynx_lexer.specs.declared.keyword.Keyword.TheVariants as keywords;
ghost use Rattle.lynx_lexer.specs.declared.sign.Sign.TheVariants as signs;
ghost use Rattle.lynx_tree.specs.Printing.{Prints};

use crate::print_expression::{push_expr, push_index};
use crate::print_list::{push_exprs, push_names};
use crate::print_token::{push_keyword, push_name, push_sign};
use lynx_lexer::{IdentRef, Keyword, NoMemory, Sign};
use lynx_tree::{Expr, Handler, Stmt};

/// Adds the target of an assignment.
#[tactic(auto, using(crate::proofs::Texts::texts))]
fn push_target<'t, 'm>(
    name: &'t IdentRef<'m>,
    index: &'t Option<Box<Expr<'m>>>,
    out: &mut Vec<u8>,
) -> Result<(), NoMemory>
    ensures { (d : ℕ) → OnOk result (Prints out.old.items out.new.items (target_marks d name.now (index_tree index.now))) }
{
    push_name(name, out)?;
    match index {
        None => Ok(()),
        Some(index) => push_index(index, out),
    }
}

/// Adds a keyword and a name.
#[tactic(auto, using(crate::proofs::Texts::texts))]
pub fn push_named(keyword: Keyword, ident: &IdentRef, out: &mut Vec<u8>) -> Result<(), NoMemory>
    ensures { (d : ℕ) → OnOk result (Prints out.old.items out.new.items (word d keyword ∷ name d ident.now ∷ [])) }
{
    push_keyword(keyword, out)?;
    push_name(ident, out)
}

/// Adds two names, each behind its keyword.
#[tactic(auto, using(crate::proofs::Texts::texts))]
pub fn push_two<'t, 'm>(
    keyword: Keyword,
    first: &'t IdentRef<'m>,
    between: Keyword,
    second: &'t IdentRef<'m>,
    out: &mut Vec<u8>,
) -> Result<(), NoMemory>
    ensures { (d : ℕ) → OnOk result (Prints out.old.items out.new.items (word d keyword ∷ name d first.now ∷ word d between ∷ name d second.now ∷ [])) }
{
    push_keyword(keyword, out)?;
    push_name(first, out)?;
    push_keyword(between, out)?;
    push_name(second, out)
}

/// Adds a keyword and a value.
#[tactic(auto, using(crate::proofs::Texts::texts))]
fn push_value(value: &Expr, keyword: Keyword, out: &mut Vec<u8>) -> Result<(), NoMemory>
    ensures { (d : ℕ) → OnOk result (Prints out.old.items out.new.items (word d keyword ∷ expr_marks d (expr_tree value.now))) }
{
    push_keyword(keyword, out)?;
    push_expr(value, out)
}

#[tactic(auto, using(crate::proofs::Texts::texts))]
fn push_new<'t, 'm>(
    first: &'t IdentRef<'m>,
    second: &'t IdentRef<'m>,
    out: &mut Vec<u8>,
) -> Result<(), NoMemory>
    ensures { (d : ℕ) → OnOk result (Prints out.old.items out.new.items (word d keywords.New ∷ name d first.now ∷ mark d signs.Comma ∷ name d second.now ∷ [])) }
{
    push_keyword(Keyword::New, out)?;
    push_name(first, out)?;
    push_sign(Sign::Comma, out)?;
    push_name(second, out)
}

/// Adds a value between two keywords.
#[tactic(auto, using(crate::proofs::Texts::texts))]
fn push_test(
    first: Keyword,
    value: &Expr,
    second: Keyword,
    out: &mut Vec<u8>,
) -> Result<(), NoMemory>
    ensures { (d : ℕ) → OnOk result (Prints out.old.items out.new.items (word d first ∷ (expr_marks d (expr_tree value.now) ++ word d second ∷ []))) }
{
    push_keyword(first, out)?;
    push_expr(value, out)?;
    push_keyword(second, out)
}

/// Adds an assignment.
#[tactic(auto, using(crate::proofs::Texts::texts))]
fn push_assign<'t, 'm>(
    name: &'t IdentRef<'m>,
    index: &'t Option<Box<Expr<'m>>>,
    value: &'t Expr<'m>,
    out: &mut Vec<u8>,
) -> Result<(), NoMemory>
    ensures { (d : ℕ) → OnOk result (Prints out.old.items out.new.items (target_marks d name.now (index_tree index.now) ++ mark d signs.Becomes ∷ expr_marks d (expr_tree value.now))) }
{
    push_target(name, index, out)?;
    push_sign(Sign::Becomes, out)?;
    push_expr(value, out)
}

/// Adds a request.
fn push_connect<'t, 'm>(
    op: &'t IdentRef<'m>,
    link: &'t IdentRef<'m>,
    values: &'t [Expr<'m>],
    results: &'t [IdentRef<'m>],
    out: &mut Vec<u8>,
) -> Result<(), NoMemory>
    ensures { (d : ℕ) → OnOk result (Prints out.old.items out.new.items (stmt_marks d (Connect op.now link.now (expr_list values.now) results.now))) }
{
    push_two(Keyword::Connect, op, Keyword::On, link, out)?;
    push_exprs(values, out)?;
    push_sign(Sign::Colon, out)?;
    push_names(results, out)
}

/// Adds the first line of an accept.
fn push_accept<'t, 'm>(
    op: &'t IdentRef<'m>,
    link: &'t IdentRef<'m>,
    names: &'t [IdentRef<'m>],
    out: &mut Vec<u8>,
) -> Result<(), NoMemory>
    ensures { (d : ℕ) → OnOk result (Prints out.old.items out.new.items (accept_marks d op.now link.now names.now)) }
{
    push_two(Keyword::Accept, op, Keyword::On, link, out)?;
    push_names(names, out)?;
    push_keyword(Keyword::Do, out)
}

/// Adds an answer.
#[tactic(auto, using(crate::proofs::Texts::texts))]
fn push_reply(values: &[Expr], out: &mut Vec<u8>) -> Result<(), NoMemory>
    ensures { (d : ℕ) → OnOk result (Prints out.old.items out.new.items (stmt_marks d (Reply (expr_list values.now)))) }
{
    push_keyword(Keyword::Reply, out)?;
    push_exprs(values, out)
}

/// Adds a statement.
#[cycle(print_statement)]
fn push_stmt(stmt: &Stmt, out: &mut Vec<u8>) -> Result<(), NoMemory>
    ensures { (d : ℕ) → OnOk result (Prints out.old.items out.new.items (stmt_marks d (stmt_tree stmt.now))) }
{
    match stmt {
        Stmt::Assign { name, index, value } => push_assign(name, index, value, out),
        Stmt::If {
            condition,
            then,
            otherwise,
        } => {
            push_test(Keyword::If, condition, Keyword::Then, out)?;
            push_stmts(then, out)?;
            match otherwise {
                None => push_keyword(Keyword::End, out),
                Some(otherwise) => {
                    push_keyword(Keyword::Else, out)?;
                    push_stmts(otherwise, out)?;
                    push_keyword(Keyword::End, out)
                }
            }
        }
        Stmt::While { condition, body } => {
            push_test(Keyword::While, condition, Keyword::Do, out)?;
            push_stmts(body, out)?;
            push_keyword(Keyword::End, out)
        }
        Stmt::Write(value) => push_value(value, Keyword::Write, out),
        Stmt::Await(condition) => push_value(condition, Keyword::Await, out),
        Stmt::Stop => push_keyword(Keyword::Stop, out),
        Stmt::Raise(name) => push_named(Keyword::Raise, name, out),
        Stmt::New { first, second } => push_new(first, second, out),
        Stmt::Destroy(name) => push_named(Keyword::Destroy, name, out),
        Stmt::Bind { link, entry } => push_two(Keyword::Bind, link, Keyword::To, entry, out),
        Stmt::Unbind { link, entry } => push_two(Keyword::Unbind, link, Keyword::From, entry, out),
        Stmt::Connect {
            op,
            link,
            values,
            results,
        } => push_connect(op, link, values, results, out),
        Stmt::Accept {
            op,
            link,
            names,
            body,
        } => {
            push_accept(op, link, names, out)?;
            push_stmts(body, out)?;
            push_keyword(Keyword::End, out)
        }
        Stmt::Reply(values) => push_reply(values, out),
        Stmt::Try { body, handlers } => {
            push_keyword(Keyword::Try, out)?;
            push_stmts(body, out)?;
            push_handlers(handlers, out)?;
            push_keyword(Keyword::End, out)
        }
    }
}

/// Adds statements, each with its semicolon.
#[cycle(print_statement)]
pub fn push_stmts(stmts: &[Stmt], out: &mut Vec<u8>) -> Result<(), NoMemory>
    ensures { (d : ℕ) → OnOk result (Prints out.old.items out.new.items (stmts_marks d (stmt_list stmts.now))) }
{
    for stmt in stmts {
        push_stmt(stmt, out)?;
        push_sign(Sign::Semicolon, out)?;
    }
    Ok(())
}

#[cycle(print_statement)]
fn push_handlers(handlers: &[Handler], out: &mut Vec<u8>) -> Result<(), NoMemory>
    ensures { (d : ℕ) → OnOk result (Prints out.old.items out.new.items (handlers_marks d (handler_list handlers.now))) }
{
    for handler in handlers {
        push_named(Keyword::When, &handler.name, out)?;
        push_keyword(Keyword::Do, out)?;
        push_stmts(&handler.body, out)?;
    }
    Ok(())
}
