//! Statements.

ghost use Rattle.std.specs.Prelude.{◌≡◌, ◌+◌, ◌<◌, length};
ghost use Rattle.lynx_tree.specs.Grammar.{stmt_marks, handlers_marks};
ghost use Rattle.lynx_tree.specs.Trees.{expr_tree, stmt_tree, stmt_list, handler_list, else_list, While, choice_tree};
ghost use Rattle.typing_rules.specs.Expressions.{expr_size, value_faults};
ghost use Rattle.typing_rules.specs.Meanings.{scope_of};
ghost use Rattle.typing_rules.specs.Progress.{first_with};
ghost use Rattle.typing_rules.specs.Rules.{condition_is_bool};
ghost use Rattle.typing_rules.specs.Statements.{stmts_size, stmt_faults, stmts_faults, handlers_faults};
ghost use Rattle.typing_statements.specs.Requests.{request_of};

use crate::action::{
    accept, assignment, binding, connect, exception_named, new_link, reply, written,
};
use crate::request::Request;
use lynx_tree::{Expr, Handler, Stmt, TypeName};
use typing_rules::rule::CONDITION_IS_BOOL;
use typing_rules::{Scope, Walk, link, operand};

/// Goes over a word and the condition behind it.
fn condition(value: &Expr, walk: &mut Walk, scope: &Scope)
    requires { walk.old.at + 1 + expr_size (expr_tree value.now) < 4294967296 }
    ensures at { walk.new.at ≡ walk.old.at + 1 + expr_size (expr_tree value.now) }
    ensures first { walk.new.first ≡ first_with walk.old.first (value_faults condition_is_bool (scope_of scope.now) (walk.old.at + 1) (expr_tree value.now)) }
{
    walk.skip(1);
    operand(walk, scope, CONDITION_IS_BOOL, TypeName::Bool, value);
}

/// Goes over a statement.
#[cycle(type_statement)]
fn statement(stmt: &Stmt, request: Request, walk: &mut Walk, scope: &Scope)
    requires { walk.old.at + length (stmt_marks 0 (stmt_tree stmt.now)) < 4294967296 }
    ensures at { walk.new.at ≡ walk.old.at + length (stmt_marks 0 (stmt_tree stmt.now)) }
    ensures first { walk.new.first ≡ first_with walk.old.first (stmt_faults (scope_of scope.now) (request_of request.entry) walk.old.at (stmt_tree stmt.now)) }
{
    match stmt {
        Stmt::Assign { name, index, value } => assignment(name, index, value, walk, scope),
        Stmt::If {
            condition,
            then,
            otherwise,
        } => choice(condition, then, otherwise, request, walk, scope),
        Stmt::While { condition, body } => repetition(condition, body, request, walk, scope),
        Stmt::Write(value) => {
            walk.skip(1);
            written(value, walk, scope);
        }
        Stmt::Await(value) => condition(value, walk, scope),
        Stmt::Stop => walk.skip(1),
        Stmt::Raise(name) => exception_named(name, walk),
        Stmt::New { first, second } => new_link(first, second, walk, scope),
        Stmt::Destroy(name) => {
            walk.skip(1);
            link(walk, scope, name);
        }
        Stmt::Bind { link, entry } => binding(link, entry, walk, scope),
        Stmt::Unbind { link, entry } => binding(link, entry, walk, scope),
        Stmt::Connect {
            op,
            link,
            values,
            results,
        } => connect(op, link, values, results, walk, scope),
        Stmt::Accept {
            op,
            link,
            names,
            body,
        } => {
            let results = accept(op, link, names, walk, scope);
            statements(body, Request::Asks(results), walk, scope);
            walk.skip(1);
        }
        Stmt::Reply(values) => reply(values, request, walk, scope),
        Stmt::Try { body, handlers } => {
            walk.skip(1);
            statements(body, request, walk, scope);
            handlers_of(handlers, request, walk, scope);
            walk.skip(1);
        }
    }
}

/// Goes over a choice.
#[cycle(type_statement)]
fn choice<'t, 'b>(
    test: &'t Expr<'b>,
    then: &'t [Stmt<'b>],
    otherwise: &'t Option<Vec<Stmt<'b>>>,
    request: Request,
    walk: &mut Walk,
    scope: &Scope,
)
    requires { walk.old.at + length (stmt_marks 0 (choice_tree (expr_tree test.now) (stmt_list then.now) (else_list otherwise.now))) < 4294967296 }
    ensures at { walk.new.at ≡ walk.old.at + length (stmt_marks 0 (choice_tree (expr_tree test.now) (stmt_list then.now) (else_list otherwise.now))) }
    ensures first { walk.new.first ≡ first_with walk.old.first (stmt_faults (scope_of scope.now) (request_of request.entry) walk.old.at (choice_tree (expr_tree test.now) (stmt_list then.now) (else_list otherwise.now))) }
{
    condition(test, walk, scope);
    walk.skip(1);
    statements(then, request, walk, scope);
    walk.skip(1);
    if let Some(otherwise) = otherwise {
        statements(otherwise, request, walk, scope);
        walk.skip(1);
    }
}

/// Goes over a loop.
#[cycle(type_statement)]
fn repetition<'t, 'b>(
    test: &'t Expr<'b>,
    body: &'t [Stmt<'b>],
    request: Request,
    walk: &mut Walk,
    scope: &Scope,
)
    requires { walk.old.at + length (stmt_marks 0 (While (expr_tree test.now) (stmt_list body.now))) < 4294967296 }
    ensures at { walk.new.at ≡ walk.old.at + length (stmt_marks 0 (While (expr_tree test.now) (stmt_list body.now))) }
    ensures first { walk.new.first ≡ first_with walk.old.first (stmt_faults (scope_of scope.now) (request_of request.entry) walk.old.at (While (expr_tree test.now) (stmt_list body.now))) }
{
    condition(test, walk, scope);
    walk.skip(1);
    statements(body, request, walk, scope);
    walk.skip(1);
}

/// Goes over statements, each with its semicolon.
#[cycle(type_statement)]
pub fn statements(stmts: &[Stmt], request: Request, walk: &mut Walk, scope: &Scope)
    requires { walk.old.at + stmts_size (stmt_list stmts.now) < 4294967296 }
    ensures at { walk.new.at ≡ walk.old.at + stmts_size (stmt_list stmts.now) }
    ensures first { walk.new.first ≡ first_with walk.old.first (stmts_faults (scope_of scope.now) (request_of request.entry) walk.old.at (stmt_list stmts.now)) }
{
    for stmt in stmts {
        statement(stmt, request, walk, scope);
        walk.skip(1);
    }
}

/// Goes over the handlers of a `try`.
#[cycle(type_statement)]
fn handlers_of(handlers: &[Handler], request: Request, walk: &mut Walk, scope: &Scope)
    requires { walk.old.at + length (handlers_marks 0 (handler_list handlers.now)) < 4294967296 }
    ensures at { walk.new.at ≡ walk.old.at + length (handlers_marks 0 (handler_list handlers.now)) }
    ensures first { walk.new.first ≡ first_with walk.old.first (handlers_faults (scope_of scope.now) (request_of request.entry) walk.old.at (handler_list handlers.now)) }
{
    for handler in handlers {
        exception_named(&handler.name, walk);
        walk.skip(1);
        statements(&handler.body, request, walk, scope);
    }
}
