//! Statements in which no other statements stand.

ghost use Rattle.std.specs.Prelude.{◌≡◌, ◌+◌, ◌<◌, length};
ghost use Rattle.lynx_tree.specs.Grammar.{stmt_marks, accept_marks};
ghost use Rattle.lynx_tree.specs.Trees.{expr_tree, expr_list, index_tree, Bind, Connect, New, Reply};
ghost use Rattle.typing_rules.specs.Expressions.{expr_size, value_faults};
ghost use Rattle.typing_rules.specs.Meanings.{scope_of, types_known};
ghost use Rattle.typing_rules.specs.Names.{results_of};
ghost use Rattle.typing_rules.specs.Progress.{first_with};
ghost use Rattle.typing_rules.specs.Rules.{Outside, value_is_of_target, value_is_written, names_exception};
ghost use Rattle.typing_rules.specs.Statements.{stmt_faults};
ghost use Rattle.typing_statements.specs.Parts.{assigned_tree, accept_faults};
ghost use Rattle.typing_statements.specs.Requests.{request_of};

use crate::list::{names, values};
use crate::request::{Request, has_request, is_number_of, known, results_needed};
use lynx_lexer::IdentRef;
use lynx_tree::{Expr, TypeName};
use typing_rules::rule::{
    ACCEPT_HAS_NAMES, CONNECT_HAS_NAMES, CONNECT_HAS_VALUES, NAME_IS_OF_KIND, NAMES_EXCEPTION,
    NEW_NAMES_DIFFER, REPLY_HAS_REQUEST, REPLY_HAS_VALUES, VALUE_IS_OF_TARGET, VALUE_IS_WRITTEN,
};
use typing_rules::{
    Exception, Held, Scope, Walk, agree, arguments_of, expression, is_entry, is_row_or_link, link,
    member, results_of, variable,
};

/// Goes over a value that is assigned to a target of this type.
fn assigned(value: &Expr, target: Held, walk: &mut Walk, scope: &Scope)
    requires { walk.old.at + expr_size (expr_tree value.now) < 4294967296 }
    ensures at { walk.new.at ≡ walk.old.at + expr_size (expr_tree value.now) }
    ensures first { walk.new.first ≡ first_with walk.old.first (value_faults (value_is_of_target target) (scope_of scope.now) walk.old.at (expr_tree value.now)) }
{
    let place = walk.at();
    let held = expression(walk, scope, value);
    walk.demand(VALUE_IS_OF_TARGET, place, agree(target, held));
}

/// Goes over an assignment to a variable or to a member of a row.
pub(crate) fn assignment<'t, 'b>(
    name: &'t IdentRef<'b>,
    index: &'t Option<Box<Expr<'b>>>,
    value: &'t Expr<'b>,
    walk: &mut Walk,
    scope: &Scope,
)
    requires { walk.old.at + length (stmt_marks 0 (assigned_tree name.now (index_tree index.now) (expr_tree value.now))) < 4294967296 }
    ensures at { walk.new.at ≡ walk.old.at + length (stmt_marks 0 (assigned_tree name.now (index_tree index.now) (expr_tree value.now))) }
    ensures first { walk.new.first ≡ first_with walk.old.first (stmt_faults (scope_of scope.now) Outside walk.old.at (assigned_tree name.now (index_tree index.now) (expr_tree value.now))) }
{
    match index {
        None => {
            let target = variable(walk, scope, name);
            walk.skip(1);
            assigned(value, target, walk, scope);
        }
        Some(index) => {
            member(walk, scope, name, index);
            walk.skip(1);
            assigned(value, Some(TypeName::Int), walk, scope);
        }
    }
}

/// Goes over a value that is written, behind `write`.
pub(crate) fn written(value: &Expr, walk: &mut Walk, scope: &Scope)
    requires { walk.old.at + expr_size (expr_tree value.now) < 4294967296 }
    ensures at { walk.new.at ≡ walk.old.at + expr_size (expr_tree value.now) }
    ensures first { walk.new.first ≡ first_with walk.old.first (value_faults value_is_written (scope_of scope.now) walk.old.at (expr_tree value.now)) }
{
    let place = walk.at();
    let held = expression(walk, scope, value);
    walk.demand(VALUE_IS_WRITTEN, place, !is_row_or_link(held));
}

/// Goes over a word and the name of an exception.
pub(crate) fn exception_named(name: &IdentRef, walk: &mut Walk)
    requires { walk.old.at + 2 < 4294967296 }
    ensures at { walk.new.at ≡ walk.old.at + 2 }
    ensures first { walk.new.first ≡ first_with walk.old.first (names_exception (walk.old.at + 1) name.now) }
{
    walk.skip(1);
    let exception = Exception::from_slice(name.as_slice());
    walk.demand(NAMES_EXCEPTION, walk.at(), exception.is_some());
    walk.skip(1);
}

/// Goes over the making of a link.
pub(crate) fn new_link<'t, 'b>(
    first: &'t IdentRef<'b>,
    second: &'t IdentRef<'b>,
    walk: &mut Walk,
    scope: &Scope,
)
    requires { walk.old.at + 4 < 4294967296 }
    ensures at { walk.new.at ≡ walk.old.at + 4 }
    ensures first { walk.new.first ≡ first_with walk.old.first (stmt_faults (scope_of scope.now) Outside walk.old.at (New first.now second.now)) }
{
    walk.skip(1);
    link(walk, scope, first);
    walk.skip(1);
    let place = walk.at();
    link(walk, scope, second);
    walk.demand(
        NEW_NAMES_DIFFER,
        place,
        first.as_slice() != second.as_slice(),
    );
}

/// Goes over a binding, or the end of one.
pub(crate) fn binding<'t, 'b>(
    name: &'t IdentRef<'b>,
    entry: &'t IdentRef<'b>,
    walk: &mut Walk,
    scope: &Scope,
)
    requires { walk.old.at + 4 < 4294967296 }
    ensures at { walk.new.at ≡ walk.old.at + 4 }
    ensures first { walk.new.first ≡ first_with walk.old.first (stmt_faults (scope_of scope.now) Outside walk.old.at (Bind name.now entry.now)) }
{
    walk.skip(1);
    link(walk, scope, name);
    walk.skip(1);
    walk.demand(NAME_IS_OF_KIND, walk.at(), is_entry(scope.look(entry)));
    walk.skip(1);
}

/// Goes over a request.
pub(crate) fn connect<'t, 'b>(
    op: &'t IdentRef<'b>,
    name: &'t IdentRef<'b>,
    given: &'t [Expr<'b>],
    taken: &'t [IdentRef<'b>],
    walk: &mut Walk,
    scope: &Scope,
)
    requires { walk.old.at + length (stmt_marks 0 (Connect op.now name.now (expr_list given.now) taken.now)) < 4294967296 }
    ensures at { walk.new.at ≡ walk.old.at + length (stmt_marks 0 (Connect op.now name.now (expr_list given.now) taken.now)) }
    ensures first { walk.new.first ≡ first_with walk.old.first (stmt_faults (scope_of scope.now) Outside walk.old.at (Connect op.now name.now (expr_list given.now) taken.now)) }
{
    walk.skip(1);
    let place = walk.at();
    let meaning = scope.look(op);
    let arguments = arguments_of(meaning);
    let results = results_of(meaning);
    walk.demand(NAME_IS_OF_KIND, place, arguments.is_some());
    walk.demand(
        CONNECT_HAS_VALUES,
        place,
        is_number_of(given.len(), arguments),
    );
    walk.demand(CONNECT_HAS_NAMES, place, is_number_of(taken.len(), results));
    walk.skip(2);
    link(walk, scope, name);
    values(given, known(arguments), CONNECT_HAS_VALUES, walk, scope);
    walk.skip(1);
    names(taken, known(results), CONNECT_HAS_NAMES, walk, scope);
}

/// Goes over an accept up to its body, and answers the types of the results that a reply gives, where they are known.
pub(crate) fn accept<'t, 'b, 'm>(
    op: &'t IdentRef<'b>,
    name: &'t IdentRef<'b>,
    taken: &'t [IdentRef<'b>],
    walk: &mut Walk,
    scope: &Scope<'_, 'm>,
) -> Option<&'m [TypeName]>
    requires { walk.old.at + length (accept_marks 0 op.now name.now taken.now) < 4294967296 }
    ensures at { walk.new.at ≡ walk.old.at + length (accept_marks 0 op.now name.now taken.now) }
    ensures first { walk.new.first ≡ first_with walk.old.first (accept_faults (scope_of scope.now) walk.old.at op.now name.now taken.now) }
    ensures results { types_known result ≡ results_of (scope_of scope.now op.now) }
{
    walk.skip(1);
    let place = walk.at();
    let meaning = scope.look(op);
    let arguments = arguments_of(meaning);
    walk.demand(NAME_IS_OF_KIND, place, arguments.is_some());
    walk.demand(
        ACCEPT_HAS_NAMES,
        place,
        is_number_of(taken.len(), arguments),
    );
    walk.skip(2);
    link(walk, scope, name);
    names(taken, known(arguments), ACCEPT_HAS_NAMES, walk, scope);
    walk.skip(1);
    results_of(meaning)
}

/// Goes over an answer to the request around it.
pub(crate) fn reply(given: &[Expr], request: Request, walk: &mut Walk, scope: &Scope)
    requires { walk.old.at + length (stmt_marks 0 (Reply (expr_list given.now))) < 4294967296 }
    ensures at { walk.new.at ≡ walk.old.at + length (stmt_marks 0 (Reply (expr_list given.now))) }
    ensures first { walk.new.first ≡ first_with walk.old.first (stmt_faults (scope_of scope.now) (request_of request.entry) walk.old.at (Reply (expr_list given.now))) }
{
    let place = walk.at();
    let results = results_needed(request);
    walk.demand(REPLY_HAS_REQUEST, place, has_request(request));
    walk.demand(REPLY_HAS_VALUES, place, is_number_of(given.len(), results));
    walk.skip(1);
    values(given, known(results), REPLY_HAS_VALUES, walk, scope);
}
