//! Lists of values and of names in brackets.

ghost use Rattle.std.specs.Prelude.{◌≡◌, ◌+◌, ◌<◌, length, drop};
ghost use Rattle.lynx_tree.specs.Grammar.{exprs_marks, names_marks};
ghost use Rattle.lynx_tree.specs.Trees.{expr_tree, expr_list};
ghost use Rattle.typing_rules.specs.Expressions.{expr_size, values_faults};
ghost use Rattle.typing_rules.specs.Meanings.{scope_of};
ghost use Rattle.typing_rules.specs.Progress.{first_with};
ghost use Rattle.typing_rules.specs.Rules.{wants};
ghost use Rattle.typing_rules.specs.Statements.{names_faults};
ghost use Rattle.typing_statements.specs.Parts.{typed_value, typed_name};

use lynx_lexer::IdentRef;
use lynx_tree::{Expr, TypeName};
use typing_rules::{Scope, Walk, expression, fits, operand, variable};

/// The types behind the first one.
pub fn behind_first(types: &[TypeName]) -> &[TypeName]
    ensures { result.now ≡ drop 1 types.now }
{
    match types.split_first() {
        None => types,
        Some((_, rest)) => rest,
    }
}

/// Goes over a value, and tries by the rule that it is of the first of the types that are left, if any is.
fn next_value(value: &Expr, types: &[TypeName], rule: u8, walk: &mut Walk, scope: &Scope)
    requires { walk.old.at + expr_size (expr_tree value.now) < 4294967296 }
    ensures at { walk.new.at ≡ walk.old.at + expr_size (expr_tree value.now) }
    ensures first { walk.new.first ≡ first_with walk.old.first (typed_value rule (scope_of scope.now) walk.old.at (expr_tree value.now) types.now) }
{
    match types.first() {
        None => {
            expression(walk, scope, value);
        }
        Some(kind) => {
            operand(walk, scope, rule, *kind, value);
        }
    }
}

/// Goes over values in brackets, and tries by the rule that they are of these types.
pub(crate) fn values(values: &[Expr], types: &[TypeName], rule: u8, walk: &mut Walk, scope: &Scope)
    requires { walk.old.at + length (exprs_marks 0 (expr_list values.now)) < 4294967296 }
    ensures at { walk.new.at ≡ walk.old.at + length (exprs_marks 0 (expr_list values.now)) }
    ensures first { walk.new.first ≡ first_with walk.old.first (values_faults (wants rule) (scope_of scope.now) (walk.old.at + 1) (expr_list values.now) types.now) }
{
    walk.skip(1);
    if values.is_empty() {
        walk.skip(1);
        return;
    }
    let mut left = types;
    for item in values {
        next_value(item, left, rule, walk, scope);
        left = behind_first(left);
        walk.skip(1);
    }
}

/// Goes over the name of a variable, and tries by the rule that it is of the first of the types that are left, if any is.
fn next_name(name: &IdentRef, types: &[TypeName], rule: u8, walk: &mut Walk, scope: &Scope)
    requires { walk.old.at + 1 < 4294967296 }
    ensures at { walk.new.at ≡ walk.old.at + 1 }
    ensures first { walk.new.first ≡ first_with walk.old.first (typed_name rule (scope_of scope.now) walk.old.at name.now types.now) }
{
    let place = walk.at();
    let held = variable(walk, scope, name);
    if let Some(kind) = types.first() {
        walk.demand(rule, place, fits(*kind, held));
    }
}

/// Goes over names of variables in brackets, and tries by the rule that they are of these types.
pub(crate) fn names(
    names: &[IdentRef],
    types: &[TypeName],
    rule: u8,
    walk: &mut Walk,
    scope: &Scope,
)
    requires { walk.old.at + length (names_marks 0 names.now) < 4294967296 }
    ensures at { walk.new.at ≡ walk.old.at + length (names_marks 0 names.now) }
    ensures first { walk.new.first ≡ first_with walk.old.first (names_faults (wants rule) (scope_of scope.now) (walk.old.at + 1) names.now types.now) }
{
    walk.skip(1);
    if names.is_empty() {
        walk.skip(1);
        return;
    }
    let mut left = types;
    for item in names {
        next_name(item, left, rule, walk, scope);
        left = behind_first(left);
        walk.skip(1);
    }
}
