//! Types of expressions.

ghost use Rattle.std.specs.Prelude.{◌≡◌, ◌+◌, ◌<◌, ◌&&◌, length, Some, None, if◌then◌else◌};
ghost use Rattle.lynx_tree.specs.Grammar.{sum_marks, term_marks};
ghost use Rattle.lynx_tree.specs.Trees.{expr_tree, expr_list, sum_list, term_list, Or, Member};
ghost use Rattle.typing_rules.specs.Expressions.{expr_size, shown_type, held, expr_faults, sum_faults, term_faults, value_faults};
ghost use Rattle.typing_rules.specs.Rules.{wants, operand_is_int};
ghost use Rattle.typing_rules.specs.Meanings.{scope_of};
ghost use Rattle.typing_rules.specs.Progress.{first_with, is_clean};

use crate::compare::compare;
use crate::held::{Held, fits, may_be_row};
use crate::rule::{MEMBER_IS_OF_ROW, OPERAND_IS_BOOL, OPERAND_IS_INT};
use crate::scope::Scope;
use crate::variables::variable;
use crate::walk::Walk;
use lynx_lexer::{IdentRef, Sign};
use lynx_tree::{Expr, TermSign, TypeName};

/// Whether no rule fails in two parts.
fn both(first: bool, second: bool) -> bool
    ensures { result ≡ (first && second) }
{
    first && second
}

/// The type that an expression shows, where no rule fails inside it.
fn shown(clean: bool, kind: TypeName) -> Held
    ensures { result ≡ (if clean then Some kind else None) }
{
    if clean { Some(kind) } else { None }
}

/// Goes over a value of one token.
fn literal(walk: &mut Walk, kind: TypeName) -> Held
    requires fits { walk.old.at + 1 < 4294967296 }
    ensures at { walk.new.at ≡ walk.old.at + 1 }
    ensures first { walk.new.first ≡ walk.old.first }
    ensures held { result ≡ Some kind }
{
    walk.skip(1);
    Some(kind)
}

/// Goes over a value of which a rule wants that it is of a type, and tells whether no rule fails in it.
#[cycle(type_expression)]
pub fn operand(walk: &mut Walk, scope: &Scope, rule: u8, wanted: TypeName, value: &Expr) -> bool
    requires fits { walk.old.at + expr_size (expr_tree value.now) < 4294967296 }
    ensures at { walk.new.at ≡ walk.old.at + expr_size (expr_tree value.now) }
    ensures first { walk.new.first ≡ first_with walk.old.first (value_faults (wants rule wanted) (scope_of scope.now) walk.old.at (expr_tree value.now)) }
    ensures clean { result ≡ is_clean (value_faults (wants rule wanted) (scope_of scope.now) walk.old.at (expr_tree value.now)) }
{
    let place = walk.at();
    let held = expression(walk, scope, value);
    let holds = walk.demand(rule, place, fits(wanted, held));
    both(held.is_some(), holds)
}

/// Goes over a member of a row, and tells whether no rule fails in it.
#[cycle(type_expression)]
pub fn member(walk: &mut Walk, scope: &Scope, name: &IdentRef, index: &Expr) -> bool
    requires fits { walk.old.at + expr_size (Member name.now (expr_tree index.now)) < 4294967296 }
    ensures at { walk.new.at ≡ walk.old.at + expr_size (Member name.now (expr_tree index.now)) }
    ensures first { walk.new.first ≡ first_with walk.old.first (expr_faults (scope_of scope.now) walk.old.at (Member name.now (expr_tree index.now))) }
    ensures clean { result ≡ is_clean (expr_faults (scope_of scope.now) walk.old.at (Member name.now (expr_tree index.now))) }
{
    let place = walk.at();
    let held = variable(walk, scope, name);
    let is_row = walk.demand(MEMBER_IS_OF_ROW, place, may_be_row(held));
    walk.skip(1);
    let is_int = operand(walk, scope, MEMBER_IS_OF_ROW, TypeName::Int, index);
    walk.skip(1);
    both(both(held.is_some(), is_row), is_int)
}

/// Goes over the operands of `and` or `or`, and tells whether no rule fails in them.
#[cycle(type_expression)]
fn bools(walk: &mut Walk, scope: &Scope, members: &[Expr]) -> bool
    requires fits { walk.old.at + expr_size (Or (expr_list members.now)) < 4294967296 }
    ensures at { walk.new.at ≡ walk.old.at + expr_size (Or (expr_list members.now)) }
    ensures first { walk.new.first ≡ first_with walk.old.first (expr_faults (scope_of scope.now) walk.old.at (Or (expr_list members.now))) }
    ensures clean { result ≡ is_clean (expr_faults (scope_of scope.now) walk.old.at (Or (expr_list members.now))) }
{
    let Some((first, rest)) = members.split_first() else {
        return true;
    };
    let mut clean = operand(walk, scope, OPERAND_IS_BOOL, TypeName::Bool, first);
    for member in rest {
        walk.skip(1);
        let next = operand(walk, scope, OPERAND_IS_BOOL, TypeName::Bool, member);
        clean = both(clean, next);
    }
    clean
}

/// Goes over an operator and the number behind it, and tells whether no rule fails in it and in what stands before.
#[cycle(type_expression)]
fn number_behind(walk: &mut Walk, scope: &Scope, clean: bool, member: &Expr) -> bool
    requires fits { walk.old.at + 1 + expr_size (expr_tree member.now) < 4294967296 }
    ensures at { walk.new.at ≡ walk.old.at + 1 + expr_size (expr_tree member.now) }
    ensures first { walk.new.first ≡ first_with walk.old.first (value_faults operand_is_int (scope_of scope.now) (walk.old.at + 1) (expr_tree member.now)) }
    ensures clean { result ≡ (clean && is_clean (value_faults operand_is_int (scope_of scope.now) (walk.old.at + 1) (expr_tree member.now))) }
{
    walk.skip(1);
    let next = operand(walk, scope, OPERAND_IS_INT, TypeName::Int, member);
    both(clean, next)
}

/// Goes over the members of a sum behind the first, and tells whether no rule fails in them.
#[cycle(type_expression)]
fn sums(walk: &mut Walk, scope: &Scope, members: &[(Sign, Expr)]) -> bool
    requires fits { walk.old.at + length (sum_marks 0 (sum_list members.now)) < 4294967296 }
    ensures at { walk.new.at ≡ walk.old.at + length (sum_marks 0 (sum_list members.now)) }
    ensures first { walk.new.first ≡ first_with walk.old.first (sum_faults (scope_of scope.now) walk.old.at (sum_list members.now)) }
    ensures clean { result ≡ is_clean (sum_faults (scope_of scope.now) walk.old.at (sum_list members.now)) }
{
    let mut clean = true;
    for member in members {
        walk.skip(1);
        let next = operand(walk, scope, OPERAND_IS_INT, TypeName::Int, &member.1);
        clean = both(clean, next);
    }
    clean
}

/// Goes over the members of a term behind the first, and tells whether no rule fails in them.
#[cycle(type_expression)]
fn terms(walk: &mut Walk, scope: &Scope, members: &[(TermSign, Expr)]) -> bool
    requires fits { walk.old.at + length (term_marks 0 (term_list members.now)) < 4294967296 }
    ensures at { walk.new.at ≡ walk.old.at + length (term_marks 0 (term_list members.now)) }
    ensures first { walk.new.first ≡ first_with walk.old.first (term_faults (scope_of scope.now) walk.old.at (term_list members.now)) }
    ensures clean { result ≡ is_clean (term_faults (scope_of scope.now) walk.old.at (term_list members.now)) }
{
    let mut clean = true;
    for member in members {
        walk.skip(1);
        let next = operand(walk, scope, OPERAND_IS_INT, TypeName::Int, &member.1);
        clean = both(clean, next);
    }
    clean
}

/// Goes over an expression, and answers its type. None where a rule fails inside it.
#[cycle(type_expression)]
pub fn expression(walk: &mut Walk, scope: &Scope, value: &Expr) -> Held
    requires fits { walk.old.at + expr_size (expr_tree value.now) < 4294967296 }
    ensures at { walk.new.at ≡ walk.old.at + expr_size (expr_tree value.now) }
    ensures first { walk.new.first ≡ first_with walk.old.first (expr_faults (scope_of scope.now) walk.old.at (expr_tree value.now)) }
    ensures held { result ≡ held (expr_faults (scope_of scope.now) walk.old.at (expr_tree value.now)) (shown_type (scope_of scope.now) (expr_tree value.now)) }
{
    match value {
        Expr::Or(members) => shown(bools(walk, scope, members), TypeName::Bool),
        Expr::And(members) => shown(bools(walk, scope, members), TypeName::Bool),
        Expr::Relation {
            sign,
            first,
            second,
        } => {
            let first_at = walk.at();
            let first = expression(walk, scope, first);
            walk.skip(1);
            let second_at = walk.at();
            let second = expression(walk, scope, second);
            let holds = compare(walk, *sign, first_at, first, second_at, second);
            let clean = both(first.is_some(), second.is_some());
            shown(both(clean, holds), TypeName::Bool)
        }
        Expr::Sum { first, second, .. } => {
            let clean = operand(walk, scope, OPERAND_IS_INT, TypeName::Int, first);
            let both_clean = number_behind(walk, scope, clean, second);
            shown(both_clean, TypeName::Int)
        }
        Expr::Sums { first, rest } => {
            let clean = operand(walk, scope, OPERAND_IS_INT, TypeName::Int, first);
            let others = sums(walk, scope, rest);
            shown(both(clean, others), TypeName::Int)
        }
        Expr::Term { first, second, .. } => {
            let clean = operand(walk, scope, OPERAND_IS_INT, TypeName::Int, first);
            let both_clean = number_behind(walk, scope, clean, second);
            shown(both_clean, TypeName::Int)
        }
        Expr::Terms { first, rest } => {
            let clean = operand(walk, scope, OPERAND_IS_INT, TypeName::Int, first);
            let others = terms(walk, scope, rest);
            shown(both(clean, others), TypeName::Int)
        }
        Expr::Minus(inner) => {
            walk.skip(1);
            let clean = operand(walk, scope, OPERAND_IS_INT, TypeName::Int, inner);
            shown(clean, TypeName::Int)
        }
        Expr::Not(inner) => {
            walk.skip(1);
            let clean = operand(walk, scope, OPERAND_IS_BOOL, TypeName::Bool, inner);
            shown(clean, TypeName::Bool)
        }
        Expr::Number(_) => literal(walk, TypeName::Int),
        Expr::Text(_) => literal(walk, TypeName::Text),
        Expr::True => literal(walk, TypeName::Bool),
        Expr::False => literal(walk, TypeName::Bool),
        Expr::Name(name) => variable(walk, scope, name),
        Expr::Member { name, index } => shown(member(walk, scope, name, index), TypeName::Int),
        Expr::Bracket(inner) => {
            walk.skip(1);
            let held = expression(walk, scope, inner);
            walk.skip(1);
            held
        }
    }
}
