//! What relations demand of their operands.

ghost use Rattle.std.specs.Prelude.{◌≡◌, ◌++◌, ◌&&◌, not};
ghost use Rattle.typing_rules.specs.Rules.{operand_is_int};
ghost use Rattle.typing_rules.specs.Types.{agree, is_row_or_link};
ghost use Rattle.typing_rules.specs.Expressions.{relation_faults};
ghost use Rattle.typing_rules.specs.Progress.{first_with, is_clean};

use crate::held::{Held, agree, fits, is_row_or_link};
use crate::rule::{OPERAND_IS_INT, OPERANDS_COMPARE};
use crate::walk::Walk;
use lynx_lexer::Sign;
use lynx_tree::TypeName;

/// Whether two values are of one type that `=` and `<>` compare.
fn are_compared(first: Held, second: Held) -> bool
    ensures { result ≡ (agree first second && not (is_row_or_link first) && not (is_row_or_link second)) }
{
    agree(first, second) && !is_row_or_link(first) && !is_row_or_link(second)
}

/// Tries that two values are ints, and tells whether they are.
fn ints(walk: &mut Walk, first_at: u32, first: Held, second_at: u32, second: Held) -> bool
    ensures at { walk.new.at ≡ walk.old.at }
    ensures first { walk.new.first ≡ first_with walk.old.first (operand_is_int first_at first ++ operand_is_int second_at second) }
    ensures clean { result ≡ is_clean (operand_is_int first_at first ++ operand_is_int second_at second) }
{
    let first = walk.demand(OPERAND_IS_INT, first_at, fits(TypeName::Int, first));
    let second = walk.demand(OPERAND_IS_INT, second_at, fits(TypeName::Int, second));
    first && second
}

/// Tries what a relation demands of its operands, and tells whether it holds.
pub fn compare(
    walk: &mut Walk,
    sign: Sign,
    first_at: u32,
    first: Held,
    second_at: u32,
    second: Held,
) -> bool
    ensures at { walk.new.at ≡ walk.old.at }
    ensures first { walk.new.first ≡ first_with walk.old.first (relation_faults sign first_at first second_at second) }
    ensures clean { result ≡ is_clean (relation_faults sign first_at first second_at second) }
{
    match sign {
        Sign::Equal | Sign::NotEqual => {
            walk.demand(OPERANDS_COMPARE, second_at, are_compared(first, second))
        }
        _ => ints(walk, first_at, first, second_at, second),
    }
}
