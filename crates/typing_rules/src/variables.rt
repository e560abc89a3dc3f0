//! Names of variables.

ghost use Rattle.std.specs.Prelude.{◌≡◌, ◌+◌, ◌<◌, ◌++◌};
ghost use Rattle.typing_rules.specs.Names.{type_of_variable};
ghost use Rattle.typing_rules.specs.Rules.{is_variable};
ghost use Rattle.typing_rules.specs.Statements.{link_faults};
ghost use Rattle.typing_rules.specs.Meanings.{scope_of};
ghost use Rattle.typing_rules.specs.Progress.{first_with};

use crate::held::{Held, fits};
use crate::names::type_of_variable;
use crate::rule::{NAME_IS_OF_KIND, VARIABLE_IS_LINK};
use crate::scope::Scope;
use crate::walk::Walk;
use lynx_lexer::IdentRef;
use lynx_tree::TypeName;

/// Goes over the name of a variable, and answers its type. None where it is none of a variable.
pub fn variable(walk: &mut Walk, scope: &Scope, name: &IdentRef) -> Held
    requires { walk.old.at + 1 < 4294967296 }
    ensures at { walk.new.at ≡ walk.old.at + 1 }
    ensures first { walk.new.first ≡ first_with walk.old.first (is_variable walk.old.at (scope_of scope.now name.now)) }
    ensures held { result ≡ type_of_variable (scope_of scope.now name.now) }
{
    let held = type_of_variable(scope.look(name));
    walk.demand(NAME_IS_OF_KIND, walk.at(), held.is_some());
    walk.skip(1);
    held
}

/// Goes over the name of a variable that stands for a link.
pub fn link(walk: &mut Walk, scope: &Scope, name: &IdentRef)
    requires { walk.old.at + 1 < 4294967296 }
    ensures at { walk.new.at ≡ walk.old.at + 1 }
    ensures first { walk.new.first ≡ first_with walk.old.first (link_faults (scope_of scope.now) walk.old.at name.now) }
{
    let place = walk.at();
    let held = variable(walk, scope, name);
    walk.demand(VARIABLE_IS_LINK, place, fits(TypeName::Link, held));
}
