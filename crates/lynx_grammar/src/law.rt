//! What holds of every list of tokens.

ghost use Rattle.std.specs.Prelude.{◌≡◌, List};
ghost use Rattle.lynx_lexer.specs.declared.token.Kind.{Kind};
ghost use Rattle.lynx_tree.specs.Grammar.{IsModule};
ghost use Rattle.lynx_tree.specs.Trees.{ModuleTree};

/// A list of tokens has at most one tree.
pub fn one_tree()
    ensures { (tokens : List Kind) (a b : ModuleTree) → IsModule a tokens → IsModule b tokens → a ≡ b }
{}
