//! What holds of every source.

ghost use Rattle.std.specs.Prelude.{◌≡◌, ℕ, List};
ghost use Rattle.lynx_lexer.specs.declared.token.Token.{Token};
ghost use Rattle.lynx_lexer.specs.Source.{Spell};

/// At most one list of tokens spells a source.
pub fn one_list()
    ensures { (source : List ℕ) (a b : List Token) → Spell a source → Spell b source → a ≡ b }
{}
