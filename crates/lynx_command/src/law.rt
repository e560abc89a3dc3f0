//! What holds of every text.
ghost use Rattle.std.specs.Prelude.{◌≡◌, ℕ, List};
ghost use Rattle.std.specs.List.{concat};
ghost use Rattle.lynx_command.specs.Text.{lines_of};

/// The lines of a text, one behind the other, are the text.
pub fn lines_are_the_text()
    ensures { (text : List ℕ) → concat (lines_of text) ≡ text }
{}
