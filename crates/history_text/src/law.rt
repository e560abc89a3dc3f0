//! What holds of all texts.
ghost use Rattle.std.specs.Prelude.{ℕ, List};
ghost use Rattle.charlotte_calls.specs.Setting.{IsValid};
ghost use Rattle.history_text.specs.Lines.{told_by};

/// The setting that a text tells is valid.
pub fn settings_are_valid()
    ensures { (bytes : List ℕ) → IsValid (told_by bytes).setting }
{}
