//! Texts of code, which stand apart from their instructions.

ghost use Rattle.std.specs.Prelude.{◌≡◌, ◌≤◌, length, IfOk};

use lynx_lexer::{NoMemory, TextLit};
use std::alloc::Global;
use std::marker::Model;

/// The bytes of a text value, at most 64. They stand elsewhere, so an instruction without a text takes no room for one.
#[derive(Debug, Drop)]
pub struct KeptText {
    inside: Box<TextLit>,
}

impl Model for KeptText {
    ghost use Rattle.std.specs.Prelude.{ℕ, List};

    ghost Value = { List ℕ };

    ghost view = { λ t. t.inside.value };
}

impl KeptText {
    /// The same text.
    pub fn of(alloc: Global, text: TextLit) -> Result<KeptText, NoMemory>
        ensures { IfOk result (λ kept. kept ≡ text) }
    {
        let inside = Box::new(alloc, text)?;
        Ok(KeptText { inside })
    }

    /// The bytes.
    pub fn as_slice(&self) -> &[u8]
        ensures value { result.now ≡ self.now }
        ensures fits { length result.now ≤ 64 }
    {
        self.inside.as_slice()
    }

    /// A text that is equal.
    pub fn copy(&self, alloc: Global) -> Result<KeptText, NoMemory>
        ensures { IfOk result (λ kept. kept ≡ self.now) }
    {
        KeptText::of(alloc, self.inside.copy())
    }
}
