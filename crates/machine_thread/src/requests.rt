//! The open requests of a thread.

ghost use Rattle.std.specs.Prelude.{◌≡◌, ◌∷◌, length, IfOk, OnOk};
ghost use Rattle.lynx_meaning.specs.Code.{cut};
ghost use Rattle.code_shapes.specs.Shapes.{opened_by};

use lynx_lexer::NoMemory;
use std::alloc::Global;
use std::marker::Model;

/// The operations of the open requests, by their numbers. Contracts see the innermost one first.
#[derive(Debug, Drop)]
pub(crate) struct Requests {
    ops: Vec<u32>,
}

impl Model for Requests {
    ghost use Rattle.std.specs.Prelude.{ℕ, List, reverse};

    ghost Value = { List ℕ };

    ghost view = { λ r. reverse r.ops.items };
}

impl Requests {
    /// Those that are open as a thread begins: one of the operation that its part serves. Takes no memory where it serves none.
    pub(crate) fn opened_by(alloc: Global, op: Option<u32>) -> Result<Requests, NoMemory>
        ensures { IfOk result (λ requests. requests ≡ opened_by op) }
    {
        let mut ops = Vec::new(alloc);
        if let Some(op) = op {
            ops.push(op)?;
        }
        Ok(Requests { ops })
    }

    /// How many are open.
    pub(crate) fn len(&self) -> usize
        ensures { result ≡ length self.now }
    {
        self.ops.len()
    }

    /// One more, which is the innermost.
    pub(crate) fn push(&mut self, op: u32) -> Result<(), NoMemory>
        ensures { OnOk result (self.new ≡ op ∷ self.old) }
    {
        self.ops.push(op)?;
        Ok(())
    }

    /// Only the outermost stay, so many.
    #[tactic(auto, using(crate::proofs::Cutting::truncated))]
    pub(crate) fn cut(&mut self, depth: usize)
        ensures { self.new ≡ cut depth self.old }
    {
        self.ops.truncate(depth);
    }
}
