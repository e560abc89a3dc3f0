ghost use Rattle.std.specs.Prelude.{◌≡◌, ◌++◌, ◌∷◌, [], List};
ghost use Rattle.kernel_entries.specs.declared.entry.Entry.{Entry};

use written_journal::WrittenJournal;

/// What is told of each event of a node. Its meaning is which entries it has seen, and what it was made with.
pub trait Watch {
    /// It has seen these entries.
    ghost HasSeen: { Self → List Entry → Type 0 };

    /// What such watches are made with.
    ghost Made: { Type 0 };

    /// What it was made with, which no event changes.
    ghost made: { Self → Self.Made };

    /// Is told that an event happened, whose entry is the last of the node's journal.
    fn event(&mut self, journal: &WrittenJournal)
        requires { (before : List Entry) × (e : Entry) × (journal.now.entries ≡ before ++ e ∷ []) × HasSeen self.old before }
        ensures seen { HasSeen self.new journal.now.entries }
        ensures made { made self.new ≡ made self.old };
}

/// A watch that does nothing.
#[derive(Clone, Copy, Debug)]
pub struct NoWatch;

impl Watch for NoWatch {
    ghost HasSeen = { λ _ _. Unit {0} };

    ghost Made = { Unit {0} };

    ghost made = { λ _. record {} };

    fn event(&mut self, _journal: &WrittenJournal) {}
}
