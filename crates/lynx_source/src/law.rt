//! What holds of every source.

ghost use Rattle.std.specs.Prelude.{◌≡◌, ◌≢◌, ℕ, List, Result, Ok, Err};
ghost use Rattle.std.specs.List.{AllByRecursion};
ghost use Rattle.lynx_tree.specs.Trees.{ModuleTree};
ghost use Rattle.lynx_tree.specs.Grammar.{HasTokens, kinds_of, module_marks};
ghost use Rattle.lynx_tree.specs.Faults.{IsNested};
ghost use Rattle.lynx_tree.specs.Printing.{IsPrintable, printed};
ghost use Rattle.lynx_source.specs.declared.fault.SourceFault.{SourceFault as ASourceFault};
ghost use Rattle.lynx_source.specs.declared.fault.SourceFault.TheVariants.{NoMemory};
ghost use Rattle.lynx_source.specs.Sources.{IsReadAs, IsCheckedAs};

/// A source is read as one thing at most: one tree or one fault, unless memory runs out.
pub fn one_reading()
    ensures { (source : List ℕ) (a b : Result ModuleTree ASourceFault) → IsReadAs source a → a ≢ Err NoMemory → IsReadAs source b → b ≢ Err NoMemory → a ≡ b }
{}

/// A source is checked as one thing at most: one tree or one fault, unless memory runs out.
pub fn one_check()
    ensures { (source : List ℕ) (a b : Result ModuleTree ASourceFault) → IsCheckedAs source a → a ≢ Err NoMemory → IsCheckedAs source b → b ≢ Err NoMemory → a ≡ b }
{}

/// The text that is printed of a module is read as that module, where it is nested no deeper than may be.
pub fn printed_is_read()
    ensures { (m : ModuleTree) → HasTokens m → AllByRecursion IsPrintable (kinds_of m) → IsNested (module_marks m) → IsReadAs (printed (kinds_of m)) (Ok m) }
{}
