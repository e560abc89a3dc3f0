//! What holds of every source.

ghost use Rattle.std.specs.Prelude.{◌≡◌, ◌≢◌, ℕ, List, Result, Err};
ghost use Rattle.lynx_tree.specs.Trees.{ModuleTree};
ghost use Rattle.lynx_source.specs.declared.fault.SourceFault.{SourceFault as ASourceFault};
ghost use Rattle.lynx_source.specs.declared.fault.SourceFault.TheVariants.{NoMemory};
ghost use Rattle.compiler_source.specs.Compiled.{IsCompiledAs};

/// A source is compiled as one thing at most: one tree or one fault, unless memory runs out. So each fault comes exactly where it should.
pub fn one_compilation()
    ensures { (source : List ℕ) (a b : Result ModuleTree ASourceFault) → IsCompiledAs source a → a ≢ Err NoMemory → IsCompiledAs source b → b ≢ Err NoMemory → a ≡ b }
{}
