ghost use Rattle.std.specs.Prelude.{◌≡◌, ℕ, List};
ghost use Rattle.lynx_plan.specs.declared.script.Script.{Script};
ghost use Rattle.lynx_plan.specs.ScriptText.{IsScriptText};

/// Each text spells at most one script.
pub fn one_script()
    ensures { (bytes : List ℕ) (a b : Script) → IsScriptText bytes a → IsScriptText bytes b → a ≡ b }
{}
