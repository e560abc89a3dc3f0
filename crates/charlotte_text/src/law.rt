ghost use Rattle.std.specs.Prelude.{◌≡◌, ◌<◌, ◌^◌, ℕ, List};
ghost use Rattle.charlotte_calls.specs.declared.names.EndId.{EndId};
ghost use Rattle.charlotte_calls.specs.declared.calls.Call.{Call};
ghost use Rattle.charlotte_text.specs.Spelling.{number_text, end_text, bytes_text, call_text, AreBytes, IsEnd, IsCall};

/// Each text spells at most one string of bytes.
pub fn one_string_of_bytes()
    ensures { (a b : List ℕ) → AreBytes a → AreBytes b → bytes_text a ≡ bytes_text b → a ≡ b }
{}

/// Each word names at most one end.
pub fn one_end()
    ensures { (a b : EndId) → IsEnd a → IsEnd b → end_text a ≡ end_text b → a ≡ b }
{}

/// Each line spells at most one call.
pub fn one_call()
    ensures { (version : ℕ) (a b : Call) → IsCall version a → IsCall version b → call_text a ≡ call_text b → a ≡ b }
{}
