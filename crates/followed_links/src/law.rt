//! Requests and replies in each run of LYNX processes.

ghost use Rattle.std.specs.Prelude.{ℕ, ◌≤◌, ◌^◌, List, All, length};
ghost use Rattle.charlotte_calls.specs.Setting.{IsValid};
ghost use Rattle.charlotte_calls.specs.declared.names.EndId.{EndId};
ghost use Rattle.charlotte_calls.specs.declared.setting.Setting.{Setting as ASetting};
ghost use Rattle.kernel_entries.specs.Ranges.{IsPlacedInRange};
ghost use Rattle.kernel_entries.specs.declared.entry.Placed.{Placed as APlaced};
ghost use Rattle.run_process_steps.specs.Record.{IsLawfulRecord};
ghost use Rattle.run_process_steps.specs.Acting.{Program};
ghost use Rattle.run_process_steps.specs.Claims.{AreInOrder};
ghost use Rattle.run_process_steps.specs.Acted.{AreActed, deeds_of};
ghost use Rattle.run_process_steps.specs.Claimed.{AreWired};
ghost use Rattle.run_process_steps.specs.Followed.{IsFollowed};

/// In a run of kernels whose processes are LYNX programs, each with ends that the setting wires to it, the deeds on each end and on its opposite are those of
/// events at a link by itself, whoever owned them.
pub fn links_of_a_run_are_followed()
    ensures { (s : ASetting) (programs : ℕ → Program) (merged : List APlaced) (steps : ℕ → ℕ) → IsValid s → All IsPlacedInRange merged → length merged ≤ 2 ^ 28
        → AreWired s programs → IsLawfulRecord s merged → (acted : AreActed s programs merged steps) → (x : EndId)
        → IsFollowed s.version x (deeds_of s programs merged steps acted) }
{}

/// So requests are accepted at most once and in the order in which they were issued, with equal values and ends, and each connect that goes on has the reply to
/// its own request, however kernels and packets interleave and both ends of a link move.
pub fn requests_of_a_run_are_in_order()
    ensures { (s : ASetting) (programs : ℕ → Program) (merged : List APlaced) (steps : ℕ → ℕ) → IsValid s → All IsPlacedInRange merged → length merged ≤ 2 ^ 28
        → AreWired s programs → IsLawfulRecord s merged → (acted : AreActed s programs merged steps) → AreInOrder (deeds_of s programs merged steps acted) }
{}
