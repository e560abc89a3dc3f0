//! The ends that requests and replies carry, in each run of LYNX processes; and all claims on such a run.

ghost use Rattle.std.specs.Prelude.{ℕ, ◌≤◌, ◌^◌, List, All, length};
ghost use Rattle.std.specs.List.{AllByRecursion};
ghost use Rattle.charlotte_calls.specs.Setting.{IsValid};
ghost use Rattle.charlotte_calls.specs.declared.setting.Setting.{Setting as ASetting};
ghost use Rattle.kernel_entries.specs.Ranges.{IsPlacedInRange};
ghost use Rattle.kernel_entries.specs.declared.entry.Placed.{Placed as APlaced};
ghost use Rattle.lost_ends.specs.Record.{IsLawfulRecord};
ghost use Rattle.lost_ends.specs.Acting.{Program};
ghost use Rattle.lost_ends.specs.Claims.{AreCarried, AreWith};
ghost use Rattle.lost_ends.specs.Acted.{AreActed, AreReplayed, deeds_of};
ghost use Rattle.lost_ends.specs.Claimed.{ActsAreLinked, AreWired, HasLinks, states_of};

/// Who accepts a request, or goes on with a reply, owns each living end among its values.
pub fn ends_of_a_run_arrive()
    ensures { (s : ASetting) (programs : ℕ → Program) (merged : List APlaced) (steps : ℕ → ℕ) → IsValid s → All IsPlacedInRange merged → length merged ≤ 2 ^ 28
        → AreWired s programs → (lawful : IsLawfulRecord s merged) → (acted : AreActed s programs merged steps)
        → AllByRecursion (AreWith (states_of s merged lawful)) (deeds_of s programs merged steps acted) }
{}

/// And from when a request was issued until it is accepted, each end that it carries is with the process that connects, with the owner of the opposite end, or in
/// a message between the two, while both ends of the link live and that process has not ended.
pub fn ends_of_a_run_are_carried()
    ensures { (s : ASetting) (programs : ℕ → Program) (merged : List APlaced) (steps : ℕ → ℕ) → IsValid s → All IsPlacedInRange merged → length merged ≤ 2 ^ 28
        → AreWired s programs → (lawful : IsLawfulRecord s merged) → (acted : AreActed s programs merged steps)
        → AreCarried (states_of s merged lawful) (length merged) (deeds_of s programs merged steps acted) }
{}

/// So both claims hold in each replay of all processes over the entries of a run: requests and replies are in order, and their ends are where they should be.
pub fn each_run_is_linked()
    ensures { ActsAreLinked }
{}

/// Where each process of a run replays a LYNX program, there is such a replay of all of them, and its deeds are so.
pub fn a_run_has_links()
    ensures { (s : ASetting) (programs : ℕ → Program) (merged : List APlaced) (steps : ℕ → ℕ) (lawful : IsLawfulRecord s merged) → IsValid s → All IsPlacedInRange merged
        → length merged ≤ 2 ^ 28 → AreWired s programs → AreReplayed s programs merged steps → HasLinks s programs merged steps lawful }
{}
