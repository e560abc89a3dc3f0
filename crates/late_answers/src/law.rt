ghost use Rattle.std.specs.Prelude.{◌≡◌, ℕ, ◌≤◌, ◌^◌, List, length};
ghost use Rattle.charlotte_calls.specs.Setting.{IsValid};
ghost use Rattle.charlotte_calls.specs.declared.calls.Answer.TheVariants.{Refused};
ghost use Rattle.charlotte_calls.specs.declared.calls.Call.TheVariants.{Cancel};
ghost use Rattle.charlotte_calls.specs.declared.calls.Cause.TheVariants.{Late};
ghost use Rattle.charlotte_calls.specs.declared.names.EndId.{EndId};
ghost use Rattle.charlotte_calls.specs.declared.names.Pid.{Pid};
ghost use Rattle.charlotte_calls.specs.declared.names.Way.{Way};
ghost use Rattle.charlotte_packets.specs.declared.picture.Picture.{Picture};
ghost use Rattle.charlotte_calls.specs.declared.setting.Setting.{Setting};
ghost use Rattle.kernel_step.specs.Start.{start_kernel};
ghost use Rattle.kernel_entries.specs.Order.{AreInOrder, of_kernel};
ghost use Rattle.kernel_entries.specs.declared.entry.Placed.{Placed};
ghost use Rattle.late_answers.specs.Late.{IsLateByMatch};
ghost use Rattle.local_runs.specs.Local.{FitTogether, LocalEvent, entries_of};
ghost use Rattle.told_answers.specs.Told.{Answered, heard};

/// A Cancel is answered Late only where its message was already matched: the entries of kernels that run beside each other are one lawful
/// run of the link service, and in that stands the step by which the Cancel was answered so, which is right there.
pub fn late_is_by_match()
    ensures { (s : Setting) (made : ℕ → List LocalEvent) (left : ℕ → ℕ → List Picture) (merged : List Placed)
        (k : ℕ) (p : Pid) (e : EndId) (w : Way) → IsValid s → FitTogether s made left → AreInOrder merged
        → ((j : ℕ) → of_kernel j merged ≡ entries_of (start_kernel s j) (made j)) → length merged ≤ 2 ^ 31
        → heard p (of_kernel k merged) ≡ Answered (Cancel e w) (Refused Late) → IsLateByMatch s merged p e w }
{}
