ghost use Rattle.std.specs.Prelude.{◌≡◌, ℕ, ◌≤◌, ◌^◌, List, length};
ghost use Rattle.charlotte_calls.specs.Setting.{IsValid};
ghost use Rattle.charlotte_packets.specs.declared.picture.Picture.{Picture};
ghost use Rattle.charlotte_calls.specs.declared.setting.Setting.{Setting};
ghost use Rattle.kernel_step.specs.Start.{start_kernel};
ghost use Rattle.kernel_entries.specs.Order.{AreInOrder, of_kernel};
ghost use Rattle.kernel_world.specs.Run.{IsRun};
ghost use Rattle.kernel_world.specs.World.{Event};
ghost use Rattle.kernel_entries.specs.declared.entry.Placed.{Placed};
ghost use Rattle.local_runs.specs.Local.{LocalEvent, AreLocalRuns, FitTogether, IsOneRun, entries_of};
ghost use Rattle.theorem.specs.Record.{IsLawfulRecord};

/// Kernels that run beside each other make one run: where what each took of another is the beginning of what this one sent to it, the
/// entries of all, in the order of a merge, are those of one run of the world. A packet has a stamp that its taking is later than, so what
/// stands before an entry has sent the packet that it takes (Lamport, 1978).
pub fn local_runs_are_one_run()
    ensures { (s : Setting) (made : ℕ → List LocalEvent) (left : ℕ → ℕ → List Picture) (merged : List Placed) → FitTogether s made left → AreInOrder merged
        → ((k : ℕ) → of_kernel k merged ≡ entries_of (start_kernel s k) (made k)) → length merged ≤ 2 ^ 31 → IsOneRun s made left merged }
{}

/// And so they are one lawful run of the link service.
pub fn local_runs_are_lawful()
    ensures { (s : Setting) (made : ℕ → List LocalEvent) (left : ℕ → ℕ → List Picture) (merged : List Placed) → IsValid s → FitTogether s made left → AreInOrder merged
        → ((k : ℕ) → of_kernel k merged ≡ entries_of (start_kernel s k) (made k)) → length merged ≤ 2 ^ 31 → IsLawfulRecord s merged }
{}

/// Each run of the world of a valid setting is so: the events of its kernels are local runs that fit together.
pub fn run_is_local_runs()
    ensures { (s : Setting) (es : List Event) → IsValid s → IsRun s es → AreLocalRuns s es }
{}
