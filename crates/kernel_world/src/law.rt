ghost use Rattle.std.specs.Prelude.{◌≡◌, ℕ};
ghost use Rattle.kernel_world.specs.World.{World, Event, happens, packets_after};

/// After an event each list of packets is as before, without its first where that was taken, and then what was sent there.
pub fn packets_after_an_event()
    ensures { (w : World) (e : Event) (from to : ℕ) → (happens w e).packets from to ≡ packets_after w e from to }
{}
