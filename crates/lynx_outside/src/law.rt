//! What puts leave in a sink that tells its bytes.

ghost use Rattle.std.specs.Prelude.{◌≡◌, ◌∷◌, [], ◌++◌, ℕ, List, Option, map};
ghost use Rattle.std.specs.List.{concat};
ghost use Rattle.std.specs.Io.KnownBytes.{append_known};
ghost use Rattle.lynx_outside.specs.Sink.{taken, failed, Hold, PutsPart, counted_puts};

/// Pieces that were all taken are held whole, and no fault was counted.
pub fn whole_puts()
    ensures held { (old new : Option (List ℕ)) (pieces : List (List ℕ)) → Hold old new (map taken pieces) → new ≡ append_known old (concat pieces) }
    ensures counted { (n : ℕ) (pieces : List (List ℕ)) → counted_puts n (map taken pieces) ≡ n }
{}

/// Pieces that were all taken, and then one that was not: a prefix of them all is held.
pub fn part_put()
    ensures { (old new : Option (List ℕ)) (pieces : List (List ℕ)) (last : List ℕ)
        → Hold old new (map taken pieces ++ failed last ∷ []) → PutsPart old new (concat pieces ++ last) }
{}
