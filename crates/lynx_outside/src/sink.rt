//! Sinks that take bytes in order.
ghost use Rattle.std.specs.Prelude.{◌≡◌, ◌∷◌, [], ◌++◌};
ghost use Rattle.lynx_outside.specs.Sink.{Stream, put_of, Holds, counted_put};

/// A sink did not take all the bytes, and counts a fault more.
#[derive(Clone, Copy, Debug, PartialEq, Eq)]
pub struct Failed;

/// What takes bytes in order. Its meaning is the bytes that it has taken, if it tells them, its count of faults, which
/// never falls, and its log, which takes no memory.
pub trait Sink {
    /// The bytes that the sink has taken, where it tells them; how many puts have failed, up to the greatest u64; each
    /// put so far, in order.
    ghost state: { Self → Stream };

    /// Appends the bytes. A put that fails may have appended the first of them.
    fn put(&mut self, bytes: &[u8]) -> Result<(), Failed>
        ensures appended { Holds (state self.old).held (state self.new).held (put_of bytes.now result) }
        ensures counted { (state self.new).faults ≡ counted_put (state self.old).faults (put_of bytes.now result) }
        ensures logged { (state self.new).log ≡ (state self.old).log ++ put_of bytes.now result ∷ [] };
}
