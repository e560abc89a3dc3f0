//! A port that looks at a letter before it puts it.
ghost use Rattle.std.specs.Prelude.{◌≡◌, ◌≢◌, ◌<◌, ◌≤◌, ℕ, [], All, IsTrue};
ghost use Rattle.kernel_net.specs.Letters.{MayBePut};
ghost use Rattle.kernel_net.specs.Ports.{AreOfOneNet, kernels_of, place_of, put_to};
ghost use Rattle.kernel_net.specs.declared.letter.Letter.TheVariants.{Marker};

use kernel_net::{Letter, Port, meet};

/// A port that puts markers to kernels with rising numbers.
#[derive(Drop)]
pub(crate) struct CheckedPort {
    pub(crate) port: Port,
    /// To the kernels from this number on it put no marker.
    unmarked: u16,
    ghost marks: { (to : ℕ) → unmarked ≤ to → All (λ l. l ≢ Marker) (put_to port to) },
}

impl CheckedPort {
    /// Of a port that put nothing.
    pub(crate) fn new(port: Port) -> CheckedPort
        requires { (to : ℕ) → put_to port to ≡ [] }
        ensures { result.port ≡ port }
    {
        CheckedPort { port, unmarked: 0 }
    }

    /// Its number.
    pub(crate) fn kernel(&self) -> u8 {
        self.port.kernel()
    }

    /// Whether this letter is put: no packet of the greatest stamp, and to one kernel no second marker.
    fn may_put(&self, to: u8, letter: &Letter) -> bool
        ensures { IsTrue result → MayBePut (put_to self.now.port to) letter.now }
    {
        match letter {
            Letter::Packet(packet) => packet.stamp < u64::MAX,
            Letter::Marker => self.unmarked <= u16::from(to),
        }
    }

    /// To the kernels from which number on no marker was put, once this letter is.
    fn unmarked_after(&self, to: u8, letter: &Letter) -> u16
        ensures kept { self.now.unmarked ≤ result }
        ensures marker { letter.now ≡ Marker → to < result }
    {
        match letter {
            Letter::Packet(_) => self.unmarked,
            Letter::Marker => self.unmarked.max(u16::from(to) + 1),
        }
    }

    /// Puts a letter. It comes back, too, where it may not be put.
    pub(crate) fn put(&mut self, to: u8, letter: Letter) -> Result<(), Letter>
        requires { to < kernels_of (place_of self.old.port) }
        ensures { place_of self.new.port ≡ place_of self.old.port }
    {
        if !self.may_put(to, &letter) {
            return Err(letter);
        }
        let unmarked = self.unmarked_after(to, &letter);
        self.port.put(to, letter)?;
        self.unmarked = unmarked;
        Ok(())
    }

    /// Gets a letter.
    pub(crate) fn get(&mut self) -> Option<(u8, Letter)>
        ensures { place_of self.new.port ≡ place_of self.old.port }
    {
        self.port.get()
    }

    /// The port meets itself.
    pub(crate) fn meet_self(&mut self) -> u32
        ensures { place_of self.new.port ≡ place_of self.old.port }
    {
        self.port.meet_self()
    }

    /// The port meets another.
    pub(crate) fn meet(&mut self, other: &mut CheckedPort) -> u32
        requires { AreOfOneNet (place_of self.old.port) (place_of other.old.port) }
        ensures own { place_of self.new.port ≡ place_of self.old.port }
        ensures other { place_of other.new.port ≡ place_of other.old.port }
    {
        meet(&mut self.port, &mut other.port)
    }
}
