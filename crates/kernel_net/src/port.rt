ghost use Rattle.std.specs.Prelude.{◌≡◌, ◌+◌, ◌<◌, ◌≤◌, ℕ, [], IfSome, IfNone, IsOk, IsSome, IsTrue, IsFalse, OnOk, IfErr, length, slice_index_or};
ghost use Rattle.kernel_net.specs.Letters.{MayBePut};
ghost use Rattle.kernel_net.specs.Rings.{Inlet};
ghost use Rattle.kernel_net.specs.Ports.{place_of, kernels_of, HasPut, HasFound, GetsOne, HasGot, HasLooked, LooksOneWay, IsJoined, AreOfOneNet, AreAllThere, FindsFirst, put_to, there_of, places_to, known_from};

use crate::Letter;
use crate::ring::{Getter, Putter};
use std::marker::Model;

/// A kernel's place in the net. It can move to the thread of its kernel.
///
/// Contracts see its number, and of each ring what was put or got and what is known of it.
#[derive(Drop)]
pub struct Port {
    pub(crate) kernel: u8,
    /// The rings to the kernels, by their numbers.
    pub(crate) out: Vec<Putter>,
    /// The rings from the kernels, by their numbers.
    pub(crate) into: Vec<Getter>,
}

impl Model for Port {
    ghost use Rattle.kernel_net.specs.Ports.{PortView, IsPlace, place_of};

    ghost Value = { PortView };

    ghost view = { λ p. record { kernel = p.kernel; out = p.out.items; into = p.into.items } };

    ghost invariant = { λ p. IsPlace (place_of (record { kernel = p.kernel; out = p.out.items; into = p.into.items })) };
}

impl Port {
    /// Its place in the list that `Net::make` gave.
    pub fn kernel(&self) -> u8
        ensures number { result ≡ self.now.kernel }
        ensures own { result < kernels_of (place_of self.now) }
    {
        self.kernel
    }

    /// How many kernels the net has.
    pub fn kernels(&self) -> u8
        ensures number { result ≡ kernels_of (place_of self.now) }
        ensures most { result ≤ 8 }
    {
        self.out.len() as u8
    }

    /// Whether no free place of the ring to a kernel is known. Where none is, it first learns what that kernel got. One who asks before a
    /// letter is put need not move it where it stays.
    #[inline(always)]
    pub fn is_full(&mut self, to: u8) -> bool
        requires { to < kernels_of (place_of self.old) }
        ensures place { place_of self.new ≡ place_of self.old }
        ensures full { IsTrue result → (self.new ≡ self.old) × (places_to self.new to ≡ 0) }
        ensures free { IsFalse result → 0 < places_to self.new to }
        ensures looked { HasLooked to self.old self.new }
        ensures into { self.new.into ≡ self.old.into }
    {
        self.out[usize::from(to)].is_full()
    }

    /// Puts a letter to a kernel, where a free place of the ring to it is known: a packet whose stamp is below the greatest `u64`, or the
    /// first marker to that kernel.
    #[inline(always)]
    pub fn put_known(&mut self, to: u8, letter: Letter)
        requires kernel { to < kernels_of (place_of self.old) }
        requires place { 0 < places_to self.old to }
        requires letter { MayBePut (put_to self.old to) letter }
        ensures place { place_of self.new ≡ place_of self.old }
        ensures put { HasPut to letter self.old self.new }
    {
        self.out[usize::from(to)].put_known(letter);
    }

    /// Puts a letter to a kernel: a packet whose stamp is below the greatest `u64`, or the first marker to that kernel. The letter comes
    /// back exactly where no free place of the ring to it is known.
    pub fn put(&mut self, to: u8, letter: Letter) -> Result<(), Letter>
        requires kernel { to < kernels_of (place_of self.old) }
        requires letter { MayBePut (put_to self.old to) letter }
        ensures place { place_of self.new ≡ place_of self.old }
        ensures ok { OnOk result (HasPut to letter self.old self.new) }
        ensures full { IfErr result (λ back. (back ≡ letter) × (self.new ≡ self.old) × (places_to self.new to ≡ 0)) }
        ensures succeeds { 0 < places_to self.old to → IsOk result }
    {
        if self.is_full(to) {
            return Err(letter);
        }
        self.put_known(to, letter);
        Ok(())
    }

    /// The first kernel, by their numbers, of which a letter is known; `None` exactly where no letter is known in any ring to this port.
    #[inline(always)]
    pub fn first(&mut self) -> Option<u8>
        ensures place { place_of self.new ≡ place_of self.old }
        ensures some { IfSome result (λ from. HasFound from self.old self.new) }
        ensures none { IfNone result ((self.new ≡ self.old) × ((from : ℕ) → known_from self.new from ≡ [])) }
        ensures succeeds { (from : ℕ) → 0 < length (known_from self.old from) → IsSome result }
    {
        let Some(from) = first_known(&mut self.into) else {
            return None;
        };
        Some(from)
    }

    /// Gets the first letter of a kernel of which one is known.
    #[inline(always)]
    pub fn get_from(&mut self, from: u8) -> Letter
        requires { 0 < length (known_from self.old from) }
        ensures place { place_of self.new ≡ place_of self.old }
        ensures gets { GetsOne from result self.old self.new }
    {
        self.into[usize::from(from)].ring.pop_known()
    }

    /// Gets the first letter of the first kernel, by their numbers, of which one is known, with that kernel's number; `None` exactly
    /// where no letter is known in any ring to this port.
    pub fn get(&mut self) -> Option<(u8, Letter)>
        ensures place { place_of self.new ≡ place_of self.old }
        ensures some { IfSome result (λ r. HasGot r.0 r.1 self.old self.new) }
        ensures none { IfNone result ((self.new ≡ self.old) × ((from : ℕ) → known_from self.new from ≡ [])) }
        ensures succeeds { (from : ℕ) → 0 < length (known_from self.old from) → IsSome result }
    {
        let Some(from) = self.first() else {
            return None;
        };
        Some((from, self.get_from(from)))
    }

    /// Brings both ends of the ring from this port to itself together: how many letters are there.
    pub fn meet_self(&mut self) -> u32
        ensures place { place_of self.new ≡ place_of self.old }
        ensures looked { HasLooked self.old.kernel self.old self.new }
        ensures there { AreAllThere self.new self.new }
        ensures count { result ≡ length (there_of self.new self.new) }
    {
        let own = usize::from(self.kernel);
        self.into[own].meet(&mut self.out[own])
    }
}

/// The first of these rings in which a letter is known.
#[inline(always)]
fn first_known(into: &mut Vec<Getter>) -> Option<u8>
    requires { length into.old.items ≤ 256 }
    ensures some { IfSome result (λ from. FindsFirst from into.old.items into.new.items) }
    ensures none { IfNone result ((into.new.items ≡ into.old.items) × ((from : ℕ) (d : Inlet) → from < length into.new.items → (slice_index_or into.new.items from d).known ≡ [])) }
{
    for from in 0..into.len() {
        if !into[from].is_empty() {
            return Some(from as u8);
        }
    }
    None
}

/// Brings both ends of both rings between two ports together: how many letters are there that either of them put to the other.
pub fn meet(a: &mut Port, b: &mut Port) -> u32
    requires { AreOfOneNet (place_of a.old) (place_of b.old) }
    ensures place_a { place_of a.new ≡ place_of a.old }
    ensures place_b { place_of b.new ≡ place_of b.old }
    ensures looked_a { HasLooked b.old.kernel a.old a.new }
    ensures looked_b { HasLooked a.old.kernel b.old b.new }
    ensures there { AreAllThere a.new b.new × AreAllThere b.new a.new }
    ensures count { result ≡ length (there_of a.new b.new) + length (there_of b.new a.new) }
{
    let from_a = meet_one_way(a, b);
    let from_b = meet_one_way(b, a);
    from_a + from_b
}

/// Brings both ends of the ring from one port to another together.
fn meet_one_way(putter: &mut Port, getter: &mut Port) -> u32
    requires { IsJoined (place_of putter.old) (place_of getter.old) }
    ensures looked { LooksOneWay putter.old putter.new getter.old getter.new }
    ensures there { AreAllThere putter.new getter.new }
    ensures count { (result ≡ length (there_of putter.new getter.new)) × (result ≤ 1024) }
{
    let from = usize::from(putter.kernel);
    let to = usize::from(getter.kernel);
    getter.into[from].meet(&mut putter.out[to])
}
