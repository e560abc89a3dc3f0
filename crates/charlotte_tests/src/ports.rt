//! The ports of a net in one list, as a run of all kernels on one thread has them.
ghost use Rattle.std.specs.Prelude.{◌≡◌, ◌<◌, ◌≤◌, ℕ, [], All, IfOk, length, map};
ghost use Rattle.kernel_net.specs.Ports.{IsNet, place_of, put_to};

use crate::checked::CheckedPort;
use charlotte_calls::NoMemory;
use kernel_net::{Letter, Net, Port};
use std::alloc::Global;

/// Ports of one net, by the numbers of their kernels.
#[derive(Drop)]
pub(crate) struct Ports {
    ports: Vec<CheckedPort>,
    ghost net: { IsNet (map (λ p. place_of p.port) ports.items) },
}

impl Ports {
    pub(crate) fn make(alloc: Global, kernels: u8, capacity: u16) -> Result<Ports, NoMemory>
        requires { (0 < kernels) × (kernels ≤ 8) × (0 < capacity) × (capacity ≤ 1024) }
    {
        let ports = checked(alloc, Net::make(alloc, kernels, capacity)?)?;
        Ok(Ports { ports })
    }

    /// The number that the port at this place has.
    pub(crate) fn kernel(&self, at: u8) -> Option<u8> {
        if usize::from(at) >= self.ports.len() {
            return None;
        }
        Some(self.ports[usize::from(at)].kernel())
    }

    /// The port of a kernel puts a letter to a kernel. It comes back, too, where one of the two is not there or the letter may not be put.
    pub(crate) fn put(&mut self, from: u8, to: u8, letter: Letter) -> Result<(), Letter> {
        let kernels = self.ports.len();
        if usize::from(from) >= kernels || usize::from(to) >= kernels {
            return Err(letter);
        }
        self.ports[usize::from(from)].put(to, letter)
    }

    /// The port of a kernel gets a letter.
    pub(crate) fn get(&mut self, at: u8) -> Option<(u8, Letter)> {
        if usize::from(at) >= self.ports.len() {
            return None;
        }
        self.ports[usize::from(at)].get()
    }

    /// A kernel meets one with a greater number, or itself. Where one is not there, nothing is done.
    pub(crate) fn meet(&mut self, a: u8, b: u8) -> u32 {
        let (first, second) = (usize::from(a), usize::from(b));
        if second >= self.ports.len() || first > second {
            return 0;
        }
        if first == second {
            return self.ports[first].meet_self();
        }
        meet_two(self.ports.as_mut_slice(), first, second)
    }
}

/// Ports that look at a letter before they put it.
fn checked(alloc: Global, made: Vec<Port>) -> Result<Vec<CheckedPort>, NoMemory>
    requires { All (λ p. (to : ℕ) → put_to p to ≡ []) made.items }
    ensures { IfOk result (λ ports. map (λ p. place_of p.port) ports.items ≡ map place_of made.items) }
{
    let mut ports = Vec::new(alloc);
    for port in made {
        ports.push(CheckedPort::new(port))?;
    }
    Ok(ports)
}

/// Two of these ports meet.
fn meet_two(ports: &mut [CheckedPort], first: usize, second: usize) -> u32
    requires net { IsNet (map (λ p. place_of p.port) ports.old) }
    requires order { (first < second) × (second < length ports.old) }
    ensures { map (λ p. place_of p.port) ports.new ≡ map (λ p. place_of p.port) ports.old }
{
    let (front, back) = ports.split_at_mut(second);
    front[first].meet(&mut back[0])
}
