ghost use Rattle.std.specs.Prelude.{◌≡◌, ◌<◌, ◌≤◌, ℕ, [], All, IfOk, length, map};
ghost use Rattle.kernel_net.specs.Grid.{IsGrid, IsRow, ArePorts, putters_of, getters_of};
ghost use Rattle.kernel_net.specs.Ports.{IsFresh, IsNet, place_of};

use crate::Port;
use crate::ring::{Getter, Putter, new_ring};
use charlotte_calls::NoMemory;
use std::alloc::Global;
use std::mem;

/// The rings of all kernels.
#[derive(Clone, Copy, Debug)]
pub struct Net;

impl Net {
    /// The ports of a new net, by the numbers of their kernels, with a ring for each ordered pair of kernels, a kernel with itself too.
    pub fn make(alloc: Global, kernels: u8, capacity: u16) -> Result<Vec<Port>, NoMemory>
        requires kernels { (0 < kernels) × (kernels ≤ 8) }
        requires capacity { (0 < capacity) × (capacity ≤ 1024) }
        ensures count { IfOk result (λ ports. length ports.items ≡ kernels) }
        ensures net { IfOk result (λ ports. IsNet (map place_of ports.items)) }
        ensures fresh { IfOk result (λ ports. All (IsFresh capacity) ports.items) }
    {
        let mut outs = Vec::new(alloc);
        let mut intos = no_getters(alloc, kernels)?;
        for _ in 0..kernels {
            outs.push(rings_to_each(alloc, capacity, &mut intos)?)?;
        }
        let ports = ports_of(alloc, kernels, &mut outs, &mut intos)?;
        Ok(ports)
    }
}

/// An empty list for each kernel.
fn no_getters(alloc: Global, kernels: u8) -> Result<Vec<Vec<Getter>>, NoMemory>
    ensures { IfOk result (λ intos. (capacity : ℕ) → IsGrid capacity kernels 0 [] (getters_of intos.items)) }
{
    let mut intos = Vec::new(alloc);
    for _ in 0..kernels {
        intos.push(Vec::new(alloc))?;
    }
    Ok(intos)
}

/// The rings from one kernel to each: those who get go to the ends of the lists.
fn rings_to_each(
    alloc: Global,
    capacity: u16,
    intos: &mut Vec<Vec<Getter>>,
) -> Result<Vec<Putter>, NoMemory>
    requires { capacity ≤ 1024 }
    ensures { IfOk result (λ row. IsRow capacity (length intos.old.items) row.items (getters_of intos.old.items) (getters_of intos.new.items)) }
{
    let mut row = Vec::new(alloc);
    for to in 0..intos.len() {
        let (putter, getter) = new_ring(alloc, capacity)?;
        row.push(putter)?;
        intos[to].push(getter)?;
    }
    Ok(row)
}

/// The ports with these rings, which are taken out of the lists.
fn ports_of(
    alloc: Global,
    kernels: u8,
    outs: &mut Vec<Vec<Putter>>,
    intos: &mut Vec<Vec<Getter>>,
) -> Result<Vec<Port>, NoMemory>
    requires most { kernels ≤ 8 }
    requires grid { (capacity : ℕ) × IsGrid capacity kernels kernels (putters_of outs.old.items) (getters_of intos.old.items) }
    ensures { IfOk result (λ ports. ArePorts kernels ports.items (putters_of outs.old.items) (getters_of intos.old.items)) }
{
    let mut ports = Vec::new(alloc);
    for kernel in 0..kernels {
        let out = mem::replace(&mut outs[usize::from(kernel)], Vec::new(alloc));
        let into = mem::replace(&mut intos[usize::from(kernel)], Vec::new(alloc));
        ports.push(Port { kernel, out, into })?;
    }
    Ok(ports)
}
