ghost use Rattle.std.specs.Prelude.{IsTrue, ◌↔◌, ◌<◌, All};

use crate::{Items, Pid};

/// Of what a run consists: the version, the kernels, and the processes with their wired links.
#[derive(Debug, Drop)]
pub struct Setting {
    /// 1 or 2. In version 1 a message encloses at most one end, in version 2 at most eight.
    pub version: u8,
    /// How many kernels there are, 1 to 8.
    pub kernels: u8,
    /// The kernel of each process, of at most 64.
    pub homes: Items<u8>,
    /// The processes of each wired link, of at most 4,096: the owner of its end a, and that of its end b.
    pub wires: Items<(Pid, Pid)>,
}

impl Setting {
    ghost use Rattle.charlotte_calls.specs.Setting.{IsValid, IsWithinLimits};

    /// Whether all numbers are within the limits and name what is there.
    pub fn valid(&self) -> bool
        ensures { IsTrue result ↔ IsValid self.now }
    {
        let in_range = self.within_limits();
        in_range
            && homes_are_there(self.kernels, self.homes.as_slice())
            && wires_are_there(self.homes.len(), self.wires.as_slice())
    }

    fn within_limits(&self) -> bool
        ensures { IsTrue result ↔ IsWithinLimits self.now }
    {
        (self.version == 1 || self.version == 2)
            && 1 <= self.kernels
            && self.kernels <= 8
            && self.homes.len() <= 64
            && self.wires.len() <= 4096
    }
}

fn homes_are_there(kernels: u8, homes: &[u8]) -> bool
    ensures { IsTrue result ↔ All (λ home. home < kernels) homes.now }
{
    homes.iter().all(|home| *home < kernels)
}

fn wires_are_there(processes: usize, wires: &[(Pid, Pid)]) -> bool
    ensures { IsTrue result ↔ All (λ wire. (wire.0.0 < processes) × (wire.1.0 < processes)) wires.now }
{
    wires.iter().all(|wire| usize::from(wire.0.0) < processes && usize::from(wire.1.0) < processes)
}
