//! The service with which the run of a setting starts.
ghost use Rattle.std.specs.Prelude.{◌≡◌, ◌+◌, ◌<◌, Some, IfOk, OnOk, length, replicate, slice_get, slice_index, slice_index_or};
ghost use Rattle.charlotte_calls.specs.Causes.{link_limit};
ghost use Rattle.charlotte_calls.specs.Setting.{IsValid};
ghost use Rattle.service_step.specs.Run.{start_state, nothing_wired};
ghost use Rattle.service_processes.specs.Processes.{HasProcess};
ghost use Rattle.charlotte_calls.specs.declared.names.Pid.{Pid};
ghost use Rattle.link_service.specs.Service.{state_of, HasRoom, HasWired, wired_state, wires};

use crate::service::Service;
use charlotte_calls::{LinkId, NoMemory, Pid, Setting};
use service_links::Links;
use service_processes::Processes;
use std::alloc::Global;

/// The service before any step.
#[tactic(auto, using(crate::proofs::NewLinks::wired_all))]
pub(crate) fn start(alloc: Global, setting: &Setting) -> Result<Service, NoMemory>
    requires { IsValid setting.now }
    ensures { IfOk result (λ s. state_of s ≡ start_state setting.now) }
{
    let service = wire_each(alloc, setting)?;
    Ok(service)
}

fn wire_each(alloc: Global, setting: &Setting) -> Result<Service, NoMemory>
    requires { IsValid setting.now }
    ensures { IfOk result (HasWired setting.now (length setting.now.wires)) }
{
    let mut service = unwired(alloc, setting)?;
    for index in 0..setting.wires.len() {
        service.wire_next(setting, index)?;
    }
    Ok(service)
}

/// The service with no wire.
#[tactic(auto, unfolding(crate::specs::Service::state_of))]
fn unwired(alloc: Global, setting: &Setting) -> Result<Service, NoMemory>
    ensures state { IfOk result (λ s. state_of s ≡ wired_state setting.now (nothing_wired setting.now.kernels)) }
    ensures count { IfOk result (λ s. length s.processes ≡ length setting.now.homes) }
{
    let homes = copied(alloc, setting.homes.as_slice())?;
    let made = zeros(alloc, usize::from(setting.kernels))?;
    let processes = Processes::fresh(alloc, setting.homes.len())?;
    Ok(Service {
        version: setting.version,
        homes,
        made,
        links: Links::empty(alloc),
        processes,
    })
}

/// A vector of these numbers.
fn copied(alloc: Global, numbers: &[u8]) -> Result<Vec<u8>, NoMemory>
    ensures { IfOk result (λ v. v.items ≡ numbers.now) }
{
    let mut copy = Vec::new(alloc);
    copy.extend_from_slice(numbers)?;
    Ok(copy)
}

/// So many zeros.
fn zeros(alloc: Global, count: usize) -> Result<Vec<u32>, NoMemory>
    ensures { IfOk result (λ v. v.items ≡ replicate count 0) }
{
    let mut numbers = Vec::new(alloc);
    numbers.resize(count, 0)?;
    Ok(numbers)
}

/// The processes of a wire.
fn wire_of(setting: &Setting, index: usize) -> (Pid, Pid)
    requires valid { IsValid setting.now }
    requires within { index < length setting.now.wires }
    ensures wire { (other : Pid × Pid) → result ≡ slice_index_or setting.now.wires index other }
    ensures first { result.0.0 < length setting.now.homes }
    ensures second { result.1.0 < length setting.now.homes }
{
    setting.wires.as_slice()[index]
}

impl Service {
    /// Makes one more wire of a setting.
    fn wire_next(&mut self, setting: &Setting, index: usize) -> Result<(), NoMemory>
        requires valid { IsValid setting.now }
        requires within { index < length setting.now.wires }
        requires so_far { HasWired setting.now index self.old }
        ensures { OnOk result (HasWired setting.now (index + 1) self.new) }
    {
        let wire = wire_of(setting, index);
        self.wire(wire)?;
        Ok(())
    }

    /// The home of the first process makes a link, whose end a is the first process's and whose end b the second's.
    fn wire(&mut self, wire: (Pid, Pid)) -> Result<(), NoMemory>
        requires first { HasProcess self.old.processes wire.0 }
        requires second { HasProcess self.old.processes wire.1 }
        requires room { HasRoom self.old wire.0 }
        ensures ok { OnOk result (state_of self.new ≡ wires wire (state_of self.old)) }
        ensures count { length self.new.processes ≡ length self.old.processes }
    {
        let link = self.next_of_home(wire.0);
        self.add_link(link, wire)?;
        Ok(())
    }

    /// The next link that the home of a process makes, where it may make one more.
    fn next_of_home(&self, p: Pid) -> LinkId
        requires { HasRoom self.now p }
        ensures maker { result.maker ≡ slice_index self.now.homes p.0 }
        ensures count { result.count ≡ slice_index self.now.made (slice_index self.now.homes p.0) }
        ensures next { slice_get self.now.made result.maker ≡ Some result.count }
        ensures room { result.count < link_limit }
    {
        let maker = self.homes[usize::from(p.0)];
        let count = self.made[usize::from(maker)];
        LinkId { maker, count }
    }
}
