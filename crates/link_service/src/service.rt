ghost use Rattle.std.specs.Prelude.{◌≡◌, IfOk, IfErr, OnOk, OnErr, slice_get};
ghost use Rattle.charlotte_calls.specs.Setting.{IsValid};
ghost use Rattle.service_step.specs.Run.{start_state};
ghost use Rattle.service_step.specs.State.{next_link, counted};
ghost use Rattle.service_step.specs.Steps.{IsServiceStep};
ghost use Rattle.link_service.specs.Service.{state_of, IsFault};
ghost use Rattle.link_service.specs.declared.service.ApplyFault.TheVariants as fault;

use charlotte_calls::{EndId, LinkId, NoMemory, Pid, ServiceStep, Setting};
use service_links::Links;
use service_processes::Processes;
use service_step::Place;
use std::alloc::Global;
use std::marker::Model;

/// The link service: what all kernels together do to ends, messages and processes.
#[derive(Drop)]
pub struct Service {
    pub(crate) version: u8,
    /// The kernel of each process.
    pub(crate) homes: Vec<u8>,
    /// How many links each kernel has made.
    pub(crate) made: Vec<u32>,
    pub(crate) links: Links,
    pub(crate) processes: Processes,
}

impl Model for Service {
    ghost use Rattle.service_processes.specs.contracts.processes.ControlBlock as block;
    ghost use Rattle.std.specs.Coded.{codes};
    ghost use Rattle.link_service.specs.Service.{ServiceView, IsWellKept};

    ghost Value = { ServiceView };

    ghost coded = { Prim.hlevel (codes, block.the_row.coded) };

    ghost view = { λ s. record { version = s.version; homes = s.homes.items; made = s.made.items; links = s.links; processes = s.processes } };

    ghost invariant = { λ s. IsWellKept (record { version = s.version; homes = s.homes.items; made = s.made.items; links = s.links; processes = s.processes }) };
}

/// Why a step was not made.
#[derive(Clone, Copy, Debug, PartialEq, Eq)]
pub enum ApplyFault {
    /// The service does not allow the step with this number, 1 to 16, in its state.
    NotAllowed(u8),
    NoMemory,
}

impl From<NoMemory> for ApplyFault {
    ghost from_gives = { λ _ e. e ≡ fault.NoMemory };

    fn from(_error: NoMemory) -> ApplyFault {
        ApplyFault::NoMemory
    }
}

impl Service {
    /// The service before any step: each process runs without reports, and each wired end is owned by its process.
    pub fn start(alloc: Global, setting: &Setting) -> Result<Service, NoMemory>
        requires { IsValid setting.now }
        ensures { IfOk result (λ s. state_of s ≡ start_state setting.now) }
    {
        crate::wires::start(alloc, setting)
    }

    /// Where an end is. `Unmade` comes exactly for an end of no made link.
    #[tactic(auto, unfolding(crate::specs::Service::state_of))]
    pub fn place(&self, end: EndId) -> Place
        ensures { result ≡ ((state_of self.now).ends end).place }
    {
        self.links().look(end).place()
    }

    /// Makes a step, where it is allowed. `NotAllowed` with the step's number comes exactly where it is not. After a fault the
    /// service is as before.
    pub fn apply(&mut self, step: &ServiceStep) -> Result<(), ApplyFault>
        ensures ok { OnOk result (IsServiceStep (state_of self.old) step.now (state_of self.new)) }
        ensures fault { IfErr result (IsFault (state_of self.old) step.now) }
        ensures same { OnErr result (state_of self.new ≡ state_of self.old) }
    {
        match step {
            ServiceStep::Make { p, a, b } => self.make(*p, *a, *b),
            ServiceStep::Refuse { p, call, cause } => self.refuse(*p, call, *cause),
            ServiceStep::Destroy { on } => self.destroy(*on),
            ServiceStep::Send {
                on,
                n,
                bytes,
                enclose,
            } => self.send(*on, *n, bytes, enclose),
            ServiceStep::Receive { on } => self.receive(*on),
            ServiceStep::Cancel { on, way } => self.cancel(*on, *way),
            ServiceStep::Wait { p } => self.wait(*p),
            ServiceStep::Report { p, report } => self.report(*p, report),
            ServiceStep::Exit { p } => self.exit(*p),
            ServiceStep::Match { on, n } => self.match_send(*on, *n),
            ServiceStep::Take { on, n, p, late } => self.take(*on, *n, *p, *late),
            ServiceStep::Complete { on, n } => self.complete(*on, *n),
            ServiceStep::Withdraw { on } => self.withdraw(*on),
            ServiceStep::Free { on } => self.free(*on),
            ServiceStep::Notice { on, dead } => self.notice(*on, *dead),
            ServiceStep::Back { on, n, dead } => self.back(*on, *n, *dead),
        }
    }

    #[inline(always)]
    pub(crate) fn version(&self) -> u8
        ensures { result ≡ self.now.version }
    {
        self.version
    }

    /// The ends of all links.
    #[inline(always)]
    pub fn links(&self) -> &Links
        ensures { result.now ≡ self.now.links }
    {
        &self.links
    }

    /// The processes.
    #[inline(always)]
    pub fn processes(&self) -> &Processes
        ensures { result.now ≡ self.now.processes }
    {
        &self.processes
    }

    #[inline(always)]
    pub(crate) fn allocator(&self) -> Global {
        *self.homes.allocator()
    }

    /// The name of the next link that the home of a process makes.
    #[tactic(auto, unfolding(crate::specs::Service::state_of))]
    pub(crate) fn next_link(&self, p: Pid) -> Option<LinkId>
        ensures { result ≡ next_link (state_of self.now) p }
    {
        match self.homes.get(usize::from(p.0)) {
            Some(maker) => self.counted(*maker),
            None => None,
        }
    }

    /// The name of the next link of a kernel.
    fn counted(&self, maker: u8) -> Option<LinkId>
        ensures { result ≡ counted maker (slice_get self.now.made maker) }
    {
        match self.made.get(usize::from(maker)) {
            Some(count) => Some(LinkId {
                maker,
                count: *count,
            }),
            None => None,
        }
    }
}
