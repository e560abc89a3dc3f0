//! The kernels and the link service, after the first lines of the transcript of a run.
ghost use Rattle.std.specs.Prelude.{◌≡◌, ◌<◌, ◌↔◌, IfOk, IfSome, IsTrue, MatchBool, Some, length, slice_get};
ghost use Rattle.std.specs.Bool.{OnTrue};
ghost use Rattle.kernel_core.specs.State.{state_of};
ghost use Rattle.kernel_step.specs.Kernel.{process_of};
ghost use Rattle.transcript_items.specs.Kept.{Asks, Kept, MayCall, Shows, Takes, doing_in};
ghost use Rattle.transcript_kept.specs.Run.{IsRun, kept_of};

use charlotte_calls::{Call, EndId, NoMemory, Pid, ServiceStep, Setting};
use charlotte_packets::{Packet, PictureWhat};
use end_table::Lent;
use kernel_core::Kernel;
use kernel_nodes::{Nodes, Noted, Request};
use link_service::{ApplyFault, Place, Service};
use std::alloc::Global;
use std::collections::VecDeque;
use transcript_items::{Doing, Kernels};
use transcript_reader::Reader;
use transcript_reading::LineKind;

/// The kernels and the service after some lines. The lines are those of a run, which an audit has tested; here they are followed.
#[derive(Drop)]
pub struct Run {
    pub(crate) setting: Setting,
    pub(crate) nodes: Nodes,
    service: Service,
    /// Stamp and kernel of the last entry.
    latest: Option<(u64, u8)>,
    /// The service steps of the last event that no line has shown yet.
    pub(crate) due: VecDeque<ServiceStep>,
    /// A call that comes next is read into its place.
    pub(crate) request: Request,
}

impl Kernels for Run {
    ghost kept = { kept_of };

    ghost stand = { IsRun };

    fn start(alloc: Global, setting: Setting) -> Result<Run, NoMemory> {
        let nodes = Nodes::start(alloc, &setting)?;
        let service = Service::start(alloc, &setting)?;
        Ok(Run {
            setting,
            nodes,
            service,
            latest: None,
            due: VecDeque::new(alloc),
            request: Request {
                p: Pid(0),
                call: Call::Make,
            },
        })
    }

    fn follow(&mut self, kind: &LineKind) -> Result<bool, NoMemory> {
        match kind {
            LineKind::CallEntry {
                kernel,
                p,
                call,
                ..
            } => self.ask(*kernel, *p, call),
            LineKind::PacketEntry {
                kernel,
                from,
                picture,
                ..
            } => self.take(*from, *kernel, &picture.what),
            LineKind::Service(_) => self.show(),
            LineKind::First { .. } => Ok(true),
            LineKind::Kernels(_) => Ok(true),
            LineKind::Process { .. } => Ok(true),
            LineKind::Wire { .. } => Ok(true),
            LineKind::Note(_) => Ok(true),
            LineKind::End(_) => Ok(true),
        }
    }

    fn follow_expected(&mut self, reader: &mut Reader<'_>) -> Result<Option<bool>, NoMemory> {
        self.follow_next(reader)
    }

    fn count(&self) -> u8 {
        self.setting.kernels
    }

    fn latest(&self) -> Option<(u64, u8)> {
        self.latest
    }

    fn due(&self) -> Option<&ServiceStep> {
        self.due.front()
    }

    fn is_quiet(&self) -> bool {
        self.nodes.are_quiet()
    }

    fn doing(&self, p: Pid) -> Option<(u8, Doing)> {
        let home = self.home(p)?;
        let kernel = self.nodes.kernel(home)?;
        Some((home, doing_at(kernel, p)))
    }

    fn stamp(&self, kernel: u8) -> Option<u64> {
        Some(self.nodes.kernel(kernel)?.stamp())
    }

    fn first(&self, from: u8, to: u8) -> Option<&Packet> {
        self.nodes.first(from, to)
    }

    fn entry(&self, kernel: u8, end: EndId) -> Lent<'_> {
        match self.nodes.kernel(kernel) {
            Some(kernel) => kernel.table().lend(end),
            None => Lent::Nothing,
        }
    }

    fn place(&self, end: EndId) -> Place {
        self.service.place(end)
    }
}

impl Run {
    /// A process makes a call at its kernel.
    fn ask(&mut self, kernel: u8, p: Pid, call: &Call) -> Result<bool, NoMemory>
        requires { IsRun self.old }
        ensures stand { IfOk result (λ went. OnTrue went (IsRun self.new)) }
        ensures asks { IfOk result (λ went. MatchBool went (Asks (kept_of self.old) kernel p call.now (kept_of self.new))
            ((new : Kept) → Asks (kept_of self.old) kernel p call.now new → ⊥)) }
    {
        if !self.runs_at(p, kernel) {
            return Ok(false);
        }
        let request = Request {
            p,
            call: call.copy(),
        };
        let noted = self.nodes.ask(kernel, &request)?;
        self.note(kernel, noted);
        Ok(true)
    }

    /// A kernel takes a packet.
    fn take(&mut self, from: u8, kernel: u8, what: &PictureWhat) -> Result<bool, NoMemory>
        requires { IsRun self.old }
        ensures stand { IfOk result (λ went. OnTrue went (IsRun self.new)) }
        ensures takes { IfOk result (λ went. MatchBool went (Takes (kept_of self.old) from kernel what.now (kept_of self.new))
            ((new : Kept) → Takes (kept_of self.old) from kernel what.now new → ⊥)) }
    {
        match self.nodes.take_told(from, kernel, what)? {
            Some(noted) => {
                self.note(kernel, noted);
                Ok(true)
            }
            None => Ok(false),
        }
    }

    pub(crate) fn note(&mut self, kernel: u8, noted: Noted)
        ensures nodes { self.new.nodes ≡ self.old.nodes }
        ensures setting { self.new.setting ≡ self.old.setting }
        ensures service { self.new.service ≡ self.old.service }
        ensures latest { self.new.latest ≡ Some (noted.stamp, kernel) }
        ensures due { self.new.due.items ≡ noted.steps.items }
    {
        self.latest = Some((noted.stamp, kernel));
        self.due = VecDeque::from(noted.steps);
    }

    /// The service makes the step that is due.
    pub(crate) fn show(&mut self) -> Result<bool, NoMemory>
        requires { IsRun self.old }
        ensures stand { IfOk result (λ went. OnTrue went (IsRun self.new)) }
        ensures shows { IfOk result (λ went. MatchBool went (Shows (kept_of self.old) (kept_of self.new))
            ((new : Kept) → Shows (kept_of self.old) new → ⊥)) }
    {
        let Some(step) = self.due.pop_front() else {
            return Ok(false);
        };
        match self.service.apply(&step) {
            Ok(()) => Ok(true),
            Err(ApplyFault::NotAllowed(_)) => Ok(false),
            Err(ApplyFault::NoMemory) => Err(NoMemory),
        }
    }

    /// The kernel of a process, if the process is there.
    fn home(&self, p: Pid) -> Option<u8>
        ensures at { result ≡ slice_get self.now.setting.homes p.0 }
        ensures there { IfSome result (λ _. p.0 < length self.now.setting.homes) }
    {
        self.setting.homes.as_slice().get(usize::from(p.0)).copied()
    }

    /// Whether a kernel is that of a process, which runs.
    pub(crate) fn runs_at(&self, p: Pid, kernel: u8) -> bool
        requires { IsRun self.now }
        ensures { IsTrue result ↔ MayCall (kept_of self.now) kernel p }
    {
        match self.home(p) {
            Some(home) => {
                home == kernel && kernel < self.setting.kernels && self.nodes.running(kernel, p)
            }
            None => false,
        }
    }
}

fn doing_at(kernel: &Kernel, p: Pid) -> Doing
    requires { p.0 < length kernel.now.processes }
    ensures { result ≡ doing_in (process_of p (state_of kernel.now)).phase }
{
    if kernel.running(p) {
        Doing::Runs
    } else if kernel.waiting(p) {
        Doing::Waits
    } else {
        Doing::Exited
    }
}
