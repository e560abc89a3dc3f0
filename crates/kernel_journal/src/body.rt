//! The entries of a transcript, replayed one line after the other.
ghost use Rattle.std.specs.Prelude.{◌≡◌, ◌↔◌, ◌≤◌, ◌<◌, [], true, false, IfErr, IfOk, IsTrue, OnOk, length};
ghost use Rattle.charlotte_calls.specs.Setting.{IsValid};
ghost use Rattle.kernel_journal.specs.Body.{course_of, most_events, AreSameNodes, CanCall, Fails, Goes, IsNoted, IsReady, Passes, StopsAt};
ghost use Rattle.kernel_journal.specs.declared.fault.Stop.TheVariants as stops;
ghost use Rattle.transcript_replay.specs.Header.{is_body};
ghost use Rattle.transcript_replay.specs.Course.{comes_after, course_start};
ghost use Rattle.transcript_replay.specs.Replay.{IsTrueLast};
ghost use Rattle.kernel_world.specs.Run.{AllTaken, IsCallOf};
ghost use Rattle.transcript_reading.specs.declared.line.LineKind.TheVariants as line;

use crate::due::Due;
use crate::fault::Stop;
use charlotte_calls::{Call, NoMemory, Pid, Setting};
use charlotte_packets::Picture;
use kernel_nodes::{Nodes, Noted, Request};
use std::alloc::Global;
use std::mem;
use transcript_lines::Last;
use transcript_matching::is_shown;
use transcript_reading::{LineKind, ServiceLine};

/// The events that a run has at most: so no number of a kernel comes to its end.
const MOST_EVENTS: u32 = 1 << 31;

/// The kernels after the entries so far, and what the next line has to show.
#[derive(Drop)]
pub(crate) struct Body {
    pub(crate) setting: Setting,
    pub(crate) nodes: Nodes,
    /// How many events happened.
    pub(crate) events: u32,
    /// Stamp and kernel of the last entry.
    pub(crate) latest: Option<(u64, u8)>,
    /// The service steps of the last event that no line has shown yet.
    pub(crate) due: Due,
}

impl Body {
    /// Before the first entry.
    pub(crate) fn start(alloc: Global, setting: Setting) -> Result<Body, NoMemory>
        requires { IsValid setting }
        ensures ready { IfOk result IsReady }
        ensures start { IfOk result (λ b. course_of b ≡ course_start setting) }
    {
        let nodes = Nodes::start(alloc, &setting)?;
        Ok(Body {
            setting,
            nodes,
            events: 0,
            latest: None,
            due: Due::none(alloc),
        })
    }

    /// Whether no step is due and the run may have one event more.
    pub(crate) fn may_go_on(&self) -> bool
        ensures { IsTrue result ↔ ((self.now.due ≡ []) × (self.now.events < most_events)) }
    {
        self.due.is_empty() && self.events < MOST_EVENTS
    }

    /// The entry of a call.
    pub(crate) fn ask(&mut self, stamp: u64, kernel: u8, request: &Request) -> Result<(), Stop>
        requires { IsReady self.old }
        ensures ready { OnOk result (IsReady self.new) }
        ensures leads { OnOk result (Goes self.old (line.CallEntry stamp kernel request.now.p request.now.call) self.new) }
        ensures differs { IfErr result (StopsAt self.old (line.CallEntry stamp kernel request.now.p request.now.call)) }
    {
        if !self.may_go_on() {
            return Err(Stop::Differs);
        }
        if !self.may_call(kernel, request.p, &request.call) {
            return Err(Stop::Differs);
        }
        let noted = self.nodes.ask(kernel, request)?;
        self.note(stamp, kernel, noted)
    }

    /// The entry of a call that was read.
    fn ask_told(&mut self, stamp: u64, kernel: u8, p: Pid, call: &Call) -> Result<(), Stop>
        requires { IsReady self.old }
        ensures ready { OnOk result (IsReady self.new) }
        ensures leads { OnOk result (Goes self.old (line.CallEntry stamp kernel p call.now) self.new) }
        ensures differs { IfErr result (StopsAt self.old (line.CallEntry stamp kernel p call.now)) }
    {
        let request = Request {
            p,
            call: call.copy(),
        };
        self.ask(stamp, kernel, &request)
    }

    /// The entry of a packet that a kernel took.
    pub(crate) fn take(
        &mut self,
        stamp: u64,
        kernel: u8,
        from: u8,
        picture: &Picture,
    ) -> Result<(), Stop>
        requires { IsReady self.old }
        ensures ready { OnOk result (IsReady self.new) }
        ensures leads { OnOk result (Goes self.old (line.PacketEntry stamp kernel from picture.now) self.new) }
        ensures differs { IfErr result (StopsAt self.old (line.PacketEntry stamp kernel from picture.now)) }
    {
        if !self.may_go_on() {
            return Err(Stop::Differs);
        }
        if !is_unstamped(picture) {
            return Err(Stop::Differs);
        }
        match self.nodes.take_told(from, kernel, &picture.what)? {
            Some(noted) => self.note(stamp, kernel, noted),
            None => Err(Stop::Differs),
        }
    }

    /// Whether a kernel is that of a process, which runs and may make this call.
    fn may_call(&self, kernel: u8, p: Pid, call: &Call) -> bool
        requires { IsReady self.now }
        ensures { IsTrue result ↔ CanCall self.now.setting (course_of self.now).world kernel p call.now }
    {
        match self.setting.homes.as_slice().get(usize::from(p.0)) {
            Some(home) => {
                *home == kernel
                    && self.nodes.running(kernel, p)
                    && is_call_of(self.setting.version, call)
            }
            None => false,
        }
    }

    /// Notes an event that happened, if the entry line has its stamp and may stand there.
    pub(crate) fn note(&mut self, stamp: u64, kernel: u8, noted: Noted) -> Result<(), Stop>
        requires few { self.old.events < most_events }
        ensures noted { OnOk result (IsNoted stamp kernel noted self.old self.new) }
        ensures differs { IfErr result (λ stop. (stop ≡ stops.Differs)
            × (noted.stamp ≡ stamp → IsTrue (comes_after self.old.latest stamp kernel) → ⊥)) }
    {
        if noted.stamp != stamp || !comes_after(self.latest, stamp, kernel) {
            return Err(Stop::Differs);
        }
        let over = mem::replace(&mut self.due, Due::of(noted.steps));
        self.give_back(over);
        self.events += 1;
        self.latest = Some((stamp, kernel));
        Ok(())
    }

    /// Gives the list of the steps of the last event back to its kernel.
    fn give_back(&mut self, steps: Due)
        ensures setting { self.new.setting ≡ self.old.setting }
        ensures nodes { AreSameNodes self.old.nodes.nodes.items self.new.nodes.nodes.items }
        ensures events { self.new.events ≡ self.old.events }
        ensures latest { self.new.latest ≡ self.old.latest }
        ensures due { self.new.due ≡ self.old.due }
    {
        if let Some((_, kernel)) = self.latest {
            self.nodes.reuse(kernel, steps.into_room());
        }
    }

    /// The line of a service step.
    pub(crate) fn show(&mut self, shown: &ServiceLine) -> Result<(), Stop>
        requires { IsReady self.old }
        ensures ready { OnOk result (IsReady self.new) }
        ensures leads { OnOk result (Goes self.old (line.Service shown.now) self.new) }
        ensures differs { IfErr result (StopsAt self.old (line.Service shown.now)) }
    {
        match self.due.first() {
            Some(step) => {
                if is_shown(step, shown) {
                    self.due.pass_first();
                    Ok(())
                } else {
                    Err(Stop::Differs)
                }
            }
            None => Err(Stop::Differs),
        }
    }

    /// A line behind the header. A note or the last line comes once no step is due; a header line never.
    pub(crate) fn pass(&mut self, kind: &LineKind) -> Result<(), Stop>
        requires ready { IsReady self.old }
        requires body { is_body kind.now ≡ true }
        ensures ready { OnOk result (IsReady self.new) }
        ensures passes { OnOk result (Passes self.old kind.now self.new) }
        ensures fails { IfErr result (Fails self.old kind.now) }
    {
        match kind {
            LineKind::CallEntry {
                stamp,
                kernel,
                p,
                call,
            } => self.ask_told(*stamp, *kernel, *p, call),
            LineKind::PacketEntry {
                stamp,
                kernel,
                from,
                picture,
            } => self.take(*stamp, *kernel, *from, picture),
            LineKind::Service(shown) => self.show(shown),
            LineKind::Note(_) => go_on_if(self.due.is_empty()),
            LineKind::End(last) => go_on_if(self.due.is_empty() && self.ends(*last)),
            LineKind::First { .. } => Err(Stop::Differs),
            LineKind::Kernels(_) => Err(Stop::Differs),
            LineKind::Process { .. } => Err(Stop::Differs),
            LineKind::Wire { .. } => Err(Stop::Differs),
        }
    }

    /// Whether a last line is true.
    pub(crate) fn ends(&self, last: Last) -> bool
        ensures { IsTrue result ↔ IsTrueLast self.now.setting (course_of self.now).world last }
    {
        match last {
            Last::Quiet => self.nodes.are_quiet(),
            Last::Unsettled => !self.nodes.are_quiet(),
            Last::Spent(kernel) => kernel < self.setting.kernels,
        }
    }
}

/// A replay goes on where what a line says is so.
fn go_on_if(is_so: bool) -> Result<(), Stop>
    ensures ok { OnOk result (is_so ≡ true) }
    ensures err { IfErr result (λ stop. (stop ≡ stops.Differs) × (is_so ≡ false)) }
{
    if is_so { Ok(()) } else { Err(Stop::Differs) }
}

/// No line shows the stamp of a packet.
fn is_unstamped(picture: &Picture) -> bool
    ensures { IsTrue result ↔ (picture.now.stamp ≡ 0) }
{
    picture.stamp == 0
}

/// Whether an entry of this stamp and kernel may stand behind the last one.
fn comes_after(latest: Option<(u64, u8)>, stamp: u64, kernel: u8) -> bool
    ensures { result ≡ comes_after latest stamp kernel }
{
    match latest {
        Some((at, by)) => at < stamp || (at == stamp && by < kernel),
        None => true,
    }
}

/// Whether a call encloses no more ends than the version allows. A message has at most 256 bytes by its type.
fn is_call_of(version: u8, call: &Call) -> bool
    ensures { IsTrue result ↔ IsCallOf version call.now }
{
    match call {
        Call::Send {
            on: _,
            bytes,
            enclose,
        } => {
            let bytes = bytes.as_slice();
            let most = if version == 1 { 1 } else { 8 };
            bytes.len() <= 256 && enclose.as_slice().len() <= most
        }
        Call::Print { bytes } => bytes.as_slice().len() <= 256,
        Call::Make | Call::Wait | Call::Exit => true,
        Call::Destroy { on: _ } | Call::Receive { on: _ } | Call::Cancel { on: _, way: _ } => true,
    }
}
