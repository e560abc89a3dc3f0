ghost use Rattle.std.specs.Prelude.{◌≡◌, List, [], ◌∷◌, ◌++◌, true, false, Ok, IfErr, IfOk, MatchBool, OnOk};
ghost use Rattle.transcript_reading.specs.Order.{Place, Start, next};
ghost use Rattle.transcript_reading.specs.declared.line.LineKind.{LineKind as AKind};
ghost use Rattle.transcript_replay.specs.Header.{is_body};
ghost use Rattle.kernel_journal.specs.At.{HasMet, IsAt, Passed};
ghost use Rattle.kernel_journal.specs.Expected.{HasStopped, HasTaken};
ghost use Rattle.kernel_journal.specs.Faults.{IsFaultAt, IsStopAt};
ghost use Rattle.kernel_journal.specs.declared.fault.Stop.TheVariants as stops;

use crate::body::Body;
use crate::fault::{ReplayFault, Stop};
use charlotte_calls::{Call, Pid};
use kernel_nodes::Request;
use std::alloc::Global;
use transcript_lines::Last;
use transcript_reader::{Line, Reader};
use transcript_reading::LineKind;
use transcript_replay::Draft;

/// A replay of a transcript, which takes one line after the other. It keeps the kernels and the packets that wait.
#[derive(Drop)]
pub struct Replay {
    alloc: Global,
    /// A call that comes next is read into its place.
    request: Request,
    pub(crate) draft: Draft,
    /// There once the header was taken, with the first line behind it.
    pub(crate) body: Option<Body>,
    /// There once the last line was taken.
    pub(crate) last: Option<Last>,
}

impl Replay {
    /// Before the first line.
    pub fn new(alloc: Global) -> Replay
        ensures { IsAt [] Start result }
    {
        Replay {
            alloc,
            request: Request {
                p: Pid(0),
                call: Call::Make,
            },
            draft: Draft::new(alloc),
            body: None,
            last: None,
        }
    }

    /// Takes the next line of a transcript, if the lines up to it begin the transcript of a run. After a fault no further line is taken.
    pub fn take(&mut self, line: &Line) -> Result<(), ReplayFault>
        requires { (taken : List AKind) × (place : Place) × (behind : Place) × IsAt taken place self.old × (next place line.now.what ≡ Ok behind) }
        ensures taken { OnOk result ((taken : List AKind) (place behind : Place) → IsAt taken place self.old → next place line.now.what ≡ Ok behind
            → IsAt (taken ++ line.now.what ∷ []) behind self.new) }
        ensures fault { IfErr result (λ fault. (taken : List AKind) (place behind : Place) → IsAt taken place self.old → next place line.now.what ≡ Ok behind
            → IsFaultAt taken line.now fault) }
    {
        match self.take_kind(&line.what) {
            Ok(()) => Ok(()),
            Err(Stop::Differs) => Err(ReplayFault::Differs { line: line.number }),
            Err(Stop::NoMemory) => Err(ReplayFault::NoMemory),
        }
    }

    /// Reads the next line and takes it, where it is just what the kernels expect there, or a note behind a note: it is compared with the text of that,
    /// and no value is made of it. `false`: it was not read, and may be any. After a fault no further line is taken.
    pub fn take_expected(&mut self, reader: &mut Reader<'_>) -> Result<bool, ReplayFault>
        requires { (taken : List AKind) × IsAt taken reader.old.place self.old }
        ensures taken { IfOk result (λ took. (taken : List AKind) → IsAt taken reader.old.place self.old
            → MatchBool took (HasTaken taken reader.old reader.new self.new) (IsAt taken reader.old.place self.new × (reader.new ≡ reader.old))) }
        ensures fault { IfErr result (λ fault. (taken : List AKind) → IsAt taken reader.old.place self.old → HasStopped taken reader.old reader.new fault) }
    {
        if !reader.is_among_entries() {
            return Ok(reader.skip_note());
        }
        match &mut self.body {
            Some(body) => match body.take_expected(reader, &mut self.request) {
                Ok(took) => Ok(took),
                Err(Stop::Differs) => Err(ReplayFault::Differs {
                    line: reader.lines(),
                }),
                Err(Stop::NoMemory) => Err(ReplayFault::NoMemory),
            },
            None => Ok(false),
        }
    }

    /// The last line, once it was taken.
    pub fn last(&self) -> Option<Last>
        ensures { result ≡ self.now.last }
    {
        self.last
    }

    fn take_kind(&mut self, kind: &LineKind) -> Result<(), Stop>
        requires { (taken : List AKind) × (place : Place) × (behind : Place) × IsAt taken place self.old × (next place kind.now ≡ Ok behind) }
        ensures taken { OnOk result ((taken : List AKind) (place behind : Place) → IsAt taken place self.old → next place kind.now ≡ Ok behind
            → IsAt (taken ++ kind.now ∷ []) behind self.new) }
        ensures differs { IfErr result (λ stop. (taken : List AKind) (place behind : Place) → IsAt taken place self.old → next place kind.now ≡ Ok behind
            → IsStopAt taken kind.now stop) }
    {
        match kind {
            LineKind::First { .. } => self.tell(kind),
            LineKind::Kernels(_) => self.tell(kind),
            LineKind::Process { .. } => self.tell(kind),
            LineKind::Wire { .. } => self.tell(kind),
            LineKind::CallEntry { .. } => self.pass(kind),
            LineKind::PacketEntry { .. } => self.pass(kind),
            LineKind::Service(_) => self.pass(kind),
            LineKind::Note(_) => self.pass(kind),
            LineKind::End(last) => {
                self.pass(kind)?;
                self.last = Some(*last);
                Ok(())
            }
        }
    }

    /// A line of the header.
    fn tell(&mut self, kind: &LineKind) -> Result<(), Stop>
        requires { is_body kind.now ≡ false }
        ensures taken { OnOk result ((taken : List AKind) (place behind : Place) → IsAt taken place self.old → next place kind.now ≡ Ok behind
            → IsAt (taken ++ kind.now ∷ []) behind self.new) }
        ensures differs { IfErr result (λ stop. stop ≡ stops.NoMemory) }
    {
        self.draft.tell(kind)?;
        Ok(())
    }

    /// A line behind the header.
    fn pass(&mut self, kind: &LineKind) -> Result<(), Stop>
        requires body { is_body kind.now ≡ true }
        requires at { (taken : List AKind) × (place : Place) × (behind : Place) × IsAt taken place self.old × (next place kind.now ≡ Ok behind) }
        ensures passed { OnOk result ((taken : List AKind) (place behind : Place) → IsAt taken place self.old → next place kind.now ≡ Ok behind
            → Passed taken place kind.now self.new) }
        ensures differs { IfErr result (λ stop. (taken : List AKind) (place behind : Place) → IsAt taken place self.old → next place kind.now ≡ Ok behind
            → IsStopAt taken kind.now stop) }
    {
        self.begin()?;
        match &mut self.body {
            Some(body) => body.pass(kind),
            None => Err(Stop::Differs),
        }
    }

    /// Starts the kernels, where the header ends.
    fn begin(&mut self) -> Result<(), Stop>
        requires { (taken : List AKind) × (place : Place) × (behind : Place) × (kind : AKind) × IsAt taken place self.old × (next place kind ≡ Ok behind) × (is_body kind ≡ true) }
        ensures begun { OnOk result ((taken : List AKind) (place behind : Place) (kind : AKind) → IsAt taken place self.old → next place kind ≡ Ok behind → is_body kind ≡ true
            → HasMet taken place kind self.new) }
        ensures differs { IfErr result (λ stop. stop ≡ stops.NoMemory) }
    {
        if self.body.is_none() {
            let setting = self.draft.finish(self.alloc);
            self.body = Some(Body::start(self.alloc, setting)?);
        }
        Ok(())
    }
}
