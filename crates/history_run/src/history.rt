//! A history, followed line by line.
ghost use Rattle.std.specs.Prelude.{◌≡◌, ◌↔◌, IfOk, IfErr, OnOk, IsTrue, MatchResult};
ghost use Rattle.history_text.specs.Given.{setting_given};
ghost use Rattle.link_service.specs.Service.{state_of};
ghost use Rattle.history_run.specs.Runs.{IsAct, IsOwners};
ghost use Rattle.service_step.specs.Run.{start_state};
ghost use Rattle.history_run.specs.Follow.{state_now, IsNew, IsActFault, IsBeginFault, IsStartFault, IsStepFault, IsFaultOf, Begins, Follows, Makes};

use crate::fault::HistoryFault;
use charlotte_calls::{EndId, NoMemory, Pid, ServiceStep};
use history_text::{Act, Draft};
use link_service::{ApplyFault, Place, Service};
use std::alloc::Global;

/// A history as far as it was followed: what its lines said, and the service after their steps.
#[derive(Drop)]
pub struct History {
    draft: Draft,
    /// Whether a step was told. The service begins with the first.
    begun: bool,
    service: Service,
    /// The place of the step of a line.
    act: Act,
}

impl History {
    /// Before the first line.
    pub fn new(alloc: Global) -> Result<History, NoMemory>
        ensures { IfOk result IsNew }
    {
        let draft = Draft::new(alloc)?;
        let setting = draft.setting(alloc)?;
        let service = Service::start(alloc, &setting)?;
        Ok(History {
            draft,
            begun: false,
            service,
            act: Act {
                owner: None,
                step: ServiceStep::Wait { p: Pid(0) },
            },
        })
    }

    /// Follows the next line. After a fault no line is to be followed any more.
    pub fn line(&mut self, alloc: Global, text: &[u8]) -> Result<(), HistoryFault>
        ensures { MatchResult result (λ _. Follows text.now self.old self.new) (IsFaultOf text.now self.old) }
    {
        if self.draft.read(text, &mut self.act)? {
            return self.step(alloc);
        }
        Ok(())
    }

    /// What the lines said.
    pub fn draft(&self) -> &Draft
        ensures { result.now ≡ self.now.draft }
    {
        &self.draft
    }

    /// The last step that was told.
    pub fn act(&self) -> &Act {
        &self.act
    }

    /// The service after the steps.
    pub fn service(&self) -> &Service {
        &self.service
    }

    /// Where an end is after the lines so far. Where no step was told, the service is started for the answer alone.
    pub fn place(&self, alloc: Global, end: EndId) -> Result<Place, HistoryFault>
        ensures ok { IfOk result (λ p. p ≡ ((state_now self.now.begun self.now.service self.now.draft).ends end).place) }
        ensures fault { IfErr result (IsBeginFault self.now) }
    {
        if self.begun {
            return Ok(self.service.place(end));
        }
        let service = start(alloc, &self.draft)?;
        Ok(service.place(end))
    }

    /// Makes the step that was told.
    fn step(&mut self, alloc: Global) -> Result<(), HistoryFault>
        ensures draft { self.new.draft ≡ self.old.draft }
        ensures ok { OnOk result (Makes self.old self.old.act self.new) }
        ensures fault { IfErr result (IsStepFault self.old self.old.act) }
    {
        self.begin(alloc)?;
        make(&mut self.service, &self.act)?;
        Ok(())
    }

    /// Starts the service, where no step was told before.
    fn begin(&mut self, alloc: Global) -> Result<(), HistoryFault>
        ensures draft { self.new.draft ≡ self.old.draft }
        ensures ok { OnOk result (Begins self.old self.new) }
        ensures fault { IfErr result (IsBeginFault self.old) }
    {
        if self.begun {
            return Ok(());
        }
        self.service = start(alloc, &self.draft)?;
        self.begun = true;
        Ok(())
    }
}

/// The start of the setting that the header tells.
fn start(alloc: Global, draft: &Draft) -> Result<Service, HistoryFault>
    ensures ok { IfOk result (λ s. state_of s ≡ start_state (setting_given draft.now)) }
    ensures fault { IfErr result (IsStartFault (setting_given draft.now)) }
{
    let setting = draft.setting(alloc)?;
    if !setting.valid() {
        return Err(HistoryFault::Form);
    }
    Ok(Service::start(alloc, &setting)?)
}

/// Makes a step where the service allows it, and the process that the line names owns the end.
fn make(service: &mut Service, act: &Act) -> Result<(), ApplyFault>
    ensures ok { OnOk result (IsAct (state_of service.old) act.now (state_of service.new)) }
    ensures fault { IfErr result (IsActFault (state_of service.old) act.now) }
{
    if !is_owners(service, act.owner) {
        return Err(ApplyFault::NotAllowed(0));
    }
    service.apply(&act.step)
}

/// Whether the process that a line names owns the end.
fn is_owners(service: &Service, named: Option<(Pid, EndId)>) -> bool
    ensures { IsTrue result ↔ IsOwners (state_of service.now) named }
{
    match named {
        Some((p, on)) => service.place(on).is_owned_by(p),
        None => true,
    }
}
