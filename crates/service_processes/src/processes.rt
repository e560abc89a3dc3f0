ghost use Rattle.std.specs.Prelude.{◌≡◌, ◌-◌, ◌<◌, ◌↔◌, [], All, IfOk, IsTrue, length, option_copied, slice_get, slice_index_or};
ghost use Rattle.std.specs.Borrow.{sem};
ghost use Rattle.service_step.specs.Run.{new_process, new_processes};
ghost use Rattle.service_step.specs.State.{is_running};
ghost use Rattle.service_processes.specs.Processes.{process_of, process_state, HasProcess};
ghost use Rattle.service_processes.specs.Known.{held_by, active_of};
ghost use Rattle.service_processes.specs.Lending.{LendsBlock};
ghost use Rattle.service_processes.specs.declared.processes.ControlBlock.{ControlBlock};

use crate::KeptReport;
use charlotte_calls::{EndId, NoMemory, Pid};
use indexmap::IndexSet;
use service_step::Phase;
use std::alloc::Global;
use std::collections::VecDeque;
use std::marker::Model;

/// What is kept of a process.
#[derive(Drop)]
pub struct ControlBlock {
    pub phase: Phase,
    /// The reports that it was not given yet, oldest first.
    pub reports: VecDeque<KeptReport>,
    /// The ends that it owns, and perhaps others.
    pub held: IndexSet<EndId>,
    /// The ends that it owns on which an activity is started, and perhaps others.
    pub active: IndexSet<EndId>,
}

/// The processes, by number. Contracts see their list.
#[derive(Drop)]
pub struct Processes {
    blocks: Vec<ControlBlock>,
}

impl Model for Processes {
    ghost use Rattle.std.specs.Prelude.{List};
    ghost use Rattle.service_processes.specs.declared.processes.ControlBlock.{ControlBlock};
    ghost use Rattle.service_processes.specs.contracts.processes.ControlBlock as block;
    ghost use Rattle.std.specs.Coded.{codes};

    ghost Value = { List ControlBlock };

    ghost coded = { Prim.hlevel (codes, block.the_row.coded) };

    ghost view = { λ x. x.blocks.items };
}

impl Processes {
    /// So many processes, which run and have no reports and no ends.
    pub fn fresh(alloc: Global, count: usize) -> Result<Processes, NoMemory>
        ensures processes { IfOk result (λ ps. process_of ps ≡ new_processes count) }
        ensures count { IfOk result (λ ps. length ps ≡ count) }
    {
        let blocks = fresh_blocks(alloc, count)?;
        Ok(Processes { blocks })
    }

    /// What is kept of a process, where there is one.
    #[inline(always)]
    fn at(&self, p: Pid) -> Option<&ControlBlock>
        ensures { option_copied result ≡ slice_get self.now p.0 }
    {
        self.blocks.get(usize::from(p.0))
    }

    /// What is kept of a process, to be changed.
    #[inline(always)]
    pub(crate) fn at_mut(&mut self, number: usize) -> &mut ControlBlock
        requires { number < length self.old }
        ensures* lends { sem 𝓛 (LendsBlock self.entry number result) }
        ensures value { (other : ControlBlock) → result.now ≡ slice_index_or self.old number other }
    {
        &mut self.blocks[number]
    }

    /// What a process is doing; one that is not there is Ended.
    #[inline(always)]
    pub fn phase(&self, p: Pid) -> Phase
        ensures phase { result ≡ (process_of self.now p.0).phase }
        ensures running { IsTrue (is_running result) → HasProcess self.now p }
    {
        match self.at(p) {
            Some(block) => block.phase,
            None => Phase::Ended,
        }
    }

    /// Whether a report of a process stands.
    #[inline(always)]
    pub fn has_report(&self, p: Pid) -> bool
        ensures { IsTrue result ↔ ((process_of self.now p.0).reports ≡ [] → ⊥) }
    {
        self.oldest(p).is_some()
    }

    /// The oldest report of a process, lent.
    #[inline(always)]
    pub fn oldest(&self, p: Pid) -> Option<&KeptReport>
        ensures { option_copied result ≡ slice_get (process_of self.now p.0).reports 0 }
    {
        match self.at(p) {
            Some(block) => block.reports.front(),
            None => None,
        }
    }

    /// The ends that a process owns, and perhaps others, lent.
    #[inline(always)]
    pub fn held(&self, p: Pid) -> &[EndId]
        ensures { result.now ≡ held_by self.now p.0 }
    {
        match self.at(p) {
            Some(block) => block.held.as_slice(),
            None => &[],
        }
    }

    /// The last end on which a process is known to have an activity.
    #[inline(always)]
    pub fn last_active(&self, p: Pid) -> Option<EndId>
        ensures { result ≡ slice_get (active_of self.now p.0) (length (active_of self.now p.0) - 1) }
    {
        match self.at(p) {
            Some(block) => block.active.last().copied(),
            None => None,
        }
    }
}

fn fresh_blocks(alloc: Global, count: usize) -> Result<Vec<ControlBlock>, NoMemory>
    ensures fresh { IfOk result (λ ps. All (λ x. process_state x ≡ new_process) ps.items) }
    ensures count { IfOk result (λ ps. length ps.items ≡ count) }
{
    let mut blocks = Vec::with_capacity(alloc, count)?;
    for _number in 0..count {
        blocks.push(fresh_block(alloc))?;
    }
    Ok(blocks)
}

fn fresh_block(alloc: Global) -> ControlBlock
    ensures { process_state result ≡ new_process }
{
    ControlBlock {
        phase: Phase::Running,
        reports: VecDeque::new(alloc),
        held: IndexSet::new(alloc),
        active: IndexSet::new(alloc),
    }
}
