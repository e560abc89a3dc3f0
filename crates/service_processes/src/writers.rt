//! What the steps do with the processes: each writer makes of them what its word makes of them, and what is known of their ends
//! stays.
ghost use Rattle.std.specs.Prelude.{◌≡◌, ◌++◌, OnOk, OnErr, length, option_to_list};
ghost use Rattle.service_step.specs.State.{turns, gains, given, later, ends_process, wakes};
ghost use Rattle.service_processes.specs.Processes.{process_of, process_state, HasProcess, HasRoom, HasRoomFor};
ghost use Rattle.service_processes.specs.Known.{known_of};
ghost use Rattle.service_step.specs.declared.state.Phase.TheVariants.{Running};

use crate::{ControlBlock, KeptReport, Processes};
use charlotte_calls::{EndId, NoMemory, Pid};
use service_step::Phase;

impl Processes {
    /// A process goes on to a phase.
    #[inline(always)]
    #[tactic(auto, unfolding(service_step::specs::State::turns))]
    pub fn turn(&mut self, p: Pid, phase: Phase)
        requires { HasProcess self.old p }
        ensures process { process_of self.new ≡ turns p phase (process_of self.old) }
        ensures known { known_of self.new ≡ known_of self.old }
        ensures count { length self.new ≡ length self.old }
    {
        let block = self.at_mut(usize::from(p.0));
        block.phase = phase;
    }

    /// A process gains reports, at most two, behind those that it has. After want of memory it has gained none.
    #[inline(always)]
    #[tactic(auto, unfolding(service_step::specs::State::gains))]
    pub fn gain(
        &mut self,
        p: Pid,
        first: Option<KeptReport>,
        second: Option<KeptReport>,
    ) -> Result<(), NoMemory>
        requires { HasProcess self.old p }
        ensures ok { OnOk result (process_of self.new ≡ gains p (option_to_list first ++ option_to_list second) (process_of self.old)) }
        ensures err { OnErr result (process_of self.new ≡ process_of self.old) }
        ensures known { known_of self.new ≡ known_of self.old }
        ensures count { length self.new ≡ length self.old }
    {
        let block = self.at_mut(usize::from(p.0));
        gain_reports(block, first, second)?;
        Ok(())
    }

    /// Room is made for one report more of a process. After want of memory nothing has changed.
    #[inline(always)]
    pub fn reserve(&mut self, p: Pid) -> Result<(), NoMemory>
        requires { HasProcess self.old p }
        ensures process { process_of self.new ≡ process_of self.old }
        ensures known { known_of self.new ≡ known_of self.old }
        ensures count { length self.new ≡ length self.old }
        ensures room { OnOk result (HasRoomFor self.new p) }
    {
        let block = self.at_mut(usize::from(p.0));
        reserve_report(block)?;
        Ok(())
    }

    /// A process gains a report, where there is one, for which room was made, behind those that it has.
    #[inline(always)]
    #[tactic(auto, unfolding(service_step::specs::State::gains))]
    fn gain_reserved(&mut self, p: Pid, report: Option<KeptReport>)
        requires there { HasProcess self.old p }
        requires room { HasRoomFor self.old p }
        ensures process { process_of self.new ≡ gains p (option_to_list report) (process_of self.old) }
        ensures known { known_of self.new ≡ known_of self.old }
        ensures count { length self.new ≡ length self.old }
    {
        let block = self.at_mut(usize::from(p.0));
        keep_report(block, report);
    }

    /// A process is given its oldest report, and runs.
    #[inline(always)]
    #[tactic(auto, unfolding(service_step::specs::State::given))]
    pub fn give(&mut self, p: Pid)
        requires { HasProcess self.old p }
        ensures process { process_of self.new ≡ given p (process_of self.old) }
        ensures known { known_of self.new ≡ known_of self.old }
        ensures count { length self.new ≡ length self.old }
    {
        let block = self.at_mut(usize::from(p.0));
        give_report(block);
    }

    /// A process ends, and has no reports.
    #[tactic(auto, unfolding(service_step::specs::State::ends_process))]
    pub fn end(&mut self, p: Pid)
        requires { HasProcess self.old p }
        ensures process { process_of self.new ≡ ends_process p (process_of self.old) }
        ensures known { known_of self.new ≡ known_of self.old }
        ensures count { length self.new ≡ length self.old }
    {
        let block = self.at_mut(usize::from(p.0));
        block.phase = Phase::Ended;
        block.reports.clear();
    }

    /// A process runs again where it is in a Cancel of the receive on this end.
    #[inline(always)]
    #[tactic(auto, unfolding(service_step::specs::State::wakes))]
    pub fn wake(&mut self, p: Pid, e: EndId)
        requires { HasProcess self.old p }
        ensures process { process_of self.new ≡ wakes p e (process_of self.old) }
        ensures known { known_of self.new ≡ known_of self.old }
        ensures count { length self.new ≡ length self.old }
    {
        if self.phase(p).is_cancelling(e) {
            self.turn(p, Phase::Running);
        }
    }

    /// A process gains reports, at most two, and runs again where it is in a Cancel of the receive on this end. After want of
    /// memory nothing has changed for it.
    #[inline(always)]
    pub fn tell(
        &mut self,
        p: Pid,
        e: EndId,
        first: Option<KeptReport>,
        second: Option<KeptReport>,
    ) -> Result<(), NoMemory>
        requires { HasProcess self.old p }
        ensures ok { OnOk result (process_of self.new ≡ wakes p e (gains p (option_to_list first ++ option_to_list second) (process_of self.old))) }
        ensures err { OnErr result (process_of self.new ≡ process_of self.old) }
        ensures known { known_of self.new ≡ known_of self.old }
        ensures count { length self.new ≡ length self.old }
    {
        self.gain(p, first, second)?;
        self.wake(p, e);
        Ok(())
    }

    /// A process gains a report, where there is one, for which room was made, and runs again where it is in a Cancel of the receive
    /// on this end.
    #[inline(always)]
    pub fn tell_reserved(&mut self, p: Pid, e: EndId, report: Option<KeptReport>)
        requires there { HasProcess self.old p }
        requires room { HasRoomFor self.old p }
        ensures process { process_of self.new ≡ wakes p e (gains p (option_to_list report) (process_of self.old)) }
        ensures known { known_of self.new ≡ known_of self.old }
        ensures count { length self.new ≡ length self.old }
    {
        self.gain_reserved(p, report);
        self.wake(p, e);
    }
}

fn reserve_report(block: &mut ControlBlock) -> Result<(), NoMemory>
    ensures process { process_state block.new ≡ process_state block.old }
    ensures held { block.new.held ≡ block.old.held }
    ensures active { block.new.active ≡ block.old.active }
    ensures room { OnOk result (HasRoom block.new) }
{
    block.reports.reserve(1)?;
    Ok(())
}

#[inline(always)]
fn keep_report(block: &mut ControlBlock, report: Option<KeptReport>)
    requires { HasRoom block.old }
    ensures reports { block.new.reports.items ≡ block.old.reports.items ++ option_to_list report }
    ensures phase { block.new.phase ≡ block.old.phase }
    ensures held { block.new.held ≡ block.old.held }
    ensures active { block.new.active ≡ block.old.active }
{
    if let Some(report) = report {
        block.reports.push_back_reserved(report);
    }
}

#[inline(always)]
fn gain_reports(
    block: &mut ControlBlock,
    first: Option<KeptReport>,
    second: Option<KeptReport>,
) -> Result<(), NoMemory>
    ensures ok { OnOk result (block.new.reports.items ≡ block.old.reports.items ++ (option_to_list first ++ option_to_list second)) }
    ensures err { OnErr result (block.new.reports.items ≡ block.old.reports.items) }
    ensures phase { block.new.phase ≡ block.old.phase }
    ensures held { block.new.held ≡ block.old.held }
    ensures active { block.new.active ≡ block.old.active }
{
    block.reports.reserve(2)?;
    if let Some(report) = first {
        block.reports.push_back_reserved(report);
    }
    if let Some(report) = second {
        block.reports.push_back_reserved(report);
    }
    Ok(())
}

#[inline(always)]
fn give_report(block: &mut ControlBlock)
    ensures phase { block.new.phase ≡ Running }
    ensures reports { block.new.reports.items ≡ later block.old.reports.items }
    ensures held { block.new.held ≡ block.old.held }
    ensures active { block.new.active ≡ block.old.active }
{
    let _given = block.reports.pop_front();
    block.phase = Phase::Running;
}
