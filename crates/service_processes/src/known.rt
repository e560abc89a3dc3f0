//! What is known of the ends of processes: an end is learned before it comes to a process, and forgotten after it left.
ghost use Rattle.std.specs.Prelude.{◌≡◌, false, All, OnOk, IsTrue, length, if◌then◌else◌};
ghost use Rattle.std.specs.List.{list_any};
ghost use Rattle.charlotte_calls.specs.declared.names.EndId.{EndId};
ghost use Rattle.service_step.specs.Ends.{end_eq};
ghost use Rattle.service_processes.specs.Processes.{process_of, process_state, HasProcess};
ghost use Rattle.service_processes.specs.Known.{known_of, active_of, IsKnown, Grows, Forgets, LosesLast};

use crate::{ControlBlock, Processes};
use charlotte_calls::{EndId, NoMemory, Pid};
use indexmap::IndexSet;

impl Processes {
    /// An end is noted among those of a process, also as one with an activity. After want of memory it may be noted.
    pub fn learn(&mut self, p: Pid, e: EndId) -> Result<(), NoMemory>
        requires { HasProcess self.old p }
        ensures process { process_of self.new ≡ process_of self.old }
        ensures count { length self.new ≡ length self.old }
        ensures grows { Grows (known_of self.old) (known_of self.new) }
        ensures known { OnOk result (IsKnown (known_of self.new) p e) }
    {
        let block = self.at_mut(usize::from(p.0));
        note(block, e)?;
        Ok(())
    }

    /// An end is noted among those of a process. After want of memory nothing has changed.
    pub fn hold(&mut self, p: Pid, e: EndId) -> Result<(), NoMemory>
        requires { HasProcess self.old p }
        ensures process { process_of self.new ≡ process_of self.old }
        ensures count { length self.new ≡ length self.old }
        ensures grows { Grows (known_of self.old) (known_of self.new) }
        ensures known { OnOk result (IsTrue ((known_of self.new).held p.0 e)) }
    {
        let block = self.at_mut(usize::from(p.0));
        note_held(block, e)?;
        Ok(())
    }

    /// An end is noted among those of a process with an activity. After want of memory nothing has changed.
    pub fn activate(&mut self, p: Pid, e: EndId) -> Result<(), NoMemory>
        requires { HasProcess self.old p }
        ensures process { process_of self.new ≡ process_of self.old }
        ensures count { length self.new ≡ length self.old }
        ensures grows { Grows (known_of self.old) (known_of self.new) }
        ensures known { OnOk result (IsTrue ((known_of self.new).active p.0 e)) }
    {
        let block = self.at_mut(usize::from(p.0));
        note_active(block, e)?;
        Ok(())
    }

    /// Each of these ends is noted among those of a process, also as one with an activity. After want of memory some of them may be
    /// noted.
    pub fn learn_each(&mut self, p: Pid, ends: &[EndId]) -> Result<(), NoMemory>
        requires { HasProcess self.old p }
        ensures process { process_of self.new ≡ process_of self.old }
        ensures count { length self.new ≡ length self.old }
        ensures grows { Grows (known_of self.old) (known_of self.new) }
        ensures known { OnOk result (All (IsKnown (known_of self.new) p) ends.now) }
    {
        match ends {
            [] => Ok(()),
            [first, others @ ..] => {
                self.learn(p, *first)?;
                self.learn_each(p, others)
            }
        }
    }

    /// An end is no more among those of a process.
    pub fn forget(&mut self, p: Pid, e: EndId)
        requires { HasProcess self.old p }
        ensures process { process_of self.new ≡ process_of self.old }
        ensures count { length self.new ≡ length self.old }
        ensures forgets { Forgets p e (known_of self.old) (known_of self.new) }
    {
        let block = self.at_mut(usize::from(p.0));
        remove(&mut block.held, e);
        remove(&mut block.active, e);
    }

    /// This end, the last on which a process is known to have an activity, is no more among those with one.
    pub fn forget_last_active(&mut self, p: Pid)
        requires { HasProcess self.old p }
        ensures process { process_of self.new ≡ process_of self.old }
        ensures count { length self.new ≡ length self.old }
        ensures loses { LosesLast p self.old self.new }
    {
        let block = self.at_mut(usize::from(p.0));
        let _last = block.active.pop();
    }
}

/// Notes an end among those of a process, also as one with an activity.
fn note(block: &mut ControlBlock, e: EndId) -> Result<(), NoMemory>
    ensures process { process_state block.new ≡ process_state block.old }
    ensures held { (q : EndId) → IsTrue (list_any (end_eq q) block.old.held.keys) → IsTrue (list_any (end_eq q) block.new.held.keys) }
    ensures active { (q : EndId) → IsTrue (list_any (end_eq q) block.old.active.keys) → IsTrue (list_any (end_eq q) block.new.active.keys) }
    ensures noted_held { OnOk result (IsTrue (list_any (end_eq e) block.new.held.keys)) }
    ensures noted_active { OnOk result (IsTrue (list_any (end_eq e) block.new.active.keys)) }
{
    note_held(block, e)?;
    note_active(block, e)?;
    Ok(())
}

/// Notes an end among those of a process.
fn note_held(block: &mut ControlBlock, e: EndId) -> Result<(), NoMemory>
    ensures process { process_state block.new ≡ process_state block.old }
    ensures held { (q : EndId) → IsTrue (list_any (end_eq q) block.old.held.keys) → IsTrue (list_any (end_eq q) block.new.held.keys) }
    ensures active { block.new.active ≡ block.old.active }
    ensures noted { OnOk result (IsTrue (list_any (end_eq e) block.new.held.keys)) }
{
    add(&mut block.held, e)?;
    Ok(())
}

/// Notes an end among those of a process with an activity.
fn note_active(block: &mut ControlBlock, e: EndId) -> Result<(), NoMemory>
    ensures process { process_state block.new ≡ process_state block.old }
    ensures held { block.new.held ≡ block.old.held }
    ensures active { (q : EndId) → IsTrue (list_any (end_eq q) block.old.active.keys) → IsTrue (list_any (end_eq q) block.new.active.keys) }
    ensures noted { OnOk result (IsTrue (list_any (end_eq e) block.new.active.keys)) }
{
    add(&mut block.active, e)?;
    Ok(())
}

/// Adds an end to a set, whose ends stay.
#[tactic(auto, unfolding(service_step::specs::Ends::end_eq))]
fn add(ends: &mut IndexSet<EndId>, e: EndId) -> Result<(), NoMemory>
    ensures stay { (q : EndId) → IsTrue (list_any (end_eq q) ends.old.keys) → IsTrue (list_any (end_eq q) ends.new.keys) }
    ensures added { OnOk result (IsTrue (list_any (end_eq e) ends.new.keys)) }
{
    ends.insert(e)?;
    Ok(())
}

/// Takes an end out of a set, whose other ends stay.
#[tactic(auto, unfolding(service_step::specs::Ends::end_eq))]
fn remove(ends: &mut IndexSet<EndId>, e: EndId)
    ensures { (q : EndId) → list_any (end_eq q) ends.new.keys ≡ (if end_eq e q then false else list_any (end_eq q) ends.old.keys) }
{
    ends.swap_remove(&e);
}
