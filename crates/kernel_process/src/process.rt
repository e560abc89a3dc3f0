ghost use Rattle.std.specs.Prelude.{◌≡◌, ◌<◌, ◌≤◌, ℕ, All, IfOk, OnOk, length, map, slice_index_or};
ghost use Rattle.indexmap.specs.IndexSet.{spare};
ghost use Rattle.kernel_process.specs.Active.{started_ends};
ghost use Rattle.kernel_process.specs.Closing.{HaveSpare, HavePlace};
ghost use Rattle.kernel_process.specs.Fresh.{IsFresh};
ghost use Rattle.kernel_process.specs.Parts.{process_state};
ghost use Rattle.std.specs.Borrow.{sem};
ghost use Rattle.kernel_process.specs.Lending.{LendsBlock};
ghost use Rattle.kernel_process.specs.declared.process.ControlBlock.{ControlBlock};

use charlotte_calls::{Answer, EndId, NoMemory};
use indexmap::IndexSet;
use kernel_step::Phase;
use report_queue::ReportQueue;
use std::alloc::Global;
use std::marker::Model;

/// What a kernel keeps of one of its processes.
#[derive(Drop)]
pub struct ControlBlock {
    pub phase: Phase,
    /// The reports that it was not given yet, oldest first.
    pub reports: ReportQueue,
    /// The answer that it was not given yet.
    pub answer: Option<Answer>,
    /// The ends that it owns on which an activity is started.
    pub active: IndexSet<EndId>,
}

/// The processes of a kernel, by number. Contracts see their list.
#[derive(Drop)]
pub struct Processes {
    blocks: Vec<ControlBlock>,
}

impl Model for Processes {
    ghost use Rattle.std.specs.Prelude.{List};
    ghost use Rattle.kernel_process.specs.declared.process.ControlBlock.{ControlBlock};
    ghost use Rattle.kernel_process.specs.contracts.process.ControlBlock as block;
    ghost use Rattle.std.specs.Coded.{codes};

    ghost Value = { List ControlBlock };

    ghost coded = { Prim.hlevel (codes, block.the_row.coded) };

    ghost view = { λ x. x.blocks.items };
}

impl Processes {
    /// So many processes that have made no call.
    pub fn fresh(alloc: Global, count: usize) -> Result<Processes, NoMemory>
        ensures count { IfOk result (λ ps. length ps ≡ count) }
        ensures fresh { IfOk result (λ ps. All IsFresh ps) }
    {
        let blocks = fresh_blocks(alloc, count)?;
        Ok(Processes { blocks })
    }

    /// Each process gets room for so many reports.
    pub fn reserve_reports(&mut self, most: usize) -> Result<(), NoMemory>
        ensures kept { map process_state self.new ≡ map process_state self.old }
        ensures active { map (λ x. x.active) self.new ≡ map (λ x. x.active) self.old }
        ensures room { OnOk result (HaveSpare most self.new) }
        ensures length { length self.new ≡ length self.old }
    {
        reserve_reports(self.blocks.as_mut_slice(), most)
    }

    /// Each process gets room for one more end with a started activity.
    pub fn reserve_places(&mut self) -> Result<(), NoMemory>
        ensures kept { map process_state self.new ≡ map process_state self.old }
        ensures active { map started_ends self.new ≡ map started_ends self.old }
        ensures room { OnOk result (HavePlace self.new) }
        ensures spare { (n : ℕ) → HaveSpare n self.old → HaveSpare n self.new }
        ensures length { length self.new ≡ length self.old }
    {
        reserve_places(self.blocks.as_mut_slice())
    }

    /// The process of a number.
    pub fn at(&self, number: usize) -> &ControlBlock
        requires { number < length self.now }
        ensures { (other : ControlBlock) → result.now ≡ slice_index_or self.now number other }
    {
        &self.blocks[number]
    }

    /// The process of a number, to be changed.
    pub fn at_mut(&mut self, number: usize) -> &mut ControlBlock
        requires { number < length self.old }
        ensures* lends { sem 𝓛 (LendsBlock self.entry number result) }
        ensures value { (other : ControlBlock) → result.now ≡ slice_index_or self.old number other }
    {
        &mut self.blocks[number]
    }
}

fn fresh_blocks(alloc: Global, count: usize) -> Result<Vec<ControlBlock>, NoMemory>
    ensures count { IfOk result (λ ps. length ps.items ≡ count) }
    ensures fresh { IfOk result (λ ps. All IsFresh ps.items) }
{
    let mut blocks = Vec::with_capacity(alloc, count)?;
    for _number in 0..count {
        blocks.push(fresh_block(alloc))?;
    }
    Ok(blocks)
}

fn fresh_block(alloc: Global) -> ControlBlock
    ensures { IsFresh result }
{
    ControlBlock {
        phase: Phase::Running,
        reports: ReportQueue::new(alloc),
        answer: None,
        active: IndexSet::new(alloc),
    }
}

fn reserve_reports(blocks: &mut [ControlBlock], most: usize) -> Result<(), NoMemory>
    ensures kept { map process_state blocks.new ≡ map process_state blocks.old }
    ensures active { map (λ x. x.active) blocks.new ≡ map (λ x. x.active) blocks.old }
    ensures room { OnOk result (HaveSpare most blocks.new) }
    ensures length { length blocks.new ≡ length blocks.old }
{
    for block in blocks.iter_mut() {
        reserve_reports_of(block, most)?;
    }
    Ok(())
}

fn reserve_reports_of(block: &mut ControlBlock, most: usize) -> Result<(), NoMemory>
    ensures kept { process_state block.new ≡ process_state block.old }
    ensures active { block.new.active ≡ block.old.active }
    ensures room { OnOk result (most ≤ block.new.reports.fits) }
{
    block.reports.reserve(most)?;
    Ok(())
}

fn reserve_places(blocks: &mut [ControlBlock]) -> Result<(), NoMemory>
    ensures kept { map process_state blocks.new ≡ map process_state blocks.old }
    ensures active { map started_ends blocks.new ≡ map started_ends blocks.old }
    ensures reports { map (λ x. x.reports) blocks.new ≡ map (λ x. x.reports) blocks.old }
    ensures room { OnOk result (HavePlace blocks.new) }
    ensures length { length blocks.new ≡ length blocks.old }
{
    for block in blocks.iter_mut() {
        reserve_place_of(block)?;
    }
    Ok(())
}

fn reserve_place_of(block: &mut ControlBlock) -> Result<(), NoMemory>
    ensures kept { process_state block.new ≡ process_state block.old }
    ensures active { started_ends block.new ≡ started_ends block.old }
    ensures reports { block.new.reports ≡ block.old.reports }
    ensures room { OnOk result (1 ≤ spare block.new.active) }
{
    block.active.reserve(1)?;
    Ok(())
}
