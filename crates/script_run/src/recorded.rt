ghost use Rattle.std.specs.Prelude.{◌≡◌, ◌<◌, ◌^◌, ℕ, [], ◌∷◌, All, IfOk, List, OnOk, length, map, nat_eq, not};
ghost use Rattle.charlotte_calls.specs.Setting.{IsValid};
ghost use Rattle.charlotte_calls.specs.declared.names.EndId.{EndId};
ghost use Rattle.charlotte_calls.specs.declared.setting.Setting.{Setting as ASetting};
ghost use Rattle.kernel_nodes.specs.Nodes.{AreNodes};
ghost use Rattle.kernel_world.specs.World.{Calls, start};
ghost use Rattle.script_run.specs.Recorded.{AreReady, Goes, IsCaller, IsTakenFirst, noted_at, sent_from, world_at};

use charlotte_calls::{NoMemory, Setting};
use kernel_nodes::{Nodes, Noted, Request};
use std::alloc::Global;
use written_journal::WrittenJournal;

/// The kernels of a setting, and what was noted at each.
#[derive(Drop)]
pub(crate) struct Recorded {
    pub(crate) nodes: Nodes,
    /// The journals of the kernels, by their numbers.
    pub(crate) journals: Vec<WrittenJournal>,
}

impl Recorded {
    /// The kernels of a setting before any event.
    pub(crate) fn start(alloc: Global, setting: &Setting) -> Result<Recorded, NoMemory>
        requires { IsValid setting.now }
        ensures ready { IfOk result (λ run. AreReady setting.now 0 run) }
        ensures start { IfOk result (λ run. world_at setting.now run ≡ start setting.now) }
        ensures entries { IfOk result (λ run. (k : ℕ) → noted_at run k ≡ []) }
    {
        Ok(Recorded {
            nodes: Nodes::start(alloc, setting)?,
            journals: empty_journals(alloc, setting.kernels)?,
        })
    }

    /// A process that runs makes a call at its home, which is this kernel.
    pub(crate) fn call(&mut self, kernel: u8, request: &Request) -> Result<(), NoMemory>
        requires { (s : ASetting) × (n : ℕ) × (n < 2 ^ 32) × AreReady s n self.old × IsCaller s (world_at s self.old) kernel request.now.p request.now.call }
        ensures { OnOk result ((s : ASetting) → (n : ℕ) → n < 2 ^ 32 → AreReady s n self.old → IsCaller s (world_at s self.old) kernel request.now.p request.now.call
            → (mine : List EndId) × Goes s self.old self.new (Calls kernel request.now.p request.now.call mine ∷ [])) }
    {
        let journal = &mut self.journals[usize::from(kernel)];
        journal.asked(request.p, &request.call)?;
        let Noted { stamp, steps } = self.nodes.ask(kernel, request)?;
        let emptied = journal.note(stamp, steps);
        self.nodes.reuse(kernel, emptied);
        Ok(())
    }

    /// Takes the first packet from one kernel to another, and tells whether there was one.
    pub(crate) fn take_first(&mut self, from: u8, to: u8) -> Result<bool, NoMemory>
        requires { (s : ASetting) × (n : ℕ) × (n < 2 ^ 32) × AreReady s n self.old × (from < s.kernels) × (to < s.kernels) }
        ensures { IfOk result (λ took. (s : ASetting) → (n : ℕ) → n < 2 ^ 32 → AreReady s n self.old → to < s.kernels → IsTakenFirst s from to took self.old self.new) }
    {
        let Some(packet) = self.nodes.first(from, to) else {
            return Ok(false);
        };
        let journal = &mut self.journals[usize::from(to)];
        journal.took(from, packet)?;
        let Noted { stamp, steps } = self.nodes.take_first(from, to)?;
        let emptied = journal.note(stamp, steps);
        self.nodes.reuse(to, emptied);
        Ok(true)
    }

    /// Whether a packet from one kernel to another waits to be taken.
    pub(crate) fn has_sent(&self, from: u8, to: u8) -> bool
        requires { (s : ASetting) × AreNodes s self.now.nodes.nodes.items }
        ensures { result ≡ not (nat_eq (length (sent_from self.now from to)) 0) }
    {
        self.nodes.first(from, to).is_some()
    }

    /// The journals of the kernels. The rest is let go.
    pub(crate) fn into_journals(self) -> Vec<WrittenJournal>
        ensures { map (λ j. j.entries) result.items ≡ map (λ j. j.entries) self.journals.items }
    {
        let Recorded { nodes: _, journals } = self;
        journals
    }
}

fn empty_journals(alloc: Global, kernels: u8) -> Result<Vec<WrittenJournal>, NoMemory>
    ensures count { IfOk result (λ journals. length journals.items ≡ kernels) }
    ensures empty { IfOk result (λ journals. All (λ j. j.entries ≡ []) journals.items) }
{
    let mut journals = Vec::new(alloc);
    for _ in 0..kernels {
        journals.push(WrittenJournal::start(alloc))?;
    }
    Ok(journals)
}
