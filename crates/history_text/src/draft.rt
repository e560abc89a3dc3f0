//! What the lines of a history said so far.
ghost use Rattle.std.specs.Prelude.{◌≡◌, ℕ, if◌then◌else◌, Some, None, IfOk, OnOk, length, ◌≤◌};
ghost use Rattle.history_text.specs.Given.{Given, nothing, next_given, setting_given, with_link, with_meaning, with_process};
ghost use Rattle.history_text.specs.Lines.{missing_at};
ghost use Rattle.history_text.specs.Names.{look, found, name_at, told, untold};

use crate::meaning::Meaning;
use crate::name::{Name, Sought};
use crate::stage::Stage;
use charlotte_calls::{Items, LinkId, NoMemory, Pid, Setting};
use charlotte_text::Fault;
use indexmap::IndexMap;
use std::alloc::Global;
use std::marker::Model;

/// What the lines of a history said so far: its header, and the names of its links.
#[derive(Drop)]
pub struct Draft {
    stage: Stage,
    version: u8,
    kernels: u8,
    processes: IndexMap<Name, Pid>,
    homes: Vec<u8>,
    wires: Vec<(Pid, Pid)>,
    links: IndexMap<Name, LinkId>,
    made: Vec<u32>,
}

impl Model for Draft {
    ghost Value = { Given };

    ghost view = { λ d. record {
      stage = d.stage;
      version = d.version;
      kernels = d.kernels;
      processes = d.processes.entries;
      homes = d.homes.items;
      wires = d.wires.items;
      links = d.links.entries;
      made = d.made.items;
    } };
}

impl Draft {
    /// Before the first line.
    pub fn new(alloc: Global) -> Result<Draft, NoMemory>
        ensures { IfOk result (λ d. d ≡ nothing) }
    {
        Ok(Draft {
            stage: Stage::Start,
            version: 1,
            kernels: 1,
            processes: IndexMap::new(alloc),
            homes: Vec::new(alloc),
            wires: Vec::new(alloc),
            links: IndexMap::new(alloc),
            made: vec![in alloc; 0; 8]?,
        })
    }

    pub(crate) fn stage(&self) -> Stage
        ensures { result ≡ self.now.stage }
    {
        self.stage
    }

    /// Whether the line stood that says what the text is.
    pub fn has_begun(&self) -> bool
        ensures { (n : ℕ) → missing_at n self.now.stage ≡ (if result then None else Some n) }
    {
        match self.stage {
            Stage::Start => false,
            Stage::Processes | Stage::Wires | Stage::Steps => true,
        }
    }

    pub(crate) fn version(&self) -> u8
        ensures { result ≡ self.now.version }
    {
        self.version
    }

    /// How many processes were told.
    pub(crate) fn processes(&self) -> usize
        ensures { result ≡ length self.now.homes }
    {
        self.homes.len()
    }

    /// How many wires were told.
    pub(crate) fn wires(&self) -> usize
        ensures { result ≡ length self.now.wires }
    {
        self.wires.len()
    }

    /// The process that a word names.
    pub(crate) fn process(&self, word: &[u8]) -> Result<Pid, Fault>
        ensures { result ≡ told self.now.processes word.now }
    {
        match self.process_named(word) {
            Some(p) => Ok(p),
            None => Err(Fault::Form),
        }
    }

    /// The process of a name, where one was told.
    fn process_named(&self, name: &[u8]) -> Option<Pid>
        ensures { result ≡ look self.now.processes name.now }
    {
        self.processes.get(Sought::of(name)).copied()
    }

    /// The link of a name, where one was told.
    pub(crate) fn link_named(&self, name: &[u8]) -> Option<LinkId>
        ensures { result ≡ look self.now.links name.now }
    {
        self.links.get(Sought::of(name)).copied()
    }

    /// A word that is a name and that of no process.
    #[tactic(auto, unfolding(crate::specs::Names::untold))]
    pub(crate) fn new_process(&self, word: &[u8]) -> Result<Name, Fault>
        ensures { result ≡ untold self.now.processes word.now }
    {
        let name = Name::of(word)?;
        if self.process_named(name.as_slice()).is_some() {
            return Err(Fault::Form);
        }
        Ok(name)
    }

    /// A word that is a name and that of no link.
    #[tactic(auto, unfolding(crate::specs::Names::untold))]
    pub(crate) fn new_link(&self, word: &[u8]) -> Result<Name, Fault>
        ensures { result ≡ untold self.now.links word.now }
    {
        let name = Name::of(word)?;
        if self.link_named(name.as_slice()).is_some() {
            return Err(Fault::Form);
        }
        Ok(name)
    }

    /// The next link that the home of a process makes.
    pub(crate) fn next_link(&self, p: Pid) -> Option<LinkId>
        ensures { result ≡ next_given self.now p }
    {
        let home = self.homes.get(usize::from(p.0))?;
        let count = self.made.get(usize::from(*home))?;
        Some(LinkId {
            maker: *home,
            count: *count,
        })
    }

    /// Adds what a line says.
    #[tactic(auto, unfolding(crate::specs::Given::with_meaning))]
    pub(crate) fn add(&mut self, meaning: &Meaning) -> Result<(), NoMemory>
        ensures { OnOk result (self.new ≡ with_meaning self.old meaning.now) }
    {
        match meaning {
            Meaning::Version(version) => {
                self.version = *version;
                self.stage = Stage::Processes;
            }
            Meaning::Process(name, p, home) => self.add_process(name, *p, *home)?,
            Meaning::Wire(name, link, p, q) => {
                self.wires.push((*p, *q))?;
                self.add_link(name, *link)?;
                self.stage = Stage::Wires;
            }
            Meaning::Make(name, link) => {
                self.add_link(name, *link)?;
                self.stage = Stage::Steps;
            }
            Meaning::Step => self.stage = Stage::Steps,
        }
        Ok(())
    }

    #[tactic(auto, unfolding(crate::specs::Given::with_meaning))]
    fn add_process(&mut self, name: &Name, p: Pid, home: u8) -> Result<(), NoMemory>
        ensures { OnOk result (self.new ≡ with_process name.now p home self.old) }
    {
        self.processes.insert(name.copy(), p)?;
        self.homes.push(home)?;
        let kernels = home.checked_add(1).ok_or(NoMemory)?;
        if self.kernels < kernels {
            self.kernels = kernels;
        }
        Ok(())
    }

    fn add_link(&mut self, name: &Name, link: LinkId) -> Result<(), NoMemory>
        ensures { OnOk result (self.new ≡ with_link name.now link self.old) }
    {
        self.links.insert(name.copy(), link)?;
        if let Some(count) = self.made.get_mut(usize::from(link.maker)) {
            *count = count.checked_add(1).ok_or(NoMemory)?;
        }
        Ok(())
    }

    /// The setting of the header.
    pub fn setting(&self, alloc: Global) -> Result<Setting, NoMemory>
        ensures { IfOk result (λ s. s ≡ setting_given self.now) }
    {
        Ok(Setting {
            version: self.version,
            kernels: self.kernels,
            homes: Items::of(self.homes.to_vec(alloc)?),
            wires: Items::of(self.wires.to_vec(alloc)?),
        })
    }

    /// The name of a process.
    pub fn name_of_process(&self, p: Pid) -> &[u8]
        ensures name { result.now ≡ name_at self.now.processes p.0 }
        ensures within { length result.now ≤ 32 }
    {
        match self.processes.get_index(usize::from(p.0)) {
            Some((name, _)) => name.as_slice(),
            None => &[],
        }
    }

    /// The name of a link. It looks at each link that was told.
    pub fn name_of_link(&self, link: LinkId) -> &[u8]
        ensures within { length result.now ≤ 32 }
    {
        for (name, told) in self.links.iter() {
            if *told == link {
                return name.as_slice();
            }
        }
        &[]
    }
}
