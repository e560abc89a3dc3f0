ghost use Rattle.std.specs.Prelude.{◌≡◌, length};
ghost use Rattle.lynx_plan.specs.Given.{Given, nothing};

use crate::meaning::Meaning;
use crate::script::{Script, ScriptLine};
use crate::stage::Stage;
use charlotte_calls::{Items, NoMemory, Pid, Setting};
use std::alloc::Global;
use std::marker::Model;

/// What the lines of a script said so far. Of a plan it is what its header said.
#[derive(Drop)]
pub struct Draft {
    version: u8,
    kernels: u8,
    homes: Vec<u8>,
    wires: Vec<(Pid, Pid)>,
    lines: Vec<ScriptLine>,
    stage: Stage,
}

impl Model for Draft {
    ghost Value = { Given };

    ghost view = { λ d. record {
      version = d.version;
      kernels = d.kernels;
      homes = d.homes.items;
      wires = d.wires.items;
      lines = d.lines.items;
      stage = d.stage;
    } };
}

impl Draft {
    ghost use Rattle.std.specs.Prelude.{OnOk};
    ghost use Rattle.lynx_plan.specs.Rules.{with_meaning};
    ghost use Rattle.lynx_plan.specs.Reading.{script_given};

    /// Before the first line.
    pub fn new(alloc: Global) -> Draft
        ensures { result ≡ nothing }
    {
        Draft {
            version: 1,
            kernels: 0,
            homes: Vec::new(alloc),
            wires: Vec::new(alloc),
            lines: Vec::new(alloc),
            stage: Stage::Start,
        }
    }

    /// The version, which is 1 where no line said it.
    pub fn version(&self) -> u8
        ensures { result ≡ self.now.version }
    {
        self.version
    }

    /// The number of kernels, and 0 before the line that says it.
    pub fn kernels(&self) -> u8
        ensures { result ≡ self.now.kernels }
    {
        self.kernels
    }

    /// How many processes are declared.
    pub fn processes(&self) -> u64
        ensures { result ≡ length self.now.homes }
    {
        self.homes.len() as u64
    }

    /// How many wires stood.
    pub fn wires(&self) -> usize
        ensures { result ≡ length self.now.wires }
    {
        self.wires.len()
    }

    /// Which lines may follow.
    pub fn stage(&self) -> Stage
        ensures { result ≡ self.now.stage }
    {
        self.stage
    }

    /// Adds what a line says.
    #[tactic(auto, unfolding(crate::specs::Rules::with_meaning))]
    pub fn add(&mut self, line: u32, meaning: Meaning) -> Result<(), NoMemory>
        ensures { OnOk result (self.new ≡ with_meaning line self.old meaning) }
    {
        match meaning {
            Meaning::Version(version) => {
                self.version = version;
                self.stage = Stage::Named;
            }
            Meaning::Kernels(kernels) => {
                self.kernels = kernels;
                self.stage = Stage::Processes;
            }
            Meaning::Process(kernel) => self.homes.push(kernel)?,
            Meaning::Wire(first, second) => {
                self.wires.push((first, second))?;
                self.stage = Stage::Wires;
            }
            Meaning::Line(what) => {
                self.lines.push(ScriptLine { line, what })?;
                self.stage = Stage::Calls;
            }
        }
        Ok(())
    }

    /// The script that the lines spell.
    pub fn into_script(self) -> Script
        ensures { result ≡ script_given self }
    {
        let Draft {
            version,
            kernels,
            homes,
            wires,
            lines,
            stage: _,
        } = self;
        Script {
            setting: Setting {
                version,
                kernels,
                homes: Items::of(homes),
                wires: Items::of(wires),
            },
            lines: Items::of(lines),
        }
    }
}
