ghost use Rattle.std.specs.Prelude.{◌≡◌, ◌≤◌, length};
ghost use Rattle.plan_text.specs.Given.{PlanGiven, nothing_planned};

use crate::carriers::with_carriers;
use crate::plan::{Hosting, Name, Plan};
use crate::rules::Place;
use charlotte_calls::{Items, NoMemory, Pid};
use lynx_plan::{Draft, Meaning, Script};
use std::alloc::Global;
use std::marker::Model;

/// What the lines of a plan said so far.
#[derive(Drop)]
pub(crate) struct PlanDraft {
    header: Draft,
    files: Vec<Name>,
    lines: Vec<u32>,
    hosts: Vec<Hosting>,
}

impl Model for PlanDraft {
    ghost Value = { PlanGiven };

    ghost view = { λ d. record { header = d.header; files = d.files.items; lines = d.lines.items; hosts = d.hosts.items } };
}

impl PlanDraft {
    ghost use Rattle.std.specs.Prelude.{OnOk, IfOk};
    ghost use Rattle.plan_text.specs.Rules.{with_place, with_header, with_line};
    ghost use Rattle.plan_text.specs.Reading.{plan_given};

    /// Before the first line.
    pub(crate) fn new(alloc: Global) -> PlanDraft
        ensures { result ≡ nothing_planned }
    {
        PlanDraft {
            header: Draft::new(alloc),
            files: Vec::new(alloc),
            lines: Vec::new(alloc),
            hosts: Vec::new(alloc),
        }
    }

    /// What a script's header would have said.
    pub(crate) fn header(&self) -> &Draft
        ensures { result.now ≡ self.now.header }
    {
        &self.header
    }

    pub(crate) fn hosts(&self) -> &[Hosting]
        ensures { result.now ≡ self.now.hosts }
    {
        self.hosts.as_slice()
    }

    /// Adds what a line says.
    pub(crate) fn add(&mut self, line: u32, meaning: Meaning, place: Place) -> Result<(), NoMemory>
        requires { length self.old.header.homes ≤ 64 }
        ensures { OnOk result (self.new ≡ with_line line self.old (meaning, place)) }
    {
        self.add_place(line, place)?;
        self.add_header(line, meaning)
    }

    /// Adds what a line of a script's header would say.
    #[tactic(auto, unfolding(crate::specs::Rules::with_header))]
    fn add_header(&mut self, line: u32, meaning: Meaning) -> Result<(), NoMemory>
        ensures { OnOk result (self.new ≡ with_header line self.old meaning) }
    {
        self.header.add(line, meaning)
    }

    /// Adds what the next process is.
    #[tactic(auto, unfolding(crate::specs::Rules::with_place))]
    fn add_place(&mut self, line: u32, place: Place) -> Result<(), NoMemory>
        requires { length self.old.header.homes ≤ 64 }
        ensures { OnOk result (self.new ≡ with_place line self.old place) }
    {
        match place {
            Place::Plain => return Ok(()),
            Place::Runs(name) => self.files.push(name)?,
            Place::Hosts(moved, after) => {
                let host = Pid(self.header.processes() as u16);
                self.hosts.push(Hosting { host, moved, after })?;
            }
        }
        self.lines.push(line)?;
        Ok(())
    }

    /// The plan that the lines spell.
    pub(crate) fn into_plan(self) -> Result<Plan, NoMemory>
        ensures { IfOk result (λ plan. plan ≡ plan_given self) }
    {
        let PlanDraft {
            header,
            files,
            lines,
            hosts,
        } = self;
        let Script { setting, lines: _ } = header.into_script();
        Ok(Plan {
            setting: with_carriers(setting, hosts.as_slice())?,
            files: Items::of(files),
            lines: Items::of(lines),
            hosts: Items::of(hosts),
        })
    }
}
