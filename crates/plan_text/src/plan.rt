ghost use Rattle.std.specs.Prelude.{◌≡◌, IfOk};

use charlotte_calls::{Items, NoMemory, Pid, Setting};
use std::alloc::Global;
use std::marker::Model;

/// A plan: its setting, and what each process is.
#[derive(Debug, Drop)]
pub struct Plan {
    /// Its wires are those of the wire lines, and then one from each process that moves to its host, in order of the hosts.
    pub setting: Setting,
    /// The file of each process that runs one, in order of the processes.
    pub files: Items<Name>,
    /// The number of each process line, from 1, in order of the processes.
    pub lines: Items<u32>,
    /// The hosts, in order of the processes.
    pub hosts: Items<Hosting>,
}

/// A process that moves to another.
#[derive(Clone, Copy, Debug, PartialEq, Eq)]
pub struct Hosting {
    /// The process that it moves to, which runs no file.
    pub host: Pid,
    /// The process that moves, which stands before its host.
    pub moved: Pid,
    /// After how many calls of its own it moves.
    pub after: u32,
}

/// The name of a file, as a plan has it: one or more bytes from 33 to 126.
#[derive(Debug, Drop)]
pub struct Name {
    text: String,
}

impl Model for Name {
    ghost use Rattle.std.specs.Prelude.{List, ℕ, string_bytes};

    ghost Value = { List ℕ };

    ghost view = { λ n. string_bytes n.text };
}

impl Name {
    pub(crate) fn of(alloc: Global, text: &str) -> Result<Name, NoMemory>
        ensures { IfOk result (λ name. name ≡ text.now) }
    {
        Ok(Name {
            text: String::from_str(alloc, text)?,
        })
    }

    /// The name.
    pub fn as_str(&self) -> &str
        ensures { result.now ≡ self.now }
    {
        self.text.as_str()
    }
}
