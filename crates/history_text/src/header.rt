//! Lines of the header.
ghost use Rattle.std.specs.Prelude.{◌≡◌};
ghost use Rattle.transcript_reading.specs.Forms.{only_of};
ghost use Rattle.history_text.specs.Forms.{version_of, home_of, process_of, wire_of};

use crate::draft::Draft;
use crate::name::Name;
use crate::words::{Words, is_this, read_version};
use charlotte_calls::{LinkId, Pid};
use charlotte_text::{Fault, read_below};

/// The only word, a version.
pub(crate) fn version(mut words: Words<'_>) -> Result<u8, Fault>
    ensures { result ≡ only_of version_of words.entry }
{
    let word = words.next()?;
    let version = read_version(word)?;
    words.finish()?;
    Ok(version)
}

/// `on K`, and 0 where nothing stands.
#[tactic(auto, unfolding(crate::specs::Forms::home_of))]
fn home(mut words: Words<'_>) -> Result<u8, Fault>
    ensures { result ≡ home_of words.entry }
{
    let Some(word) = words.pop() else {
        return Ok(0);
    };
    if !is_this(word, b"on") {
        return Err(Fault::Form);
    }
    let number = words.next()?;
    let home = read_below(number, 8)?;
    words.finish()?;
    Ok(home as u8)
}

impl Draft {
    /// The next process.
    #[tactic(auto, unfolding(crate::specs::Forms::process_of))]
    pub(crate) fn process_told(&self, mut words: Words<'_>) -> Result<(Name, Pid, u8), Fault>
        ensures { result ≡ process_of self.now words.entry }
    {
        let word = words.next()?;
        let name = self.new_process(word)?;
        let home = home(words)?;
        let processes = self.processes();
        if processes < 64 {
            Ok((name, Pid(processes as u16), home))
        } else {
            Err(Fault::Form)
        }
    }

    /// A link from the start.
    #[tactic(auto, unfolding(crate::specs::Forms::wire_of))]
    pub(crate) fn wire_told(&self, mut words: Words<'_>) -> Result<(Name, LinkId, Pid, Pid), Fault>
        ensures { result ≡ wire_of self.now words.entry }
    {
        let first = words.next()?;
        let p = self.process(first)?;
        let second = words.next()?;
        let q = self.process(second)?;
        words.this(b"as")?;
        let word = words.next()?;
        let name = self.new_link(word)?;
        words.finish()?;
        let Some(link) = self.next_link(p) else {
            return Err(Fault::Form);
        };
        if self.wires() < 4096 {
            Ok((name, link, p, q))
        } else {
            Err(Fault::Form)
        }
    }
}
