//! Files of the host.
ghost use Rattle.std.specs.Prelude.{◌≡◌, ◌↔◌, ◌⊎◌, ◌≤◌, ◌∷◌, ◌++◌, [], None, IfOk, IfSome, length, take};
ghost use Rattle.std.specs.IoError.{error_kind};
ghost use Rattle.lynx_outside.specs.Files.{read_of, answer_of, IsWithin, counted_read};
ghost use Rattle.lynx_outside.specs.Host.{Hosted, ReadsOne, ReadsWhole, refused_by};
ghost use Rattle.lynx_outside.specs.Logged.{Read as Logged};

use crate::faults::raised;
use crate::log::{ReadLog, ReadNote};
use crate::opener::{HostOpener, Opener, refused_by};
use crate::{FileAnswer, Files};
use std::alloc::Global;
use std::io::{ErrorKind, Read};
use std::marker::Model;
use std::{io, rt};

/// Files of an opener. It tells nothing of what they hold.
#[derive(Drop)]
pub struct HostFiles<O> {
    opener: O,
    faults: u64,
    log: ReadLog,
}

impl<O> Model for HostFiles<O> {
    ghost Value = { Hosted O Logged };

    ghost view = { λ a. record { host = a.opener; faults = a.faults; log = a.log.reads } };
}

impl<R: rt::Files> HostFiles<HostOpener<R>> {
    /// The files of this host, without a fault.
    pub fn of(host: R) -> HostFiles<HostOpener<R>>
        ensures { result ≡ record { host = record { host = host; calls = [] }; faults = 0; log = [] } }
    {
        HostFiles {
            opener: HostOpener::of(host),
            faults: 0,
            log: ReadLog::new(),
        }
    }
}

impl<O: Opener> Files for HostFiles<O> {
    ghost state = { λ a. record { contents = None; faults = a.faults; log = a.log } };

    /// Opens the file of that name alone, once, and reads it to its end, or to one byte past `most`.
    fn read(&mut self, alloc: Global, name: &str, most: u32) -> Result<Vec<u8>, FileAnswer>
        ensures opened { ReadsOne (O.calls self.old.host) (O.calls self.new.host) (O.holds self.old.host name.now) (read_of name.now most result) }
        ensures within { IsWithin (read_of name.now most result) }
        ensures counted { self.new.faults ≡ counted_read self.old.faults (answer_of result) }
        ensures logged { self.new.log ≡ self.old.log ++ read_of name.now most result ∷ [] }
    {
        let answer = read_file(alloc, &mut self.opener, name, most);
        if matches!(answer, Err(FileAnswer::Failed)) {
            self.faults = raised(self.faults);
        }
        self.log = self.log.then(&ReadNote {
            name,
            most,
            answer: &answer,
        });
        answer
    }
}

fn read_file<O: Opener>(
    alloc: Global,
    opener: &mut O,
    name: &str,
    most: u32,
) -> Result<Vec<u8>, FileAnswer>
    ensures opened { ReadsOne (O.calls opener.old) (O.calls opener.new) (O.holds opener.old name.now) (read_of name.now most result) }
    ensures within { IsWithin (read_of name.now most result) }
{
    let file = opener.open(name).map_err(answer_to_open)?;
    read_whole(alloc, file, most)
}

// Reads to the end, but no more than one byte past `most`.
fn read_whole<F: Read + Drop>(alloc: Global, file: F, most: u32) -> Result<Vec<u8>, FileAnswer>
    ensures whole { ReadsWhole (F.remaining file) most (answer_of result) }
    ensures within { IfOk result (λ bytes. length bytes.items ≤ most) }
{
    let bytes = read_front(alloc, file, u64::from(most) + 1).map_err(answer_to_read)?;
    if bytes.len() > most as usize {
        return Err(FileAnswer::TooBig);
    }
    Ok(bytes)
}

// The first bytes, as many as `limit`.
fn read_front<F: Read + Drop>(alloc: Global, file: F, limit: u64) -> io::Result<Vec<u8>>
    ensures { IfOk result (λ bytes. IfSome (F.remaining file) (λ held. bytes.items ≡ take limit held)) }
{
    let mut bytes = Vec::new(alloc);
    file.take(limit).read_to_end(&mut bytes)?;
    Ok(bytes)
}

fn answer_to_open(error: io::Error) -> FileAnswer
    ensures { result ≡ refused_by (error_kind error) }
{
    refused_by(error.kind())
}

fn answer_to_read(error: io::Error) -> FileAnswer
    ensures no_memory { (result ≡ FileAnswer.NoMemory) ↔ (error_kind error ≡ ErrorKind.OutOfMemory) }
    ensures failed { (result ≡ FileAnswer.Failed) ⊎ (result ≡ FileAnswer.NoMemory) }
{
    match error.kind() {
        ErrorKind::OutOfMemory => FileAnswer::NoMemory,
        _ => FileAnswer::Failed,
    }
}
