//! What opens files by their names, one after the other.
ghost use Rattle.std.specs.Prelude.{◌≡◌, ℕ, List, Option, None, Some, [], ◌∷◌, ◌++◌, IfOk, IfSome};
ghost use Rattle.lynx_outside.specs.System.{SystemCall};
ghost use Rattle.lynx_outside.specs.Host.{Asking, opening_of, refusal_of, refused_by};

use crate::FileAnswer;
use crate::system::{CallLog, CallNote};
use std::io::{ErrorKind, Read};
use std::marker::Model;
use std::{fs, io, rt};

/// What opens files to be read. Its meaning is each call that it made of the system, and what files hold.
pub trait Opener {
    /// An open file.
    type File: Read + Drop;

    /// The calls of the system so far, in order.
    ghost calls: { Self → List SystemCall };

    /// The bytes that reads of a file give that is opened now by a name, where they are told.
    ghost holds: { Self → List ℕ → Option (List ℕ) };

    /// Opens the file of a name.
    fn open(&mut self, name: &str) -> io::Result<Self::File>
        ensures asked { calls self.new ≡ calls self.old ++ opening_of name.now result ∷ [] }
        ensures held { IfOk result (λ file. IfSome (holds self.old name.now) (λ bytes. Self.File.remaining file ≡ Some bytes)) };
}

/// The opener of a host. It tells nothing of what files hold.
#[derive(Drop)]
pub struct HostOpener<R> {
    host: R,
    log: CallLog,
}

impl<R> Model for HostOpener<R> {
    ghost Value = { Asking R };

    ghost view = { λ a. record { host = a.host; calls = a.log.calls } };
}

impl<R: rt::Files> HostOpener<R> {
    /// The opener of this host, which was asked for nothing.
    pub fn of(host: R) -> HostOpener<R>
        ensures { result ≡ record { host = host; calls = [] } }
    {
        HostOpener {
            host,
            log: CallLog::new(),
        }
    }
}

impl<R: rt::Files> Opener for HostOpener<R> {
    type File = R::File;

    ghost calls = { λ a. a.calls };

    ghost holds = { λ _ _. None };

    // That the first line asks the system for the file of this name, and once, is trusted.
    fn open(&mut self, name: &str) -> io::Result<R::File> {
        let opened = fs::open(&self.host, name);
        self.log = self.log.then(&CallNote::Open(name, refusal(&opened)));
        opened
    }
}

// Why a file was not opened, if it was not.
fn refusal<F>(opened: &io::Result<F>) -> Option<FileAnswer>
    ensures { result ≡ refusal_of opened.now }
{
    match opened {
        Ok(_) => None,
        Err(error) => Some(refused_by(error.kind())),
    }
}

/// What an error of the system at an opening means for a read.
pub fn refused_by(kind: ErrorKind) -> FileAnswer
    ensures { result ≡ refused_by kind }
{
    match kind {
        ErrorKind::NotFound => FileAnswer::Absent,
        ErrorKind::OutOfMemory => FileAnswer::NoMemory,
        _ => FileAnswer::Failed,
    }
}
