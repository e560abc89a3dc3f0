//! What takes the bytes of a sink, piece by piece.
ghost use Rattle.std.specs.Prelude.{◌≡◌, ℕ, List, Option, [], ◌∷◌, ◌++◌};
ghost use Rattle.std.specs.Io.{WritesAtMost};
ghost use Rattle.std.specs.Io.KnownBytes.{WriteAppends};
ghost use Rattle.lynx_outside.specs.System.{SystemCall};
ghost use Rattle.lynx_outside.specs.Host.{Asking, writing_of, answer_of_write, failed_by};

use crate::system::{CallLog, CallNote, WriteAnswer};
use std::io::{self, ErrorKind, Write};
use std::marker::Model;

/// What bytes are written to. Its meaning is the bytes that it holds, if it tells them, and each call that it made of the system.
pub trait Writer {
    /// The bytes held, where they are told.
    ghost held: { Self → Option (List ℕ) };

    /// The calls of the system so far, in order.
    ghost calls: { Self → List SystemCall };

    /// Writes the first of the bytes, and answers how many.
    fn write(&mut self, bytes: &[u8]) -> io::Result<usize>
        ensures bound { WritesAtMost result bytes.now }
        ensures bytes { WriteAppends (held self.old) (held self.new) result bytes.now }
        ensures asked { calls self.new ≡ calls self.old ++ writing_of bytes.now result ∷ [] };
}

/// A writer of the host.
#[derive(Drop)]
pub struct HostWriter<W> {
    host: W,
    log: CallLog,
}

impl<W> Model for HostWriter<W> {
    ghost Value = { Asking W };

    ghost view = { λ a. record { host = a.host; calls = a.log.calls } };
}

impl<W: Write> HostWriter<W> {
    /// This writer, which was asked for nothing.
    pub fn of(host: W) -> HostWriter<W>
        ensures { result ≡ record { host = host; calls = [] } }
    {
        HostWriter {
            host,
            log: CallLog::new(),
        }
    }
}

impl<W: Write> Writer for HostWriter<W> {
    ghost held = { λ a. W.contents a.host };

    ghost calls = { λ a. a.calls };

    // That the first line asks the system to write these bytes, and once, is trusted.
    fn write(&mut self, bytes: &[u8]) -> io::Result<usize> {
        let written = self.host.write(bytes);
        self.log = self.log.then(&CallNote::Write(bytes, answer_of(&written)));
        written
    }
}

// What a write answered.
fn answer_of(written: &io::Result<usize>) -> WriteAnswer
    ensures { result ≡ answer_of_write written.now }
{
    match written {
        Ok(count) => WriteAnswer::Took(*count),
        Err(error) => failed_by(error.kind()),
    }
}

// What an error of the system at a write means.
fn failed_by(kind: ErrorKind) -> WriteAnswer
    ensures { result ≡ failed_by kind }
{
    match kind {
        ErrorKind::Interrupted => WriteAnswer::Interrupted,
        _ => WriteAnswer::Failed,
    }
}
