//! A sink over a writer of the host.
ghost use Rattle.std.specs.Prelude.{◌≡◌, ◌<◌, ◌≤◌, [], ◌∷◌, ◌++◌, None, IfOk, if◌then◌else◌, length};
ghost use Rattle.std.specs.Io.KnownBytes.{WriteAppends};
ghost use Rattle.lynx_outside.specs.Logged.{Put};
ghost use Rattle.lynx_outside.specs.Sink.{put_of, counted_put};
ghost use Rattle.std.specs.IoError.{error_kind};
ghost use Rattle.lynx_outside.specs.Host.{Hosted, Writes, failed_by};
ghost use Rattle.lynx_outside.specs.Writing.{PutsBy, Made, begun, left_of};

use crate::faults::raised;
use crate::log::{PutLog, PutNote};
use crate::system::WriteAnswer;
use crate::writer::{HostWriter, Writer};
use crate::{Failed, Sink};
use std::io::{self, ErrorKind, Write};
use std::marker::Model;

/// A sink over a writer. It tells nothing of what the writer does with the bytes.
#[derive(Drop)]
pub struct HostSink<O> {
    writer: O,
    faults: u64,
    log: PutLog,
}

impl<O> Model for HostSink<O> {
    ghost Value = { Hosted O Put };

    ghost view = { λ a. record { host = a.writer; faults = a.faults; log = a.log.puts } };
}

impl<W: Write> HostSink<HostWriter<W>> {
    /// A sink over this writer, without a fault.
    pub fn of(writer: W) -> HostSink<HostWriter<W>>
        ensures { result ≡ record { host = record { host = writer; calls = [] }; faults = 0; log = [] } }
    {
        HostSink {
            writer: HostWriter::of(writer),
            faults: 0,
            log: PutLog::new(),
        }
    }
}

impl<O: Writer> Sink for HostSink<O> {
    ghost state = { λ a. record { held = None; faults = a.faults; log = a.log } };

    /// Writes what is left, again and again, until nothing is. A write that fails or takes nothing is the last one, and a fault.
    fn put(&mut self, bytes: &[u8]) -> Result<(), Failed>
        ensures written { Writes (O.held self.old.host) (O.held self.new.host) bytes.now result }
        ensures asked { PutsBy (O.calls self.old.host) (O.calls self.new.host) (put_of bytes.now result) }
        ensures counted { self.new.faults ≡ counted_put self.old.faults (put_of bytes.now result) }
        ensures logged { self.new.log ≡ self.old.log ++ put_of bytes.now result ∷ [] }
    {
        let result = write_whole(&mut self.writer, bytes);
        if result.is_err() {
            self.faults = raised(self.faults);
        }
        self.log = self.log.then(&PutNote {
            bytes,
            taken: result.is_ok(),
        });
        result
    }
}

// Writes piece by piece.
fn write_whole<O: Writer>(writer: &mut O, bytes: &[u8]) -> Result<(), Failed>
    ensures written { Writes (O.held writer.old) (O.held writer.new) bytes.now result }
    ensures asked { PutsBy (O.calls writer.old) (O.calls writer.new) (put_of bytes.now result) }
{
    let mut rest = bytes;
    while !rest.is_empty() {
        let taken = write_piece(writer, rest)?;
        rest = &rest[taken..];
    }
    Ok(())
}

// Writes at least one byte. A write that was interrupted is tried again, up to the greatest u64 of times.
fn write_piece<O: Writer>(writer: &mut O, bytes: &[u8]) -> Result<usize, Failed>
    requires { 0 < length bytes.now }
    ensures more { IfOk result (λ taken. 0 < taken) }
    ensures within { IfOk result (λ taken. taken ≤ length bytes.now) }
    ensures written { WriteAppends (O.held writer.old) (O.held writer.new) result bytes.now }
    ensures asked { Made (O.calls writer.old) (O.calls writer.new) (begun bytes.now) (left_of bytes.now result) }
{
    for _ in 0..u64::MAX {
        match writer.write(bytes) {
            Ok(0) => return Err(Failed),
            Ok(taken) => return Ok(taken),
            Err(error) if is_interrupted(&error) => {}
            Err(_) => return Err(Failed),
        }
    }
    Err(Failed)
}

fn is_interrupted(error: &io::Error) -> bool
    ensures { failed_by (error_kind error.now) ≡ if result then WriteAnswer.Interrupted else WriteAnswer.Failed }
{
    matches!(error.kind(), ErrorKind::Interrupted)
}
