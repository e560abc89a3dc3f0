//! Files and writers of the host.

use crate::sinks::holds;
use lynx_outside::{Failed, FileAnswer, Files, HostFiles, HostSink, Sink};
use std::alloc::Global;
use std::io::{self, Write};
use std::test::Fail;
use std::{env, fs, process};

// Takes one byte at a time, as long as there is room.
#[derive(Drop)]
struct Slow {
    taken: [u8; 4],
    count: usize,
}

impl Write for Slow {
    fn write(&mut self, buf: &[u8]) -> io::Result<usize> {
        let Some(byte) = buf.first() else {
            return Ok(0);
        };
        let Some(place) = self.taken.get_mut(self.count) else {
            return Ok(0);
        };
        *place = *byte;
        self.count = self.count.saturating_add(1);
        Ok(1)
    }

    fn flush(&mut self) -> io::Result<()> {
        Ok(())
    }
}

#[test]
fn writers_take_all_or_fail() -> Result<(), Fail> {
    let mut slow = Slow {
        taken: [0; 4],
        count: 0,
    };
    let mut sink = HostSink::of(&mut slow);
    let puts = [sink.put(b"abc"), sink.put(b"de"), sink.put(b"")];
    let taken = &slow.taken == b"abcd";
    holds(
        taken && puts == [Ok(()), Err(Failed), Ok(())],
        "puts up to and past the room",
    )
}

/// What a read of a file of at most so many bytes gives, in words.
fn read_so<F: Files>(alloc: Global, files: &mut F, path: &str, most: u32) -> &'static str {
    match files.read(alloc, path, most) {
        Ok(bytes) if bytes.as_slice() == b"four".as_slice() => "four",
        Ok(_) => "other bytes",
        Err(FileAnswer::Absent) => "absent",
        Err(FileAnswer::TooBig) => "too big",
        Err(FileAnswer::Failed) => "failed",
        Err(FileAnswer::NoMemory) => "no memory",
    }
}

/// A directory can be opened and not read. One without an end is read to one byte past the most.
#[test]
fn other_files_are_not_read(host: HostRuntime) -> Result<(), Fail> {
    let mut files = HostFiles::of(&host);
    let folder = read_so(host.alloc(), &mut files, "/", 9);
    let endless = read_so(host.alloc(), &mut files, "/dev/zero", 9);
    holds((folder, endless) == ("failed", "too big"), "other files")
}

#[test]
fn files_are_read(host: HostRuntime) -> Result<(), Fail> {
    let alloc = host.alloc();
    let name = format!(in alloc; "lynx-command-{}", process::id(host.process()))?;
    let path = env::temp_dir(&host)?.join(alloc, name.as_str())?;
    let mut files = HostFiles::of(&host);
    let before = read_so(alloc, &mut files, path.as_str(), 9);
    fs::write(&host, path.as_path(), "four")?;
    let whole = read_so(alloc, &mut files, path.as_str(), 4);
    let long = read_so(alloc, &mut files, path.as_str(), 3);
    fs::remove_file(&host, path.as_path())?;
    holds(
        (before, whole, long) == ("absent", "four", "too big"),
        "a file before it is there, whole, and too long",
    )
}
