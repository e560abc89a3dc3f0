//! Files that are read whole, by their names.
ghost use Rattle.std.specs.Prelude.{◌≡◌, ◌∷◌, [], ◌++◌, IfSome};
ghost use Rattle.lynx_outside.specs.declared.files.FileAnswer.TheVariants.{NoMemory};
ghost use Rattle.lynx_outside.specs.Files.{Source, read_of, answer_of, Reads, IsWithin, counted_read};

use std::alloc::{AllocError, Global};

/// Why a read gave no bytes.
#[derive(Clone, Copy, Debug, PartialEq, Eq)]
pub enum FileAnswer {
    /// There is no file of that name.
    Absent,
    /// The file has more bytes than were asked for.
    TooBig,
    /// The source failed, and counts a fault more.
    Failed,
    /// There was not memory enough.
    NoMemory,
}

impl From<AllocError> for FileAnswer {
    ghost from_gives = { λ _ e. e ≡ NoMemory };

    fn from(_error: AllocError) -> FileAnswer {
        FileAnswer::NoMemory
    }
}

/// A source of files that are read whole. Its meaning is what it tells of them, if it tells anything, its count of
/// faults, which never falls, and its log, which takes no memory.
pub trait Files {
    /// The files by their names, each with its bytes, where the source tells them; how many reads have failed, up to
    /// the greatest u64; each read so far with its answer, in order.
    ghost state: { Self → Source };

    /// Reads the file of that name, where it has at most `most` bytes. Where a name stands twice, its first
    /// bytes count.
    fn read(&mut self, alloc: Global, name: &str, most: u32) -> Result<Vec<u8>, FileAnswer>
        // No read changes the files, nor whether they are told.
        ensures same { (state self.new).contents ≡ (state self.old).contents }

        ensures told { IfSome (state self.old).contents (λ files. Reads files (read_of name.now most result)) }
        ensures within { IsWithin (read_of name.now most result) }
        ensures counted { (state self.new).faults ≡ counted_read (state self.old).faults (answer_of result) }
        ensures logged { (state self.new).log ≡ (state self.old).log ++ read_of name.now most result ∷ [] };
}
