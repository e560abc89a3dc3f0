//! The file of a command.
ghost use Rattle.std.specs.Prelude.{◌≡◌, ◌∷◌, [], List, ℕ, Result};
ghost use Rattle.lynx_outside.specs.declared.files.FileAnswer.{FileAnswer as AFileAnswer};
ghost use Rattle.lynx_outside.specs.Files.{WereRead};
ghost use Rattle.lynx_command.specs.Found.{read, read_found, bytes_found};

use crate::failure::Failure;
use lynx_outside::Files;
use std::alloc::Global;

/// The most bytes of a script, plan or module.
pub const MOST_BYTES: u32 = 1_048_576;

/// The most bytes of a transcript.
pub const MOST_TRANSCRIPT_BYTES: u32 = 67_108_864;

/// The bytes of a file, where it has at most `most` of them. It is read once.
pub fn read_file<F: Files>(
    alloc: Global,
    name: &str,
    most: u32,
    files: &mut F,
) -> Result<Vec<u8>, Failure>
    ensures { (answer : Result (List ℕ) AFileAnswer)
        × WereRead (F.state files.old) (F.state files.new) (read name.now most answer ∷ [])
        × (bytes_found result ≡ read_found answer) }
{
    let bytes = files.read(alloc, name, most)?;
    Ok(bytes)
}
