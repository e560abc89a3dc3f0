//! Commands that read one file.
ghost use Rattle.std.specs.Prelude.{◌≤◌, ℕ, List, length};
ghost use Rattle.lynx_command.specs.Course.{Course, outside, Took, IsOfFile};
ghost use Rattle.lynx_command.specs.Found.{Found, found_of, FindsAt};
ghost use Rattle.lynx_outside.specs.Files.{WereRead};
ghost use Rattle.lynx_outside.specs.Logged.{Read};

use crate::ending::{Output, end_with};
use crate::failure::Failure;
use crate::reading::read_file;
use crate::text::Text;
use lynx_outside::{Files, Sink, Status};
use std::alloc::Global;

/// A command that reads one file: what it finds in the bytes.
pub trait FileCommand {
    /// Its text.
    type Text: Text + Drop;

    /// The most bytes of its file.
    const MOST: u32;

    ghost MOST: { ℕ };

    /// What is found in the bytes of its file.
    ghost finds: { List ℕ → Found → Type 0 };

    /// The text for the bytes of the file, or why there is none. The bytes need not be held until it ends.
    fn find(alloc: Global, bytes: Vec<u8>) -> Result<Output<Self::Text>, Failure>
        requires { length bytes.items ≤ MOST }
        ensures { finds bytes.items (found_of Self.Text.lines_left result) };
}

// What is found in the file of that name.
fn find_at<C: FileCommand, F: Files>(
    alloc: Global,
    name: &str,
    files: &mut F,
) -> Result<Output<C::Text>, Failure>
    ensures { (reads : List Read) × WereRead (F.state files.old) (F.state files.new) reads
        × FindsAt C.finds C.MOST name.now reads (found_of C.Text.lines_left result) }
{
    let bytes = read_file(alloc, name, C::MOST, files)?;
    C::find(alloc, bytes)
}

/// Reads the file of that name, and puts on out what the command finds in it; the line of a failure is put on err. After a put
/// that failed nothing more is put.
pub fn perform_file<C: FileCommand, F: Files, O: Sink, E: Sink>(
    alloc: Global,
    name: &str,
    files: &mut F,
    out: &mut O,
    err: &mut E,
) -> Status
    ensures { (course : Course) × IsOfFile C.finds C.MOST name.now course
        × Took course result (outside (F.state files.old) (O.state out.old) (E.state err.old))
        (outside (F.state files.new) (O.state out.new) (E.state err.new)) }
{
    let found = find_at::<C, F>(alloc, name, files);
    end_with(alloc, name, found, out, err)
}
