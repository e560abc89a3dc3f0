//! The command that checks a module.
ghost use Rattle.std.specs.Prelude.{◌≡◌, ◌≤◌, ◌∷◌, [], IfOk, length, map};
ghost use Rattle.lynx_command.specs.Limits.{most_bytes};
ghost use Rattle.lynx_command.specs.Course.{Course, outside, Took, IsOfFile};
ghost use Rattle.lynx_run.specs.Check.{checked_text, Checks};

use charlotte_calls::NoMemory;
use lynx_command::{End, Failure, FileCommand, Lines, MOST_BYTES, Output, perform_file};
use lynx_outside::{Files, Sink, Status};
use lynx_source::check_source;
use std::alloc::Global;

/// `check`: the text is the line `ok NAME` of the module of the file.
pub struct CheckCommand;

impl FileCommand for CheckCommand {
    type Text = Lines;

    const MOST: u32 = MOST_BYTES;

    ghost MOST = { most_bytes };

    ghost finds = { Checks };

    fn find(alloc: Global, bytes: Vec<u8>) -> Result<Output<Lines>, Failure> {
        let checked = check_source(alloc, bytes.as_slice())?;
        let lines = checked_lines(alloc, checked.module().name.as_slice())?;
        Ok(Output {
            text: Lines::of(lines),
            end: End::Done,
        })
    }
}

// The line for a module of this name.
fn checked_lines(alloc: Global, name: &[u8]) -> Result<Vec<Vec<u8>>, NoMemory>
    ensures { IfOk result (λ lines. map (λ l. l.items) lines.items ≡ checked_text name.now ∷ []) }
{
    let mut line = b"ok ".to_vec(alloc)?;
    line.extend_from_slice(name)?;
    line.push(b'\n')?;
    let lines = vec![in alloc; line]?;
    Ok(lines)
}

/// Reads the module of a file, and puts its name on out. Where the file is no module, or one that breaks a typing rule, the line of its
/// first fault is put on err.
pub fn check_file<F: Files, O: Sink, E: Sink>(
    alloc: Global,
    name: &str,
    files: &mut F,
    out: &mut O,
    err: &mut E,
) -> Status
    ensures { (course : Course) × IsOfFile Checks most_bytes name.now course
        × Took course result (outside (F.state files.old) (O.state out.old) (E.state err.old))
        (outside (F.state files.new) (O.state out.new) (E.state err.new)) }
{
    perform_file::<CheckCommand, F, O, E>(alloc, name, files, out, err)
}
