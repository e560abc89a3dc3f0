//! The command that lists the code of a module.
ghost use Rattle.std.specs.Prelude.{◌≡◌, ◌≤◌, IfOk, length};
ghost use Rattle.lynx_command.specs.Limits.{most_bytes};
ghost use Rattle.lynx_code.specs.Listing.{module_listing};
ghost use Rattle.lynx_code.specs.Modules.{IsCodeOf};
ghost use Rattle.lynx_command.specs.Course.{Course, outside, Took, IsOfFile};
ghost use Rattle.lynx_run.specs.Code.{Codes};
ghost use Rattle.lynx_syntax.specs.Trees.{ModuleTree};

use charlotte_calls::NoMemory;
use compiler_source::compile_source;
use lynx_code::{Code, listing};
use lynx_command::{End, Failure, FileCommand, HeldText, MOST_BYTES, Output, perform_file};
use lynx_outside::{Files, Sink, Status};
use std::alloc::Global;

/// `code`: the text is the listing of the code of the module of the file.
pub struct CodeCommand;

impl FileCommand for CodeCommand {
    type Text = HeldText;

    const MOST: u32 = MOST_BYTES;

    ghost MOST = { most_bytes };

    ghost finds = { Codes };

    fn find(alloc: Global, bytes: Vec<u8>) -> Result<Output<HeldText>, Failure> {
        let code = compile_source(alloc, bytes.as_slice())?;
        let text = listing_of(alloc, &code)?;
        Ok(Output {
            text: HeldText::of(text),
            end: End::Done,
        })
    }
}

// The listing of code.
fn listing_of(alloc: Global, code: &Code) -> Result<Vec<u8>, NoMemory>
    ensures { (m : ModuleTree) → IsCodeOf m code.now → IfOk result (λ text. text.items ≡ module_listing m) }
{
    match listing(alloc, code) {
        Ok(text) => Ok(text),
        Err(_) => Err(NoMemory),
    }
}

/// Reads the module of a file, and puts the listing of its code on out, one put a line. Where the file is no module, or one that breaks a
/// typing rule or whose code has more than 65,535 instructions, the line of its first fault is put on err.
pub fn code_file<F: Files, O: Sink, E: Sink>(
    alloc: Global,
    name: &str,
    files: &mut F,
    out: &mut O,
    err: &mut E,
) -> Status
    ensures { (course : Course) × IsOfFile Codes most_bytes name.now course
        × Took course result (outside (F.state files.old) (O.state out.old) (E.state err.old))
        (outside (F.state files.new) (O.state out.new) (E.state err.new)) }
{
    perform_file::<CodeCommand, F, O, E>(alloc, name, files, out, err)
}
