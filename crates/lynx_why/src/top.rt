//! The program's top call.
ghost use Rattle.lynx_command.specs.Course.{Course, Took, outside};
ghost use Rattle.command_words.specs.Words.{one_name};
ghost use Rattle.lynx_why.specs.Why.{Answers};

use crate::command::WhyCommand;
use command_words::one_name;
use lynx_command::{Failure, perform_file, tell};
use lynx_outside::{Files, Sink, Status};
use std::alloc::Global;
use std::collections::VecDeque;

/// Does what the words after the program's name ask for, and gives the status with which the program ends. One word names the file of a
/// transcript: where `audit` accepts it, `yes` is put on out; where `audit` names a line, three lines that tell why are put on out, and that line is
/// told on err. Other words are told not to be of the form.
pub(crate) fn why<F: Files, O: Sink, E: Sink>(
    alloc: Global,
    words: Vec<String>,
    files: &mut F,
    out: &mut O,
    err: &mut E,
) -> Status
    ensures { (course : Course) × Answers (one_name words.items) course
        × Took course result (outside (F.state files.old) (O.state out.old) (E.state err.old))
        (outside (F.state files.new) (O.state out.new) (E.state err.new)) }
{
    match one_name(VecDeque::from(words)) {
        None => tell(alloc, "", Failure::Usage, err),
        Some(file) => perform_file::<WhyCommand, F, O, E>(alloc, file.as_str(), files, out, err),
    }
}
