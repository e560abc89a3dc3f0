//! The program's top call.
ghost use Rattle.std.specs.Prelude.{◌∷◌, [], ℕ, List, Result, IfOk, ◌≤◌, length};
ghost use Rattle.command_words.specs.Words.{one_name};
ghost use Rattle.lynx_outside.specs.Files.{WereRead, answer_of, read_of};
ghost use Rattle.lynx_outside.specs.declared.files.FileAnswer.{FileAnswer as AFileAnswer};
ghost use Rattle.lynx_service.specs.Service.{Answers, Course, FindsIn, IsOfFile, Took, most_bytes, outside, read_at};

use crate::judging::judged;
use crate::putting::{end_with, tell};
use crate::verdict::Verdict;
use command_words::one_name;
use lynx_outside::{FileAnswer, Files, Sink, Status};
use std::alloc::Global;
use std::collections::VecDeque;

/// The most bytes of a history.
const MOST_BYTES: u32 = 67_108_864;

/// Does what the words after the program's name ask for, and gives the status with which the program ends. One word names the file of a history: where
/// it is one lawful run `yes` is put on out, else the first line where it is not on err. Other words are told not to be of the form.
pub(crate) fn told<F: Files, O: Sink, E: Sink>(
    alloc: Global,
    words: Vec<String>,
    files: &mut F,
    out: &mut O,
    err: &mut E,
) -> Status
    ensures { (course : Course) × Answers (one_name words.items) course
        × Took course result (outside (F.state files.old) (O.state out.old) (E.state err.old))
        (outside (F.state files.new) (O.state out.new) (E.state err.new)) }
{
    match one_name(VecDeque::from(words)) {
        None => tell(alloc, "", Verdict::Usage, err),
        Some(file) => judge_file(alloc, file.as_str(), files, out, err),
    }
}

/// Reads the file of that name, and puts what is found in it.
fn judge_file<F: Files, O: Sink, E: Sink>(
    alloc: Global,
    name: &str,
    files: &mut F,
    out: &mut O,
    err: &mut E,
) -> Status
    ensures { (course : Course) × IsOfFile name.now course
        × Took course result (outside (F.state files.old) (O.state out.old) (E.state err.old))
        (outside (F.state files.new) (O.state out.new) (E.state err.new)) }
{
    let verdict = find_at(alloc, name, files);
    end_with(alloc, name, verdict, out, err)
}

/// What is found in the file of that name.
fn find_at<F: Files>(alloc: Global, name: &str, files: &mut F) -> Verdict
    ensures { (answer : Result (List ℕ) AFileAnswer) × WereRead (F.state files.old) (F.state files.new) (read_at name.now answer ∷ []) × FindsIn answer result }
{
    match read_file(alloc, name, files) {
        Ok(bytes) => judged(alloc, bytes.as_slice()),
        Err(answer) => Verdict::failed(answer),
    }
}

/// The bytes of a history, where it has at most so many. It is read once.
fn read_file<F: Files>(alloc: Global, name: &str, files: &mut F) -> Result<Vec<u8>, FileAnswer>
    ensures read { WereRead (F.state files.old) (F.state files.new) (read_of name.now most_bytes result ∷ []) }
    ensures within { IfOk result (λ bytes. length bytes.items ≤ most_bytes) }
{
    files.read(alloc, name, MOST_BYTES)
}
