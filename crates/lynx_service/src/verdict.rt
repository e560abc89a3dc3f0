//! What is found of a history, and how it is told.
ghost use Rattle.std.specs.Prelude.{◌≡◌, ◌++◌, IfOk, codes};
ghost use Rattle.lynx_service.specs.Service.{failed_by, is_yes, line_place, status_of, verdict_text};

use charlotte_calls::NoMemory;
use charlotte_text::push_number;
use lynx_outside::{FileAnswer, Status};
use std::alloc::Global;

/// What is found of a history, or why nothing is.
#[derive(Drop)]
pub(crate) enum Verdict {
    /// It is one lawful run.
    Yes,
    /// This line has no form in its place.
    Form { line: u32 },
    /// The step of this line is not allowed there.
    No { line: u32, why: Vec<u8> },
    /// The words are not of the form.
    Usage,
    /// The file is not there.
    Absent,
    /// The file was not read.
    ReadFault,
    /// The file has more bytes than it may have.
    TooBig,
    /// There was not memory enough.
    NoMemory,
}

impl Verdict {
    /// A file was not read.
    pub(crate) fn failed(answer: FileAnswer) -> Verdict
        ensures { result ≡ failed_by answer }
    {
        match answer {
            FileAnswer::Absent => Verdict::Absent,
            FileAnswer::TooBig => Verdict::TooBig,
            FileAnswer::Failed => Verdict::ReadFault,
            FileAnswer::NoMemory => Verdict::NoMemory,
        }
    }

    /// Whether the history is one lawful run.
    pub(crate) fn is_yes(&self) -> bool
        ensures { result ≡ is_yes self.now }
    {
        matches!(self, Verdict::Yes)
    }

    /// The status with which the program ends.
    pub(crate) fn status(&self) -> Status
        ensures { result ≡ status_of self.now }
    {
        match self {
            Verdict::Yes => Status::Done,
            Verdict::Form { .. } | Verdict::No { .. } => Status::Refused,
            Verdict::Usage => Status::Usage,
            Verdict::Absent => Status::NoFile,
            Verdict::ReadFault => Status::ReadFault,
            Verdict::TooBig => Status::TooBig,
            Verdict::NoMemory => Status::NoMemory,
        }
    }

    /// The line that tells it, where the file has this name.
    pub(crate) fn text(&self, alloc: Global, name: &str) -> Result<Vec<u8>, NoMemory>
        ensures { IfOk result (λ text. text.items ≡ verdict_text name.now self.now) }
    {
        match self {
            Verdict::Yes => bytes_of(alloc, b"yes\n"),
            Verdict::Form { line } => line_text(
                alloc,
                name,
                *line,
                b"form: no history has this line there\n",
            ),
            Verdict::No { line, why } => no_text(alloc, name, *line, why.as_slice()),
            Verdict::Usage => bytes_of(alloc, b"lynx: usage\n"),
            Verdict::Absent => file_text(alloc, name, b": absent\n"),
            Verdict::ReadFault => file_text(alloc, name, b": read fault\n"),
            Verdict::TooBig => file_text(alloc, name, b": too big\n"),
            Verdict::NoMemory => bytes_of(alloc, b"lynx: no memory\n"),
        }
    }
}

fn bytes_of(alloc: Global, bytes: &[u8]) -> Result<Vec<u8>, NoMemory>
    ensures { IfOk result (λ text. text.items ≡ bytes.now) }
{
    let text = bytes.to_vec(alloc)?;
    Ok(text)
}

/// What the program says of a file.
fn file_text(alloc: Global, name: &str, what: &[u8]) -> Result<Vec<u8>, NoMemory>
    ensures { IfOk result (λ text. text.items ≡ codes "lynx: " ++ name.now ++ what.now) }
{
    let mut text = b"lynx: ".to_vec(alloc)?;
    text.extend_from_slice(name.as_bytes())?;
    text.extend_from_slice(what)?;
    Ok(text)
}

/// What is said of a line of a file.
fn line_text(alloc: Global, name: &str, line: u32, what: &[u8]) -> Result<Vec<u8>, NoMemory>
    ensures { IfOk result (λ text. text.items ≡ line_place name.now line ++ what.now) }
{
    let mut text = name.as_bytes().to_vec(alloc)?;
    text.extend_from_slice(b":")?;
    push_number(&mut text, u64::from(line))?;
    text.extend_from_slice(b": ")?;
    text.extend_from_slice(what)?;
    Ok(text)
}

/// That a step is not allowed there, and why.
fn no_text(alloc: Global, name: &str, line: u32, why: &[u8]) -> Result<Vec<u8>, NoMemory>
    ensures { IfOk result (λ text. text.items ≡ line_place name.now line ++ codes "no: " ++ why.now ++ codes "\n") }
{
    let mut text = line_text(alloc, name, line, b"no: ")?;
    text.extend_from_slice(why)?;
    text.extend_from_slice(b"\n")?;
    Ok(text)
}
