//! Why a command was not done: the text on err and the status.
ghost use Rattle.std.specs.Prelude.{◌≡◌, ◌++◌, IfOk, codes};
ghost use Rattle.charlotte_text.specs.Spelling.{number_text};
ghost use Rattle.lynx_command.specs.declared.failure.Failure.TheVariants as failures;
ghost use Rattle.lynx_command.specs.Failures.{failure_of_file, failure_of_source, line_place, place_text};

use charlotte_calls::NoMemory;
use charlotte_text::push_number;
use lynx_outside::{FileAnswer, Status, WordsFault};
use lynx_plan::PlanFault;
use lynx_source::{Place, SourceFault};
use std::alloc::Global;

/// Why a command was not done.
#[derive(Clone, Copy, Debug, PartialEq, Eq)]
pub enum Failure {
    /// The words are not of the form.
    Usage,
    /// The file was not read.
    ReadFault,
    /// The file is not there.
    Absent,
    /// The file has more bytes than it may have.
    TooBig,
    /// The module has this lexical fault; it stands at the first byte of its token.
    Lex { at: Place, no: u8 },
    /// The module leaves the grammar at this token.
    Syntax { at: Place },
    /// The module is nested too deeply at this token.
    Deep { at: Place },
    /// The module breaks a typing rule at this token.
    Rule { at: Place, rule: u8 },
    /// The code of the module is too long.
    CodeTooLong,
    /// A line of the plan breaks a rule.
    Plan { line: u32, rule: u8 },
    /// A line of the script breaks a rule.
    Script { line: u32, rule: u8 },
    /// A line of the transcript can't stand there, or differs from what the kernels and the service give.
    NoTranscript { line: u32 },
    /// The command is not built yet.
    Unbuilt,
    /// There was not memory enough.
    NoMemory,
}

impl Failure {
    ghost use Rattle.lynx_command.specs.Failures.{status_of, failure_text, failure_of_script, failure_of_plan, failure_of_words};

    /// Why the words were not read. Words that are not text are not of the form of a command.
    pub fn of_words(fault: WordsFault) -> Failure
        ensures { result ≡ failure_of_words fault }
    {
        match fault {
            WordsFault::NotText => Failure::Usage,
            WordsFault::NoMemory => Failure::NoMemory,
        }
    }

    /// Why a script was not read.
    pub fn of_script(fault: PlanFault) -> Failure
        ensures { result ≡ failure_of_script fault }
    {
        match fault {
            PlanFault::BadPlan { line, rule } => Failure::Script { line, rule },
            PlanFault::NoMemory => Failure::NoMemory,
        }
    }

    /// Why a plan was not read.
    pub fn of_plan(fault: PlanFault) -> Failure
        ensures { result ≡ failure_of_plan fault }
    {
        match fault {
            PlanFault::BadPlan { line, rule } => Failure::Plan { line, rule },
            PlanFault::NoMemory => Failure::NoMemory,
        }
    }

    /// The status with which the program ends.
    pub fn status(self) -> Status
        ensures { result ≡ status_of self }
    {
        match self {
            Failure::Usage => Status::Usage,
            Failure::ReadFault => Status::ReadFault,
            Failure::Absent => Status::NoFile,
            Failure::TooBig => Status::TooBig,
            Failure::Lex { .. } | Failure::Syntax { .. } | Failure::Deep { .. } => Status::Refused,
            Failure::Rule { .. } | Failure::CodeTooLong => Status::Refused,
            Failure::Plan { .. } | Failure::Script { .. } => Status::Refused,
            Failure::NoTranscript { .. } | Failure::Unbuilt => Status::Refused,
            Failure::NoMemory => Status::NoMemory,
        }
    }

    /// The line on err, where the file has this name.
    pub fn text(self, alloc: Global, name: &str) -> Result<Vec<u8>, NoMemory>
        ensures { IfOk result (λ text. text.items ≡ failure_text name.now self) }
    {
        match self {
            Failure::Usage => bytes_of(alloc, b"lynx: usage\n"),
            Failure::ReadFault => file_text(alloc, name, b": read fault\n"),
            Failure::Absent => file_text(alloc, name, b": absent\n"),
            Failure::TooBig => file_text(alloc, name, b": too big\n"),
            Failure::Lex { at, no } => numbered_text(alloc, name, at, b"lex ", no),
            Failure::Syntax { at } => place_text(alloc, name, at, b"syntax\n"),
            Failure::Deep { at } => place_text(alloc, name, at, b"deep\n"),
            Failure::Rule { at, rule } => numbered_text(alloc, name, at, b"rule ", rule),
            Failure::CodeTooLong => named_text(alloc, name, b":1:1: code too long\n"),
            Failure::Plan { line, rule } => rule_text(alloc, name, line, b"plan ", rule),
            Failure::Script { line, rule } => rule_text(alloc, name, line, b"script ", rule),
            Failure::NoTranscript { line } => line_text(alloc, name, line, b"no\n"),
            Failure::Unbuilt => file_text(alloc, name, b": not built\n"),
            Failure::NoMemory => bytes_of(alloc, b"lynx: no memory\n"),
        }
    }
}

fn bytes_of(alloc: Global, bytes: &[u8]) -> Result<Vec<u8>, NoMemory>
    ensures { IfOk result (λ text. text.items ≡ bytes.now) }
{
    let text = bytes.to_vec(alloc)?;
    Ok(text)
}

// What is said of a name.
fn named_text(alloc: Global, name: &str, what: &[u8]) -> Result<Vec<u8>, NoMemory>
    ensures { IfOk result (λ text. text.items ≡ name.now ++ what.now) }
{
    let mut text = name.as_bytes().to_vec(alloc)?;
    text.extend_from_slice(what)?;
    Ok(text)
}

// What the program says of a name.
fn file_text(alloc: Global, name: &str, what: &[u8]) -> Result<Vec<u8>, NoMemory>
    ensures { IfOk result (λ text. text.items ≡ codes "lynx: " ++ name.now ++ what.now) }
{
    let mut text = b"lynx: ".to_vec(alloc)?;
    text.extend_from_slice(name.as_bytes())?;
    text.extend_from_slice(what)?;
    Ok(text)
}

// What is said of a line of a file.
fn line_text(alloc: Global, name: &str, line: u32, what: &[u8]) -> Result<Vec<u8>, NoMemory>
    ensures { IfOk result (λ text. text.items ≡ line_place name.now line ++ what.now) }
{
    let mut text = name.as_bytes().to_vec(alloc)?;
    text.push(b':')?;
    push_number(&mut text, u64::from(line))?;
    text.extend_from_slice(b": ")?;
    text.extend_from_slice(what)?;
    Ok(text)
}

// A line of a file breaks the rule of this number.
fn rule_text(
    alloc: Global,
    name: &str,
    line: u32,
    kind: &[u8],
    rule: u8,
) -> Result<Vec<u8>, NoMemory>
    ensures { IfOk result (λ text. text.items ≡ line_place name.now line ++ kind.now ++ number_text rule ++ codes "\n") }
{
    let mut text = line_text(alloc, name, line, kind)?;
    push_number(&mut text, u64::from(rule))?;
    text.push(b'\n')?;
    Ok(text)
}

// What is said of a place in a file.
fn place_text(alloc: Global, name: &str, at: Place, what: &[u8]) -> Result<Vec<u8>, NoMemory>
    ensures { IfOk result (λ text. text.items ≡ place_text name.now at ++ what.now) }
{
    let mut text = name.as_bytes().to_vec(alloc)?;
    text.push(b':')?;
    push_number(&mut text, u64::from(at.line))?;
    text.push(b':')?;
    push_number(&mut text, u64::from(at.column))?;
    text.extend_from_slice(b": ")?;
    text.extend_from_slice(what)?;
    Ok(text)
}

// A place in a file has the fault of this number.
fn numbered_text(
    alloc: Global,
    name: &str,
    at: Place,
    kind: &[u8],
    number: u8,
) -> Result<Vec<u8>, NoMemory>
    ensures { IfOk result (λ text. text.items ≡ place_text name.now at ++ kind.now ++ number_text number ++ codes "\n") }
{
    let mut text = place_text(alloc, name, at, kind)?;
    push_number(&mut text, u64::from(number))?;
    text.push(b'\n')?;
    Ok(text)
}

impl From<NoMemory> for Failure {
    ghost from_gives = { λ _ e. e ≡ failures.NoMemory };

    fn from(_error: NoMemory) -> Failure {
        Failure::NoMemory
    }
}

impl From<FileAnswer> for Failure {
    ghost from_gives = { λ a e. e ≡ failure_of_file a };

    fn from(answer: FileAnswer) -> Failure {
        match answer {
            FileAnswer::Absent => Failure::Absent,
            FileAnswer::TooBig => Failure::TooBig,
            FileAnswer::Failed => Failure::ReadFault,
            FileAnswer::NoMemory => Failure::NoMemory,
        }
    }
}

impl From<SourceFault> for Failure {
    ghost from_gives = { λ f e. e ≡ failure_of_source f };

    fn from(fault: SourceFault) -> Failure {
        match fault {
            SourceFault::Lex { at, no } => Failure::Lex { at, no },
            SourceFault::Syntax { at } => Failure::Syntax { at },
            SourceFault::Deep { at } => Failure::Deep { at },
            SourceFault::Rule { at, rule } => Failure::Rule { at, rule },
            SourceFault::CodeTooLong => Failure::CodeTooLong,
            SourceFault::NoMemory => Failure::NoMemory,
        }
    }
}
