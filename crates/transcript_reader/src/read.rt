ghost use Rattle.std.specs.Prelude.{◌<◌, ℕ, List, Ok, Err, IfOk, IfErr, length};
ghost use Rattle.transcript_reader.specs.declared.line.Line.{Line as ALine};
ghost use Rattle.transcript_reader.specs.Lines.{GivesLines, lines_read};
ghost use Rattle.transcript_reader.specs.Text.{AreLines, IsBadLine, IsFaultOf};

use crate::fault::LineFault;
use crate::line::Line;
use crate::reader::Reader;
use std::alloc::Global;

/// The lines of a transcript, or the first line that no transcript has in that place, which is the one behind the last where
/// the text ends too soon.
pub fn read_transcript(alloc: Global, bytes: &[u8]) -> Result<Vec<Line>, LineFault>
    requires { length bytes.now < 4294967295 }
    // The text is these lines, and a text of lines is read so.
    ensures found { IfOk result (λ lines. AreLines bytes.now lines.items) }
    ensures only { (lines : List ALine) → AreLines bytes.now lines → GivesLines (Ok lines) result }
    // The line is the first that cannot stand in its place, and such a line is named.
    ensures fault { IfErr result (IsFaultOf bytes.now) }
    ensures only_fault { (number : ℕ) → IsBadLine bytes.now number → GivesLines (Err number) result }
    // What a reader gives, line by line.
    ensures exact { GivesLines (lines_read bytes.now) result }
{
    read_lines(alloc, bytes)
}

fn read_lines(alloc: Global, bytes: &[u8]) -> Result<Vec<Line>, LineFault>
    requires { length bytes.now < 4294967295 }
    ensures { GivesLines (lines_read bytes.now) result }
{
    let mut reader = Reader::new(bytes);
    let mut lines = Vec::new(alloc);
    while let Some(line) = reader.next_line()? {
        lines.push(line)?;
    }
    Ok(lines)
}
