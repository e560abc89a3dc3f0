//! The next line of a text, where it is just what the kernels expect there.
ghost use Rattle.std.specs.Prelude.{◌≡◌, ◌++◌, IfOk, MatchBool};
ghost use Rattle.charlotte_text.specs.Reading.{parts};
ghost use Rattle.charlotte_text.specs.Spelling.{line_feed};
ghost use Rattle.transcript_kept.specs.Run.{AnswersNext, IsRun, ReadsFirst, kept_of};
ghost use Rattle.leading_lines.specs.Ahead.{head_text};
ghost use Rattle.leading_lines.specs.declared.guess.Ahead.TheVariants as heads;

use crate::run::Run;
use charlotte_calls::NoMemory;
use expected_lines::{reads_call, reads_packet, reads_step};
use transcript_reader::{Ahead, CallAhead, PacketAhead, Reader};

impl Run {
    /// Reads the next line and does what it says, where it shows the step that is due, or is the entry of a packet that waits or of a call, or a note
    /// behind a note. `None`: it was not read.
    pub(crate) fn follow_next(&mut self, reader: &mut Reader<'_>) -> Result<Option<bool>, NoMemory>
        requires { IsRun self.old }
        ensures { IfOk result (λ went. AnswersNext self.old reader.old went self.new reader.new) }
    {
        if !reader.is_among_entries() {
            return Ok(self.pass_note(reader));
        }
        if !self.due.is_empty() {
            return self.show_next(reader);
        }
        match reader.peek() {
            Some((Ahead::Packet(ahead), rest)) => self.take_next(reader, ahead, rest),
            Some((Ahead::Call(ahead), rest)) => self.ask_next(reader, ahead, rest),
            None => Ok(None),
        }
    }

    /// A note behind a note, of which nothing changes.
    fn pass_note(&self, reader: &mut Reader<'_>) -> Option<bool>
        requires { IsRun self.now }
        ensures { AnswersNext self.now reader.old result self.now reader.new }
    {
        if reader.skip_note() { Some(true) } else { None }
    }

    /// The line of the step that is due.
    fn show_next(&mut self, reader: &mut Reader<'_>) -> Result<Option<bool>, NoMemory>
        requires { IsRun self.old }
        ensures { IfOk result (λ went. AnswersNext self.old reader.old went self.new reader.new) }
    {
        let Some(step) = self.due.front() else {
            return Ok(None);
        };
        if !reads_step(reader, step) {
            return Ok(None);
        }
        let went = self.show()?;
        Ok(Some(went))
    }

    /// The entry of a packet that waits.
    fn take_next<'a>(
        &mut self,
        reader: &mut Reader<'a>,
        ahead: PacketAhead,
        rest: &'a [u8],
    ) -> Result<Option<bool>, NoMemory>
        requires run { IsRun self.old }
        requires begins { reader.old.texts ≡ parts line_feed (head_text (heads.Packet ahead) ++ rest.now) }
        ensures { IfOk result (λ went. AnswersNext self.old reader.old went self.new reader.new) }
    {
        if ahead.kernel >= self.setting.kernels {
            return Ok(None);
        }
        if !self.reads_first(reader, ahead, rest) {
            return Ok(None);
        }
        let noted = self.nodes.take_first(ahead.from, ahead.kernel)?;
        self.note(ahead.kernel, noted);
        Ok(Some(true))
    }

    /// Whether the next line, which begins so, is the entry of the first packet that waits on that way; if so, it is read.
    fn reads_first<'a>(&self, reader: &mut Reader<'a>, ahead: PacketAhead, rest: &'a [u8]) -> bool
        requires run { IsRun self.now }
        requires begins { reader.old.texts ≡ parts line_feed (head_text (heads.Packet ahead) ++ rest.now) }
        ensures { MatchBool result (ReadsFirst (kept_of self.now) ahead reader.old reader.new) (reader.new ≡ reader.old) }
    {
        match self.nodes.first(ahead.from, ahead.kernel) {
            Some(packet) => reads_packet(reader, ahead, rest, packet),
            None => false,
        }
    }

    /// The entry of a call.
    fn ask_next<'a>(
        &mut self,
        reader: &mut Reader<'a>,
        ahead: CallAhead,
        rest: &'a [u8],
    ) -> Result<Option<bool>, NoMemory>
        requires run { IsRun self.old }
        requires begins { reader.old.texts ≡ parts line_feed (head_text (heads.Call ahead) ++ rest.now) }
        ensures { IfOk result (λ went. AnswersNext self.old reader.old went self.new reader.new) }
    {
        if !self.runs_at(ahead.p, ahead.kernel) {
            return Ok(None);
        }
        if !reads_call(reader, ahead, rest, &mut self.request.call) {
            return Ok(None);
        }
        self.request.p = ahead.p;
        let noted = self.nodes.ask(ahead.kernel, &self.request)?;
        self.note(ahead.kernel, noted);
        Ok(Some(true))
    }
}
