//! The next line of a text, where it is just what the kernels expect there.
ghost use Rattle.std.specs.Prelude.{◌≡◌, ◌<◌, ◌++◌, [], IfErr, IfOk, MatchBool, OnOk};
ghost use Rattle.charlotte_packets.specs.declared.picture.PictureWhat.{PictureWhat as AWhat};
ghost use Rattle.charlotte_calls.specs.declared.setting.Setting.{Setting as ASetting};
ghost use Rattle.kernel_journal.specs.Body.{Goes, IsReady, StopsAt, most_events};
ghost use Rattle.kernel_journal.specs.Expected.{ReadsDue, ReadsFirst, Stands, TookNext, Waits};
ghost use Rattle.expected_lines.specs.Told.{told_packet};
ghost use Rattle.charlotte_text.specs.Reading.{parts};
ghost use Rattle.charlotte_text.specs.Spelling.{line_feed};
ghost use Rattle.kernel_nodes.specs.Nodes.{AreNodes};
ghost use Rattle.leading_lines.specs.Ahead.{head_text};
ghost use Rattle.leading_lines.specs.declared.guess.Ahead.TheVariants as heads;
ghost use Rattle.transcript_reading.specs.declared.line.LineKind.TheVariants as line;

use crate::body::Body;
use crate::fault::Stop;
use expected_lines::{reads_call, reads_packet, reads_step};
use kernel_nodes::{Nodes, Request};
use transcript_reader::{Ahead, CallAhead, PacketAhead, Reader};

impl Body {
    /// Takes the next line, where it shows the step that is due, or is the entry of a packet that waits or of a call. `false`: it was
    /// not read. The request is written over.
    pub(crate) fn take_expected(
        &mut self,
        reader: &mut Reader<'_>,
        request: &mut Request,
    ) -> Result<bool, Stop>
        requires { IsReady self.old }
        ensures took { IfOk result (λ took. MatchBool took (TookNext self.old reader.old self.new reader.new) ((self.new ≡ self.old) × (reader.new ≡ reader.old))) }
        ensures stands { IfErr result (Stands self.old reader.old reader.new) }
    {
        if !self.due.is_empty() {
            return Ok(self.show_next(reader));
        }
        match reader.peek() {
            Some((Ahead::Packet(ahead), rest)) => self.take_next(reader, ahead, rest),
            Some((Ahead::Call(ahead), rest)) => self.ask_next(reader, ahead, rest, request),
            None => Ok(false),
        }
    }

    /// The line of the step that is due.
    fn show_next(&mut self, reader: &mut Reader<'_>) -> bool
        requires { IsReady self.old }
        ensures { MatchBool result (TookNext self.old reader.old self.new reader.new) ((self.new ≡ self.old) × (reader.new ≡ reader.old)) }
    {
        if !self.reads_due(reader) {
            return false;
        }
        self.due.pass_first();
        true
    }

    /// Whether the next line shows the step that is due; if so, it is read.
    fn reads_due(&self, reader: &mut Reader<'_>) -> bool
        ensures { MatchBool result (ReadsDue self.now.due reader.old reader.new) (reader.new ≡ reader.old) }
    {
        match self.due.first() {
            Some(step) => reads_step(reader, step),
            None => false,
        }
    }

    /// The entry of a packet that waits.
    fn take_next<'a>(
        &mut self,
        reader: &mut Reader<'a>,
        ahead: PacketAhead,
        rest: &'a [u8],
    ) -> Result<bool, Stop>
        requires ready { IsReady self.old }
        requires begins { reader.old.texts ≡ parts line_feed (head_text (heads.Packet ahead) ++ rest.now) }
        ensures took { IfOk result (λ took. MatchBool took (TookNext self.old reader.old self.new reader.new) ((self.new ≡ self.old) × (reader.new ≡ reader.old))) }
        ensures stands { IfErr result (Stands self.old reader.old reader.new) }
    {
        if ahead.kernel >= self.setting.kernels || !self.may_go_on() {
            return Ok(false);
        }
        if !reads_first(&self.nodes, reader, ahead, rest) {
            return Ok(false);
        }
        self.take_first(ahead)?;
        Ok(true)
    }

    /// The first packet from a kernel to another, which waits, is taken.
    fn take_first(&mut self, ahead: PacketAhead) -> Result<(), Stop>
        requires ready { IsReady self.old }
        requires go { (self.old.due ≡ []) × (self.old.events < most_events) }
        requires waits { (what : AWhat) × Waits self.old ahead.from ahead.kernel what }
        ensures ready { OnOk result (IsReady self.new) }
        ensures leads { OnOk result ((what : AWhat) → Waits self.old ahead.from ahead.kernel what → Goes self.old (line.PacketEntry ahead.stamp ahead.kernel ahead.from (told_packet what)) self.new) }
        ensures differs { IfErr result (λ stop. (what : AWhat) → Waits self.old ahead.from ahead.kernel what → StopsAt self.old (line.PacketEntry ahead.stamp ahead.kernel ahead.from (told_packet what)) stop) }
    {
        let noted = self.nodes.take_first(ahead.from, ahead.kernel)?;
        self.note(ahead.stamp, ahead.kernel, noted)
    }

    /// The entry of a call.
    fn ask_next<'a>(
        &mut self,
        reader: &mut Reader<'a>,
        ahead: CallAhead,
        rest: &'a [u8],
        request: &mut Request,
    ) -> Result<bool, Stop>
        requires ready { IsReady self.old }
        requires begins { reader.old.texts ≡ parts line_feed (head_text (heads.Call ahead) ++ rest.now) }
        ensures took { IfOk result (λ took. MatchBool took (TookNext self.old reader.old self.new reader.new) ((self.new ≡ self.old) × (reader.new ≡ reader.old))) }
        ensures stands { IfErr result (Stands self.old reader.old reader.new) }
    {
        if !reads_call(reader, ahead, rest, &mut request.call) {
            return Ok(false);
        }
        request.p = ahead.p;
        self.ask(ahead.stamp, ahead.kernel, request)?;
        Ok(true)
    }
}

/// Whether the next line, which begins so, is the entry of the first packet that waits on that way; if so, it is read.
fn reads_first<'a>(
    nodes: &Nodes,
    reader: &mut Reader<'a>,
    ahead: PacketAhead,
    rest: &'a [u8],
) -> bool
    requires are { (s : ASetting) × AreNodes s nodes.now.nodes.items }
    requires begins { reader.old.texts ≡ parts line_feed (head_text (heads.Packet ahead) ++ rest.now) }
    ensures { MatchBool result ((s : ASetting) → AreNodes s nodes.now.nodes.items → ReadsFirst s nodes.now ahead reader.old reader.new) (reader.new ≡ reader.old) }
{
    match nodes.first(ahead.from, ahead.kernel) {
        Some(packet) => reads_packet(reader, ahead, rest, packet),
        None => false,
    }
}
