ghost use Rattle.std.specs.Prelude.{◌≡◌, ℕ, List, Ok};
ghost use Rattle.transcript_lines.specs.TranscriptText.{IsTranscript};
ghost use Rattle.transcript_reader.specs.Text.{AreLines, told_by_lines};
ghost use Rattle.transcript_reader.specs.declared.line.Line.{Line};
ghost use Rattle.transcript_reading.specs.Reading.{Told, told_by};

/// What the lines of a text tell together is what the text is the transcript of.
pub fn told_is_written()
    ensures { (text : List ℕ) (t : Told) → told_by text ≡ Ok t → IsTranscript text t.setting t.entries t.notes t.last }
{}

/// What a text tells is what the lines tell that it is. So a transcript is a text of lines, and lines that tell something are a transcript.
pub fn lines_are_told()
    ensures lines { (text : List ℕ) (ls : List Line) → AreLines text ls → told_by text ≡ told_by_lines ls }
    ensures told { (text : List ℕ) (t : Told) → told_by text ≡ Ok t → (ls : List Line) × AreLines text ls × (told_by_lines ls ≡ Ok t) }
{}
