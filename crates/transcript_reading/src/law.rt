ghost use Rattle.std.specs.Prelude.{◌≡◌, ℕ, List, map};
ghost use Rattle.charlotte_calls.specs.declared.setting.Setting.{Setting};
ghost use Rattle.transcript_lines.specs.TranscriptText.{IsTranscript};
ghost use Rattle.transcript_lines.specs.declared.last.Last.{Last};
ghost use Rattle.transcript_lines.specs.declared.last.ScriptNote.{ScriptNote};
ghost use Rattle.kernel_entries.specs.declared.entry.Placed.{Placed};
ghost use Rattle.transcript_reading.specs.Kinds.{unstamped};

/// A text is the transcript of one setting, of one list of entries, notes and last line: apart from the stamps of packets, which no line shows.
pub fn one_reading()
    ensures { (text : List ℕ) (s t : Setting) (merged others : List Placed) (notes noted : List ScriptNote) (last ending : Last)
        → IsTranscript text s merged notes last → IsTranscript text t others noted ending
        → (s ≡ t) × (map unstamped merged ≡ map unstamped others) × (notes ≡ noted) × (last ≡ ending) }
{}
