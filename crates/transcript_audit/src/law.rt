//! What holds of every audit.
ghost use Rattle.std.specs.Prelude.{◌≡◌, ℕ, List};
ghost use Rattle.transcript_lines.specs.TranscriptText.{IsTranscript};
ghost use Rattle.transcript_lines.specs.declared.last.Last.{Last};
ghost use Rattle.transcript_audit.specs.Audit.{IsAudited, IsRejected, IsRunTranscript};

/// A text is accepted with one last line at most, or rejected at one line at most, and not both.
pub fn one_audit()
    ensures accepted { (bytes : List ℕ) (a b : Last) → IsAudited bytes a → IsAudited bytes b → a ≡ b }
    ensures rejected { (bytes : List ℕ) (m n : ℕ) → IsRejected bytes m → IsRejected bytes n → m ≡ n }
    ensures not_both { (bytes : List ℕ) (a : Last) (n : ℕ) → IsAudited bytes a → IsRejected bytes n → ⊥ }
{}

/// The transcript of any run, with a last line that is true of it, is accepted.
pub fn record_is_audited()
    ensures { (bytes : List ℕ) (last : Last) → IsRunTranscript bytes last → IsAudited bytes last }
{}

/// What is accepted is the transcript of the very run that it is accepted for: its entries, with the stamps of the packets, and its notes.
pub fn audited_is_transcript()
    ensures { (bytes : List ℕ) (last : Last) (is : IsAudited bytes last)
        → IsTranscript bytes is.run.replayed.setting is.run.replayed.merged is.run.replayed.notes last }
{}
