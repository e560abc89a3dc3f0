use transcript_reading::LineKind;

/// A line of a transcript and its number in the file, from 1.
#[derive(Debug, Drop)]
pub struct Line {
    pub number: u32,
    pub what: LineKind,
}
