//! The setting that the header of a transcript tells.

use crate::trouble::Trouble;
use charlotte_calls::Setting;
use std::alloc::Global;
use transcript_reader::Line;
use transcript_replay::Draft;

/// The setting of these lines.
pub(crate) fn setting_of(alloc: Global, lines: &[Line]) -> Result<Setting, Trouble> {
    let mut draft = Draft::new(alloc);
    for line in lines {
        draft.tell(&line.what)?;
    }
    Ok(draft.finish(alloc))
}
