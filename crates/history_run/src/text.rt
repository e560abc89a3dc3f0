//! A text, followed to its end or to the first line that can not be.
ghost use Rattle.std.specs.Prelude.{◌<◌, length};
ghost use Rattle.history_text.specs.Lines.{told_by};
ghost use Rattle.history_run.specs.Follow.{IsNew};
ghost use Rattle.history_run.specs.Runs.{IsAnswer};

use crate::fault::TextFault;
use crate::history::History;
use lynx_plan::first_line;
use std::alloc::Global;

/// Follows a text from its first line on. It is followed to its end exactly where its lines have their forms, and its steps are one run of the link
/// service from the setting of its header, each by the owner of its end; else the first line where that is not so is told.
pub fn follow(alloc: Global, history: &mut History, bytes: &[u8]) -> Result<(), TextFault>
    requires short { length bytes.now < 4294967295 }
    requires new { IsNew history.old }
    ensures { IsAnswer (told_by bytes.now) result }
{
    let mut line = 0;
    let mut rest = Some(bytes);
    while let Some(text) = rest {
        let (this, after) = first_line(text);
        line += 1;
        if let Err(fault) = history.line(alloc, this) {
            return Err(fault.at(line));
        }
        rest = after;
    }
    if history.draft().has_begun() {
        Ok(())
    } else {
        Err(TextFault::Form { line })
    }
}
