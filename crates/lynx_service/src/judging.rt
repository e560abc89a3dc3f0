//! What is found in the bytes of a history.
ghost use Rattle.std.specs.Prelude.{◌≤◌, length};
ghost use Rattle.lynx_service.specs.Service.{Finds, most_bytes};

use crate::verdict::Verdict;
use history_reasons::reason;
use history_run::{History, TextFault, follow};
use std::alloc::Global;

/// What is found in the bytes of a history: that it is one lawful run, or the first line where it is not.
pub(crate) fn judged(alloc: Global, bytes: &[u8]) -> Verdict
    requires { length bytes.now ≤ most_bytes }
    ensures { Finds bytes.now result }
{
    let Ok(mut history) = History::new(alloc) else {
        return Verdict::NoMemory;
    };
    match follow(alloc, &mut history, bytes) {
        Ok(()) => Verdict::Yes,
        Err(TextFault::Form { line }) => Verdict::Form { line },
        Err(TextFault::NotAllowed { line }) => match reason(alloc, &history) {
            Ok(why) => Verdict::No { line, why },
            Err(_) => Verdict::NoMemory,
        },
        Err(TextFault::NoMemory) => Verdict::NoMemory,
    }
}
