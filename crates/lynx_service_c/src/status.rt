//! What is answered: the statuses of the program `lynx_service`.
ghost use Rattle.std.specs.Prelude.{◌≡◌};
ghost use Rattle.lynx_service_c.specs.Service.{status_of};

use history_run::HistoryFault;

/// It is done; of a line: the lines so far are one lawful run.
pub(crate) const OK: i32 = 0;

/// A pointer is null.
pub(crate) const NULL: i32 = 1;

/// The line, or one before it, can't stand there or is not allowed there.
pub(crate) const REFUSED: i32 = 4;

/// Want of memory.
pub(crate) const NO_MEMORY: i32 = 7;

/// The status of the answer of a line.
pub(crate) fn status_of(answer: Result<(), HistoryFault>) -> i32
    ensures { result ≡ status_of answer }
{
    match answer {
        Ok(()) => OK,
        Err(HistoryFault::Form | HistoryFault::NotAllowed) => REFUSED,
        Err(HistoryFault::NoMemory) => NO_MEMORY,
    }
}
