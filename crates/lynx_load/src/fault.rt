//! Why a plan was not loaded.

ghost use Rattle.lynx_load.specs.Told.{IsToldAs};

use lynx_command::Failure;
use lynx_outside::Status;
use std::alloc::Global;

/// Why a plan was not loaded.
#[derive(Debug, Drop)]
pub enum LoadFault {
    /// The first failure: the status with which a program ends, and the line that tells it.
    Failed { status: Status, text: Vec<u8> },
    /// There was not memory enough.
    NoMemory,
}

/// A failure of the file of this name. Where memory lacks for its line, that is the failure.
pub(crate) fn told(alloc: Global, name: &str, failure: Failure) -> LoadFault
    ensures { IsToldAs result (record { file = name.now; failure = failure }) }
{
    if matches!(failure, Failure::NoMemory) {
        return LoadFault::NoMemory;
    }
    match failure.text(alloc, name) {
        Ok(text) => LoadFault::Failed {
            status: failure.status(),
            text,
        },
        Err(_) => LoadFault::NoMemory,
    }
}
