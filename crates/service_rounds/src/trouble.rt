//! Why no measure was made.

use charlotte_calls::NoMemory;
use link_service::ApplyFault;

/// What went wrong.
#[derive(Drop)]
pub(crate) enum Trouble {
    /// The words ask for nothing that can be measured.
    Words,
    NoMemory,
    /// A step was not allowed.
    Refused,
}

impl Trouble {
    /// What is told of it.
    pub(crate) fn text(&self) -> &'static str {
        match self {
            Trouble::Words =>
                "words: rounds LINKS STEPS, or exits STEPS; 1 to 65536 links, 1 to 4000000 steps",
            Trouble::NoMemory => "no memory",
            Trouble::Refused => "a step is not allowed",
        }
    }
}

impl From<NoMemory> for Trouble {
    fn from(_: NoMemory) -> Trouble {
        Trouble::NoMemory
    }
}

impl From<ApplyFault> for Trouble {
    fn from(fault: ApplyFault) -> Trouble {
        match fault {
            ApplyFault::NoMemory => Trouble::NoMemory,
            ApplyFault::NotAllowed(_) => Trouble::Refused,
        }
    }
}
