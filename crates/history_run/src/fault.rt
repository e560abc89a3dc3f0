ghost use Rattle.std.specs.Prelude.{◌≡◌};
ghost use Rattle.history_run.specs.declared.fault.HistoryFault.TheVariants as faults;
ghost use Rattle.history_run.specs.Follow.{fault_at, fault_of_apply, fault_of_line};

use charlotte_calls::NoMemory;
use history_text::LineFault;
use link_service::ApplyFault;

/// Why a line was not followed.
#[derive(Clone, Copy, Debug, PartialEq, Eq)]
pub enum HistoryFault {
    /// It has no form in its place.
    Form,
    /// Its step is not allowed there, or not to the process that it names.
    NotAllowed,
    NoMemory,
}

/// Why a text was not followed to its end: the first line that could not be. Lines are counted from 1.
#[derive(Clone, Copy, Debug, PartialEq, Eq)]
pub enum TextFault {
    /// The line has no form in its place.
    Form { line: u32 },
    /// The step of the line is not allowed there, or not to the process that it names.
    NotAllowed { line: u32 },
    NoMemory,
}

impl HistoryFault {
    /// The fault at this line of a text.
    pub(crate) fn at(self, line: u32) -> TextFault
        ensures { result ≡ fault_at line self }
    {
        match self {
            HistoryFault::Form => TextFault::Form { line },
            HistoryFault::NotAllowed => TextFault::NotAllowed { line },
            HistoryFault::NoMemory => TextFault::NoMemory,
        }
    }
}

impl From<NoMemory> for HistoryFault {
    ghost from_gives = { λ _ e. e ≡ faults.NoMemory };

    fn from(_error: NoMemory) -> HistoryFault {
        HistoryFault::NoMemory
    }
}

impl From<ApplyFault> for HistoryFault {
    ghost from_gives = { λ f e. e ≡ fault_of_apply f };

    fn from(fault: ApplyFault) -> HistoryFault {
        match fault {
            ApplyFault::NotAllowed(_) => HistoryFault::NotAllowed,
            ApplyFault::NoMemory => HistoryFault::NoMemory,
        }
    }
}

impl From<LineFault> for HistoryFault {
    ghost from_gives = { λ f e. e ≡ fault_of_line f };

    fn from(fault: LineFault) -> HistoryFault {
        match fault {
            LineFault::Form => HistoryFault::Form,
            LineFault::NoMemory => HistoryFault::NoMemory,
        }
    }
}
