//! How a run of a program ended.
ghost use Rattle.std.specs.Prelude.{◌≡◌};

/// The status with which a program of the product ends.
#[derive(Clone, Copy, Debug, PartialEq, Eq)]
pub enum Status {
    /// The command was done.
    Done = 0,
    /// The words are no command.
    Usage = 1,
    /// A file could not be read.
    ReadFault = 2,
    /// Output could not be written.
    WriteFault = 3,
    /// A text that was read breaks its rules.
    Refused = 4,
    /// A kernel's turns were used up.
    Spent = 5,
    /// A file is not there.
    NoFile = 6,
    /// There was not memory enough.
    NoMemory = 7,
    /// A file has more bytes than its kind may have.
    TooBig = 8,
}

impl Status {
    ghost use Rattle.lynx_outside.specs.Status.{number_of};

    /// The number from 0 to 8 with which the program ends.
    pub fn number(self) -> u8
        ensures { result ≡ number_of self }
    {
        self as u8
    }
}
