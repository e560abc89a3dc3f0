ghost use Rattle.std.specs.Prelude.{◌≡◌};
ghost use Rattle.lynx_plan.specs.Rules.{rule_number};

/// A rule of scripts and plans that a line fails. The last is one of plans alone.
#[derive(Clone, Copy, Debug, PartialEq, Eq)]
pub enum Rule {
    /// The line has a form, and it may stand there.
    LineDoesNotStandThere,
    /// There are 1 to 8 kernels.
    KernelsAreTooManyOrNone,
    /// The process number is the next, and at most 63.
    ProcessIsNotTheNext,
    /// A kernel number is below the number of kernels.
    KernelIsNotThere,
    /// Each process that a line names is declared.
    ProcessIsNotThere,
    /// A text has at most 256 bytes.
    TextIsTooLong,
    /// There are at most 4,096 wires.
    WiresAreTooMany,
    /// The version is 1 or 2.
    VersionIsNotKnown,
    /// A process that moves runs a file and has one host, and no wire line names a host.
    ProcessIsNotFree,
}

impl Rule {
    /// The number by which a fault tells the rule.
    pub fn number(self) -> u8
        ensures { result ≡ rule_number self }
    {
        match self {
            Rule::LineDoesNotStandThere => 1,
            Rule::KernelsAreTooManyOrNone => 2,
            Rule::ProcessIsNotTheNext => 3,
            Rule::KernelIsNotThere => 4,
            Rule::ProcessIsNotThere => 5,
            Rule::TextIsTooLong => 6,
            Rule::WiresAreTooMany => 7,
            Rule::VersionIsNotKnown => 10,
            Rule::ProcessIsNotFree => 11,
        }
    }
}
