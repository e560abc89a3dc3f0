//! Exceptions.

ghost use Rattle.std.specs.Prelude.{◌≡◌, Some, IfSome};
ghost use Rattle.typing_rules.specs.declared.exception.Exception.{Exception};
ghost use Rattle.typing_rules.specs.Exceptions.{exception_text, exception_of};

/// What a statement can raise, and a handler of `try` names.
#[derive(Clone, Copy, Debug, PartialEq, Eq)]
pub enum Exception {
    /// The link is in use.
    BusyLink,
    /// The other end of the link is destroyed.
    DeadLink,
    /// The variable holds no link.
    NoLink,
    /// A divisor is zero.
    Divide,
    /// A result is no number of 64 bits.
    Overflow,
    /// An index is not one of the row.
    Range,
    /// The request ended without a reply.
    Failed,
    /// The request was answered before.
    Replied,
    /// The process can hold no more links.
    LinksFull,
}

impl Exception {
    /// The exception's name, as `BUSYLINK`.
    pub fn as_slice(self) -> &'static [u8]
        ensures { result.now ≡ exception_text self }
    {
        match self {
            Exception::BusyLink => b"BUSYLINK",
            Exception::DeadLink => b"DEADLINK",
            Exception::NoLink => b"NOLINK",
            Exception::Divide => b"DIVIDE",
            Exception::Overflow => b"OVERFLOW",
            Exception::Range => b"RANGE",
            Exception::Failed => b"FAILED",
            Exception::Replied => b"REPLIED",
            Exception::LinksFull => b"LINKSFULL",
        }
    }

    /// The exception of this name. None exactly where the name is none of an exception.
    #[tactic(auto, unfolding(crate::specs::Exceptions::exception_of))]
    pub fn from_slice(name: &[u8]) -> Option<Exception>
        ensures exact { result ≡ exception_of name.now }
        ensures spelled { IfSome result (λ exception. name.now ≡ exception_text exception) }
        ensures all { (exception : Exception) → name.now ≡ exception_text exception → result ≡ Some exception }
    {
        if name == b"BUSYLINK".as_slice() {
            Some(Exception::BusyLink)
        } else if name == b"DEADLINK".as_slice() {
            Some(Exception::DeadLink)
        } else if name == b"NOLINK".as_slice() {
            Some(Exception::NoLink)
        } else if name == b"DIVIDE".as_slice() {
            Some(Exception::Divide)
        } else if name == b"OVERFLOW".as_slice() {
            Some(Exception::Overflow)
        } else if name == b"RANGE".as_slice() {
            Some(Exception::Range)
        } else if name == b"FAILED".as_slice() {
            Some(Exception::Failed)
        } else if name == b"REPLIED".as_slice() {
            Some(Exception::Replied)
        } else if name == b"LINKSFULL".as_slice() {
            Some(Exception::LinksFull)
        } else {
            None
        }
    }
}
