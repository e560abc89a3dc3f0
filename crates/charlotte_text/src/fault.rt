use std::error::Error;
use std::fmt;

/// Why bytes are not what a reader reads.
#[derive(Clone, Copy, Debug, PartialEq, Eq)]
pub enum Fault {
    /// They do not have its form.
    Form,
    /// They have its form, but spell more than 256 bytes in one text.
    Long,
}

impl fmt::Display for Fault {
    fn fmt<W: fmt::Write>(&self, f: &mut fmt::Formatter<W>) -> fmt::Result {
        match self {
            Fault::Form => f.write_str("another form"),
            Fault::Long => f.write_str("a text of more than 256 bytes"),
        }
    }
}

impl Error for Fault {}
