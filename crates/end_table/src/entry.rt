ghost use Rattle.std.specs.Prelude.{◌≡◌};

use crate::{Living, MessageSeen};
use charlotte_calls::{Bytes, EndId, Ends, Pid};
use charlotte_packets::{Mark, MovingPicture};

/// Who holds an end that is here.
#[derive(Clone, Copy, Debug, PartialEq, Eq)]
pub enum Holder {
    /// The process that owns it.
    Owner(Pid),
    /// The end whose started send encloses it.
    EnclosedIn(EndId),
}

/// The activity outward on an end: a send.
#[derive(Debug, Drop)]
pub enum Outward {
    Idle,
    /// The send n is started, and no receive has asked for its message yet.
    Waiting {
        n: u32,
        bytes: Bytes,
        enclosed: Ends,
    },
    /// The message n was sent to a receive.
    Matched {
        n: u32,
    },
    /// The send is over, and its report was not given yet.
    Unreported,
}

/// The activity outward on an end, as a table keeps it: the message of a send that waits is kept elsewhere.
#[derive(Drop)]
pub enum Sending {
    Idle,
    Waiting { n: u32, message: MessageSeen },
    Matched { n: u32 },
    Unreported,
}

/// The activity inward on an end: a receive.
#[derive(Clone, Copy, Debug, PartialEq, Eq)]
pub enum Inward {
    Idle,
    /// The receive w is started.
    Posted { w: u32 },
    /// The receive w is started, and a Cancel of it waits for its answer.
    Withdrawing { w: u32 },
    /// The receive is over, and its report was not given yet.
    Unreported,
}

/// An end that is here, as plain data.
#[derive(Debug, Drop)]
pub struct HereView {
    /// The fields of the end's value.
    pub value: MovingPicture,
    pub holder: Holder,
    pub outward: Outward,
    pub inward: Inward,
}

/// What a kernel keeps of an end, as plain data.
#[derive(Debug, Drop)]
pub enum Entry {
    Nothing,
    Here(HereView),
    /// The end has left to kernel `to`, and had this many hops then.
    Left { to: u8, hops: u32 },
    /// The end was destroyed here.
    Destroyed(Mark),
}

/// An entry that is lent: an end that is here stays in the table.
#[derive(Clone, Copy)]
pub enum Lent<'a> {
    Nothing,
    Here(&'a Living),
    Left { to: u8, hops: u32 },
    Destroyed(Mark),
}
