ghost use Rattle.std.specs.Prelude.{◌≡◌};
ghost use Rattle.std.specs.Hash as fed;
ghost use Rattle.std.specs.Cmp.Rules.{hashing};
ghost use Rattle.std.proofs.Common.{rules};

use std::hash::{Hash, Hasher};

/// The name of a link: the kernel that made it, and how many links that kernel had made before.
#[derive(Clone, Copy, Debug, Default, PartialEq, Eq, PartialOrd, Ord, Hash)]
pub struct LinkId {
    pub maker: u8,
    pub count: u32,
}

/// How many links a kernel may make.
pub const LINK_LIMIT: u32 = 65536;

/// Which of the two ends of a link.
#[derive(Clone, Copy, Debug, PartialEq, Eq, PartialOrd, Ord, Hash)]
pub enum Side {
    A,
    B,
}

impl Default for Side {
    fn default() -> Side {
        Side::A
    }
}

impl Side {
    ghost use Rattle.charlotte_calls.specs.Names.{other_side, side_number};

    /// The other side.
    pub fn other(self) -> Side
        ensures { result ≡ other_side self }
    {
        match self {
            Side::A => Side::B,
            Side::B => Side::A,
        }
    }

    fn number(self) -> u64
        ensures { result ≡ side_number self }
    {
        match self {
            Side::A => 0,
            Side::B => 1,
        }
    }
}

/// The name of an end: a link and a side. Ends are ordered by maker, count and side.
#[derive(Clone, Copy, Debug, Default, PartialEq, Eq, PartialOrd, Ord)]
pub struct EndId {
    pub link: LinkId,
    pub side: Side,
}

/// How far apart the makers of ends stand in the numbers of ends: a maker has that many ends.
const ENDS_OF_A_MAKER: u64 = 1 << 33;

/// An end is hashed as one number.
impl Hash for EndId {
    ghost use Rattle.charlotte_calls.specs.Names.{end_number};

    ghost hash_input = { λ e. fed.u64 (end_number e) };

    ghost respects_eq = { Prim.search (hashing, rules) };

    fn hash<H: Hasher>(&self, state: &mut H) {
        state.write_u64(self.number());
    }
}

impl EndId {
    ghost use Rattle.charlotte_calls.specs.Names.{opposite, end_number};

    /// The other end of the same link (Artsy, Chang and Finkel, 1987: links have two ends).
    pub fn opposite(self) -> EndId
        ensures { result ≡ opposite self }
    {
        EndId {
            link: self.link,
            side: self.side.other(),
        }
    }

    fn number(self) -> u64
        ensures { result ≡ end_number self }
    {
        u64::from(self.link.maker) * ENDS_OF_A_MAKER
            + u64::from(self.link.count) * 2
            + self.side.number()
    }
}

/// The number of a process, from 0.
#[derive(Clone, Copy, Debug, Default, PartialEq, Eq, PartialOrd, Ord, Hash)]
pub struct Pid(pub u16);

/// Which way a message goes at an end: a receive is inward, a send is outward.
#[derive(Clone, Copy, Debug, PartialEq, Eq, Hash)]
pub enum Way {
    Inward,
    Outward,
}

/// How an activity on an end was over.
#[derive(Clone, Copy, Debug, PartialEq, Eq, Hash)]
pub enum Outcome {
    /// The message was taken.
    Done,
    /// The link died before the message was taken.
    Destroyed,
}
