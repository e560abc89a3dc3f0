/// Where an end is, as a packet of it tells.
#[derive(Clone, Copy, Debug, PartialEq, Eq)]
pub struct Site {
    /// The number of its kernel.
    pub at: u8,
    /// How many hops it has made.
    pub hops: u32,
}
