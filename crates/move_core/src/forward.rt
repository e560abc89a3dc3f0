/// Where a packet for an end goes.
#[derive(Clone, Copy, Debug, PartialEq, Eq)]
pub enum Route {
    /// The end is here.
    Here,
    /// The end has left to this kernel.
    Forward(u8),
    /// This kernel knows no such end, or it was destroyed here.
    Stale,
}
