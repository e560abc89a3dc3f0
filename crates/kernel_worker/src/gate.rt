/// What each worker passes before each turn. A test can hold workers back by it.
pub trait Gate {
    /// The node of a kernel passes, for this time since it was made, counted from 1; the count stays at the greatest `u32`.
    fn pass(&self, kernel: u8, turn: u32);
}

/// A gate that does nothing.
#[derive(Clone, Copy, Debug)]
pub struct NoGate;

impl Gate for NoGate {
    fn pass(&self, _kernel: u8, _turn: u32) {}
}
