//! A sum of what processes do.

use charlotte_calls::{Call, EndId, Ends, Next, Side};

/// How many steps were made, and their sum.
#[derive(Clone, Copy)]
pub(crate) struct Sum {
    pub(crate) steps: u64,
    pub(crate) sum: u64,
}

impl Sum {
    /// Another step.
    pub(crate) fn add(&mut self, next: &Next) {
        self.steps = self.steps.saturating_add(1);
        self.sum = self.sum.wrapping_mul(31).wrapping_add(of_next(next));
    }
}

fn of_next(next: &Next) -> u64 {
    match next {
        Next::Ask(call) => of_call(call),
        Next::Pause => 9,
        Next::Ended => 10,
    }
}

fn of_call(call: &Call) -> u64 {
    match call {
        Call::Make => 1,
        Call::Destroy { on } => 2 | of_end(*on),
        Call::Send { on, bytes, enclose } => of_bytes(bytes.as_slice())
            .wrapping_add(of_ends(enclose))
            .wrapping_add(3 | of_end(*on)),
        Call::Receive { on } => 4 | of_end(*on),
        Call::Cancel { on, .. } => 5 | of_end(*on),
        Call::Wait => 6,
        Call::Print { bytes } => of_bytes(bytes.as_slice()).wrapping_add(7),
        Call::Exit => 8,
    }
}

/// An end as a number above the least four bits.
fn of_end(end: EndId) -> u64 {
    let side = match end.side {
        Side::A => 0,
        Side::B => 1,
    };
    u64::from(end.link.count) << 5 | side << 4
}

fn of_bytes(bytes: &[u8]) -> u64 {
    let mut sum: u64 = 0;
    for byte in bytes {
        sum = sum.wrapping_add(u64::from(*byte));
    }
    sum << 8 | bytes.len() as u64
}

fn of_ends(ends: &Ends) -> u64 {
    let mut sum: u64 = 0;
    for end in ends.as_slice() {
        sum = sum.wrapping_mul(31).wrapping_add(of_end(*end));
    }
    sum
}
