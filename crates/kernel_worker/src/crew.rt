use std::sync::atomic::{AtomicBool, AtomicU8, Ordering};

/// What the workers of a round tell each other, so that one without work stays while another has some. No clause speaks of it.
#[derive(Debug, Drop)]
pub struct Crew {
    /// The workers that have work, one bit each.
    at_work: AtomicU8,
    /// The workers that have left, one bit each.
    left: AtomicU8,
    /// A letter was put to one that has left.
    over: AtomicBool,
}

impl Crew {
    /// At most eight workers, all of them at work.
    pub fn of(workers: u8) -> Crew {
        let all = if workers < 8 {
            1u8.wrapping_shl(u32::from(workers)).wrapping_sub(1)
        } else {
            u8::MAX
        };
        Crew {
            at_work: AtomicU8::new(all),
            left: AtomicU8::new(0),
            over: AtomicBool::new(false),
        }
    }

    /// Whether one of them is at work.
    pub fn is_at_work(&self) -> bool {
        self.at_work.load(Ordering::SeqCst) != 0
    }

    /// A worker finds nothing to do.
    pub(crate) fn rests(&self, worker: u8) {
        let _ = self.at_work.fetch_and(!bit_of(worker), Ordering::SeqCst);
    }

    /// A worker that rested has work again.
    pub(crate) fn resumes(&self, worker: u8) {
        let _ = self.at_work.fetch_or(bit_of(worker), Ordering::SeqCst);
    }

    /// A worker leaves.
    pub(crate) fn leaves(&self, worker: u8) {
        let _ = self.left.fetch_or(bit_of(worker), Ordering::SeqCst);
        self.rests(worker);
    }

    /// Letters were put to the workers of these bits. The round is over where one of them has left.
    pub(crate) fn reach(&self, workers: u8) {
        if workers & self.left.load(Ordering::SeqCst) != 0 {
            self.over.store(true, Ordering::SeqCst);
        }
    }

    pub(crate) fn is_over(&self) -> bool {
        self.over.load(Ordering::SeqCst)
    }
}

/// The bit of a worker.
fn bit_of(worker: u8) -> u8 {
    1u8.wrapping_shl(u32::from(worker))
}
