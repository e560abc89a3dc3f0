ghost use Rattle.std.specs.Prelude.{◌≡◌, ◌↔◌, ◌<◌, ◌≤◌, ℕ, None, Some, IsTrue, length, replicate, set};
ghost use Rattle.kernel_turns.specs.Courses.{IsComplete, marked_of};

/// What a node keeps for a snapshot (Chandy and Lamport, 1985): how long its journal was where it began, and where it got the marker of
/// each kernel. A part that is there never changes.
#[derive(Clone, Copy, Debug)]
pub struct Course {
    pub(crate) begun: Option<u32>,
    /// By the numbers of the kernels.
    pub(crate) marked: [Option<u32>; 8],
}

impl Course {
    /// Of a node that has not begun and got no marker.
    pub(crate) fn unbegun() -> Course
        ensures begun { result.begun ≡ None }
        ensures marked { (from : ℕ) → marked_of result from ≡ None }
        ensures marks { length result.marked ≡ 8 }
    {
        Course {
            begun: None,
            marked: [None; 8],
        }
    }

    /// The marker of a kernel was got, when the journal was so long.
    pub(crate) fn mark(&mut self, from: u8, length: u32)
        requires { from < 8 }
        ensures begun { self.new.begun ≡ self.old.begun }
        ensures marked { self.new.marked ≡ set self.old.marked from (Some length) }
    {
        self.marked[usize::from(from)] = Some(length);
    }

    /// How long the journal was where the node began, if it did.
    pub fn begun(&self) -> Option<u32>
        ensures { result ≡ self.now.begun }
    {
        self.begun
    }

    /// How long the journal was where the marker of a kernel was got, if it was.
    pub fn marked(&self, from: u8) -> Option<u32>
        ensures { result ≡ marked_of self.now from }
    {
        if from < 8 {
            self.marked[usize::from(from)]
        } else {
            None
        }
    }

    /// Whether the node has begun, and the marker of each kernel below this number was got.
    pub fn complete(&self, kernels: u8) -> bool
        ensures { IsTrue result ↔ IsComplete kernels self.now }
    {
        if self.begun.is_none() {
            return false;
        }
        for from in 0..kernels {
            if self.marked(from).is_none() {
                return false;
            }
        }
        true
    }
}
