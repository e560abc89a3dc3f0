ghost use Rattle.std.specs.Prelude.{◌≡◌, ◌⊎◌, ◌<◌, ◌≤◌, ℕ, false, true};
ghost use Rattle.kernel_worker.specs.Awake.{is_awake};

/// Of which nodes a turn is asked, by their numbers. The others have nothing to do until a letter is put to them.
#[derive(Clone, Copy, Debug)]
pub(crate) struct Awake {
    pub(crate) by_number: [bool; 8],
}

impl Awake {
    /// Of all.
    pub(crate) fn all() -> Awake
        ensures { (k : ℕ) → is_awake result k ≡ true }
    {
        Awake {
            by_number: [true; 8],
        }
    }

    /// Whether a turn is asked of a node.
    #[inline(always)]
    pub(crate) fn is(&self, number: usize) -> bool
        requires { number < 8 }
        ensures { result ≡ is_awake self.now number }
    {
        self.by_number[number]
    }

    /// Whether no turn is asked of a node from this one on.
    #[inline(always)]
    pub(crate) fn none_from(&self, first: usize) -> bool
        requires { first ≤ 8 }
        ensures { result ≡ true → (k : ℕ) → first ≤ k → k < 8 → is_awake self.now k ≡ false }
    {
        for number in first..8 {
            if self.by_number[number] {
                return false;
            }
        }
        true
    }

    /// A node rests, if it has nothing to do.
    #[inline(always)]
    pub(crate) fn rest_if(&mut self, nothing: bool, number: usize)
        requires { number < 8 }
        ensures { (k : ℕ) → is_awake self.new k ≡ false → ((k ≡ number) × (nothing ≡ true)) ⊎ (is_awake self.old k ≡ false) }
    {
        if nothing {
            self.by_number[number] = false;
        }
    }

    /// Letters were put to the nodes of these bits.
    #[inline(always)]
    pub(crate) fn wake(&mut self, bits: u8)
        ensures { (k : ℕ) → is_awake self.new k ≡ false → is_awake self.old k ≡ false }
    {
        if bits != 0 {
            self.wake_each(bits);
        }
    }

    /// The nodes of these bits wake.
    fn wake_each(&mut self, bits: u8)
        ensures { (k : ℕ) → is_awake self.new k ≡ false → is_awake self.old k ≡ false }
    {
        for number in 0..8u8 {
            if bits.wrapping_shr(u32::from(number)) & 1 == 1 {
                self.by_number[usize::from(number)] = true;
            }
        }
    }
}
