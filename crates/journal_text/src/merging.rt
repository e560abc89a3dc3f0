//! Which entry comes first in a merge.
ghost use Rattle.std.specs.Prelude.{◌≡◌};
ghost use Rattle.journal_text.specs.Heads.{earlier_head};

/// The first entry of a kernel that is not placed yet.
#[derive(Clone, Copy)]
pub struct Head {
    pub kernel: usize,
    pub stamp: u64,
}

/// The first head so far or that of a later kernel: the one with the smaller stamp, and the first where they are equal.
pub fn earlier(first: Option<Head>, kernel: usize, stamp: Option<u64>) -> Option<Head>
    ensures { result ≡ earlier_head first kernel stamp }
{
    let Some(stamp) = stamp else {
        return first;
    };
    match first {
        Some(head) if head.stamp <= stamp => Some(head),
        _ => Some(Head { kernel, stamp }),
    }
}
