//! A link that is made, and one whose death is noticed, keep all that is true of the traces of ends. Definitions and lemmas alone.
//!
//! # What is proved
//! A Make that is not refused: both ends of the new link are where they were made, and of another link nothing changes. A gone at an end that did not
//! know of the death: the end is sought no more, each kernel of its trail is told to forget it, and the mark is told that the death was seen.
//! By `make-traced` in `proofs/Make.antt` and `noticed-traced` in `proofs/Notice.antt`, which has `IsDying` of `specs/Closing.antt` as hypothesis.
#![tactic(auto)]
