//! Ports over rings: what kernels that run concurrently send, in order and without loss.
//!
//! # What is proved
//! The ports of a net are of one net, each two of them, and each with itself, and no call changes that. What a port put to each kernel and
//! got from each is known, letter by letter. A letter may be put where it is a packet whose stamp is below the greatest, or the first
//! marker of its ring; who gets a letter knows that of it. A put adds its letter, or the letter comes back and nothing changed, exactly
//! where no free place of its ring is known; whether one is, and to put a letter where one is, are calls of their own. A get gives the
//! first letter that is known to be there from the first kernel from which one is, with its number, or none and nothing changed, exactly
//! where none is known; which kernel that is, and to get its letter, are calls of their own. After a meeting of two ports, or of one with
//! itself, what the one got from the other, followed by what is in the ring, is what the other put; each place without a letter is known
//! to be free; and the answer is how many letters are in the rings. So what was got is a prefix of what was put. A meeting does not
//! allocate. The command `run` uses it.
//! By clauses of `Net::make`, `Port::put`, `Port::is_full`, `Port::put_known`, `Port::get`, `Port::first`, `Port::get_from`,
//! `Port::meet_self` and `meet`; `MayBePut` in `specs/Letters.antt`; `HasPut`, `HasGot`, `HasFound`, `GetsOne`, `HasLooked`,
//! `AreAllThere`, `IsNet` in `specs/Ports.antt`.
#![tactic(auto)]

mod letter;
mod net;
mod port;
mod ring;

pub use letter::Letter;
pub use net::Net;
pub use port::{Port, meet};
