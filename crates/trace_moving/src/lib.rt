//! Events by which ends move keep all that is true of the traces of ends. Definitions and lemmas alone.
//!
//! # What is proved
//! Where ends leave a kernel in a packet, come out of one, or go on in another, while others may hear where their opposites are: a chain that led to
//! such an end leads on from its kernel, and what was told on its track is so still, or is told anew.
//! By `IsMoving` in `specs/Moving.antt`; `moving-traced` in `proofs/Moving.antt`.
#![tactic(auto)]
