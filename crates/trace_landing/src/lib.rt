//! Ends that come out of a packet, or go on in another, keep all that is true of the traces of ends. Definitions and lemmas alone.
//!
//! # What is proved
//! A parcel that is taken, and a back that meets its send where the death is known already: the ends that they carry are here then, and each tells its
//! opposite so (`received-traced`, `returned-traced` in `proofs/Taken.antt`). A parcel that is not met: its ends go back with its message
//! (`passed-traced` in `proofs/Passed.antt`).
//! By `AreCarried` in `specs/Landing.antt`, and `IsMoving` of `trace_moving`.
#![tactic(auto)]
