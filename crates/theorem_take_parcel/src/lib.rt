//! A parcel is taken whose end has started the receive that it is for. Definitions and lemmas alone.
//!
//! # What is proved
//! The service simulates the event, and the invariant of worlds is preserved (`Goes`), with the taking of each parcel whose end is here and
//! has started the receive that it is for, whatever ends it carries: by the step take, too late where the owner is in a Cancel of the
//! receive, and by report where the owner is in a Wait.
//! By `parcel-taken-goes`, `parcel-asked-goes` (`proofs/Parcels.antt`); `received-links`, `received-right` (`proofs/Received.antt`).
#![tactic(auto)]
