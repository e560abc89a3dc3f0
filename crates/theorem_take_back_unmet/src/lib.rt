//! A message that comes back to a destroyed end: its ends are destroyed, the service simulates it, and the invariant of worlds is
//! preserved. Lemmas alone.
//!
//! # What is proved
//! The service simulates the taking of a back whose end does not live or, what is equivalent, which meets no send that is matched,
//! by the step back, and the invariant of worlds is preserved (`Goes`).
//! By `back-dropped-goes` (`proofs/Dropped.antt`), `back-unmet-goes`, `back-meets` (`proofs/Unmet.antt`).
#![tactic(auto)]
