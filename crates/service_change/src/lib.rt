//! One end of the link service changes, and with it the ends that its message carries: which facts about the change are enough for a
//! consistent state to stay consistent, and the forms that the changes of the steps take. Lemmas alone.
//!
//! # What is proved
//! Where one end of the service changes, with the ends that its message carries, and certain facts hold of the change, a consistent state
//! stays consistent.
//! By `IsChange` and `change-consistent` in `proofs/Change.antt`; the forms of changes in `proofs/Shapes.antt`.
#![tactic(auto)]
