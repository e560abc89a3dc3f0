//! A Cancel that is granted, of a send and of a receive: the service simulates it, and the invariant of worlds is preserved. Lemmas alone.
//!
//! # What is proved
//! With a Cancel that its kernel does not refuse, of a send or of a receive, the service simulates it by the step cancel, and the invariant
//! of worlds is preserved (`Goes`). The premises are those of a Receive. Of a send: it waits, the ends that it encloses are its owner's
//! again, and the Cancel is answered. Of a receive: it is posted at its kernel, and in the service posted or matched; its process is in the
//! Cancel, and the opposite end is sent an unwant, which is true of where the end is, and asks for the one receive that may still be asked
//! of it.
//! By `cancel-send-goes` (`proofs/SendCancels.antt`), `taken-links`, `taken-right` (`proofs/TakenBack.antt`), `cancel-receive-goes`
//! (`proofs/ReceiveCancels.antt`), `withdrawn-links` (`proofs/WithdrawnLinks.antt`), `withdrawn-right` (`proofs/WithdrawnClauses.antt`).
#![tactic(auto)]
