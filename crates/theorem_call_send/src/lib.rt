//! A Send that is granted, as far as its message comes to wait: the service simulates it, and the invariant of worlds is preserved. Lemmas
//! alone.
//!
//! # What is proved
//! With a Send that its kernel does not refuse, on an end that keeps no want of its opposite (`want` is 0), the service simulates it by the
//! step send, and the invariant of worlds is preserved (`Goes`). The premises are those of a Receive, and that the service has the version
//! of the setting, and that fewer than 2^31 events went before; each step of the service keeps its version (`run-version`). Also, of links
//! and of a state of the service, whatever event it is: where a send begins (`IsBeginning`), the links stand for the state again and all
//! clauses on links hold; so where a send changes that is not matched, with the holders of the ends that it encloses (`IsRegrouping`), if
//! these are held as the service says; all clauses on links are preserved where packets are unchanged, and entries and ends but for
//! holders, sends that are not matched and their counts (`AreLinksKept`); and who holds an end that is here (`IsHeldAs`). That the service
//! allows the step of a Send that is granted is proved whatever `want` is (`send-step`). Not in it: the match, where `want` is not 0.
//! By `send-waits-goes`, `send-step` (`proofs/Sends.antt`), `begun-links`, `begun-right` (`proofs/Begun.antt`), `regrouped-links`
//! (`proofs/RegroupedLinks.antt`), `regrouped-right` (`proofs/Regrouped.antt`), `kept-right` (`proofs/KeptClauses.antt`), `held-as`
//! (`proofs/Held.antt`), `run-version` (`proofs/Version.antt`).
#![tactic(auto)]
