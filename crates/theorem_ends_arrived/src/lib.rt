//! Ends that a packet carries arrive at the kernel that takes it: all clauses on links are preserved. And the end of an event that takes a
//! packet. Definitions and lemmas alone.
//!
//! # What is proved
//! A packet with a message is taken, and the ends that it carries arrive at that kernel, owned by one process of it; the packet and the
//! message remain without them: all clauses on links are true then. None of its values is of an end that is here, or of a link that is not
//! made. Ends that are here may notify their opposites. And the end of each event that takes a packet and is one step of the service: a
//! Cancel is answered, or reports are enqueued for a process, which is given the first where it waits.
//! By `landed-links`, `landed-right` (`proofs/Landed.antt`), `values-come` (`proofs/Comes.antt`), `moves-links`, `moves-right`
//! (`proofs/Moves.antt`), `answered-goes`, `reported-goes` (`proofs/Closes.antt`).
#![tactic(auto)]
