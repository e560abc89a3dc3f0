//! Laws: nodes that have met made one run of the world, and so one lawful run of the link service.
//!
//! # What is proved
//! Hold the nodes of all kernels of a setting together, once each two of them have met. What each kernel took of another, followed by
//! the packets between them, in the net or an outbox, is what this one sent to it. So their journals in the order of a merge are the
//! record of one run of the world, which leaves each kernel as its node has it and these packets under way, and it is a lawful run of the
//! link service. No kernel's stamp is greater than the number of all events, so it is far below the greatest. Nodes at their start are
//! nodes of their setting. The command `run` uses it.
//! By lemmas `nodes-fit`, `nodes-are_one_run`, `nodes-are_lawful` in `proofs/Fitting.antt`, `nodes-early` in `proofs/Stamps.antt`,
//! `nodes-started` in `proofs/Beginning.antt`; `AreNodes`, `HaveMet`, `left_at` in `specs/Net.antt`.
#![tactic(auto)]
