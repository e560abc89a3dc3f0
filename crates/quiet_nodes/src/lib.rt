//! Law: where nodes have run until they are quiet, no kernel keeps a trace of a link that moved on.
//!
//! # What is proved
//! Of nodes that `run_serial`, `run_nodes` or `run_nodes_with` of `kernel_worker` answers as quiet: nothing is under way between them, and each entry
//! of the table of a node's kernel is of an end that one of its own processes owns, or has enclosed in a message that waits. So no forwarding entry
//! and no mark of a destroyed end is left, whichever order came. No command uses it yet.
//! By law `quiet_nodes_are_bare`; `AreBare` in `specs/Bare.antt`. By lemmas nothing is under way (`none-left` in `proofs/Bare.antt`), and there is a
//! merge of their journals (`nodes-merge` in `proofs/Rising.antt`).
#![tactic(auto)]

mod law;

pub use law::quiet_nodes_are_bare;
