//! Nodes: kernels that run concurrently, each with its journal, its port and the programs of its processes. The pure core, without threads.
//!
//! # What is proved
//! A turn is what `IsTurn` says, by cases: a snapshot is begun where it is time, letters are put in order, then a packet is taken, a marker is
//! kept, or the next program in round order makes a step, and only where no letter is known. By a law, `node-turned`, a node stays one
//! through each turn (`IsNode`): its kernel and its journal are those of a local run, what it put and has to put is what that run sends,
//! with the markers in their places, what it got is what the run took, its programs replay the entries that it noted, and the turns used
//! are the packets taken and the steps made. After want of memory kernel and journal are as before, and no further turn is made
//! (`node-spoiled`). A node at its start is one (`node-started`). Each turn keeps its place in the net, what it is to do and what its watch was
//! made with (`Goes`), which chains over many turns (`goes-both`). What is left to do is a number (`weight`), which falls with each turn that
//! does something; after one that did nothing and began no snapshot no letter was known, no program could go on, and for no letter that is
//! left is a place known (`idle-stands`). The command `run` uses it.
//! By clauses of `Node::start`, `Node::turn`, the readers and `meet_nodes`; `IsNode` in `specs/Nodes.antt`, `IsTurn` in `specs/Turns.antt`,
//! `SameRun` in `specs/Amid.antt`, `Goes` and `IsAtRest` in `specs/Goes.antt`, `weight` in `specs/Left.antt`; the laws in
//! `proofs/Turned.antt`, `Starting.antt`, `Goes.antt` and `Left.antt`.
#![tactic(auto)]

mod base;
mod course;
mod node;
mod turning;
mod watch;

pub use base::Orders;
pub use course::Course;
pub use node::{Node, Turn, meet_nodes};
pub use program_round::CallList;
pub use watch::{NoWatch, Watch};
