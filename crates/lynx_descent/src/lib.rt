//! Recursive descent, as a definition: what reading tokens by the grammar answers, with lemmas that what is read is a tree's.
//!
//! The parser holds the tokens from the present place on, and each word of the grammar is one function of it, which answers what the
//! definition of the same name here answers. `proofs/Told*.antt` go from an answer to the tokens. What such an answer says of the grammar
//! is proved of these definitions alone, so public clauses cite `Grammar` and `Faults` of `lynx_tree` only.
#![tactic(auto)]

mod ahead;
mod refusal;

pub use ahead::Ahead;
pub use refusal::Refusal;
