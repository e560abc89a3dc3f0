//! Laws of the grammar: a list of tokens has at most one tree, and recursive descent finds it, or the first fault.
//!
//! `proofs/Find*.antt` go from a tree to the answer of a descent. `proofs/Locality*.antt` show that what is read up to a token does not
//! depend on what stands behind it: so a refusal at a token is one for every list that goes on from there (`proofs/Exact.antt`).
#![tactic(auto)]

mod law;

pub use law::one_tree;
