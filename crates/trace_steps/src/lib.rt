//! Steps of the service, as far as the clauses on traces speak of its ends. Definitions and lemmas alone.
//!
//! # What is proved
//! The clauses speak of which ends live, know of the death of their link, and are destroyed; what agrees with them there has them too (`same-traced` in
//! `proofs/Same.antt`). All but a make, a destroy, an exit, a notice and a back leave that as it is (`run-open` in `proofs/Steps.antt`); by a notice, and
//! by a back at an end that did not know of the death, that end knows it, and by a back at a destroyed end those that it carries are destroyed.
#![tactic(auto)]
