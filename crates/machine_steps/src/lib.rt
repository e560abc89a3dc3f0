//! What each instruction of a thread finds, and what it does: definitions.
#![tactic(auto)]
