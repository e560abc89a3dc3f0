//! What a LYNX process does, step by step: a function of a state and an answer. Its threads take turns by the machine, and its ends follow their
//! protocol; here both come together.
#![tactic(auto)]
