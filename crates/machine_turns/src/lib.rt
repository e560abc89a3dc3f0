//! The turns of the threads of a LYNX process: definitions.
#![tactic(auto)]
