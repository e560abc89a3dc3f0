//! The shapes of code: what stands on a thread's stack at each address, and which tries and requests are open. Definitions.
#![tactic(auto)]
