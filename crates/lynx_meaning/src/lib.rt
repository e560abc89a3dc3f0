//! What a thread of a LYNX module does, by its source and by its code: definitions.
#![tactic(auto)]
