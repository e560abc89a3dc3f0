//! Tests of packets of the runtime, and of what is done with them at an end, through their public calls.
#![tactic(auto)]

#[cfg(test)]
mod ends;
#[cfg(test)]
mod samples;
#[cfg(test)]
mod spellings;
