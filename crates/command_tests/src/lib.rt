//! Tests of commands, over files and sinks in memory and over those of the host.
#![tactic(auto)]

#[cfg(test)]
mod ends;
#[cfg(test)]
mod faults;
#[cfg(test)]
mod host;
#[cfg(test)]
mod sinks;
