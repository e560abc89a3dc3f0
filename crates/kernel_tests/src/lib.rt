//! Tests of the ends' table, of what a kernel does with messages and with ends that move, and of a whole kernel, through the public calls.
#![tactic(auto)]

#[cfg(test)]
mod acts;
#[cfg(test)]
mod kernel;
#[cfg(test)]
mod messages;
#[cfg(test)]
mod moves;
#[cfg(test)]
mod node;
#[cfg(test)]
mod samples;
#[cfg(test)]
mod states;
#[cfg(test)]
mod table;
#[cfg(test)]
mod telling;
