//! Worked runs of LYNX processes: what a process asks, call by call, where it is told these answers.
#![tactic(auto)]

#[cfg(test)]
mod actions;
#[cfg(test)]
mod calls;
#[cfg(test)]
mod requests;
#[cfg(test)]
mod runs;
#[cfg(test)]
mod spelled;
#[cfg(test)]
mod told;
