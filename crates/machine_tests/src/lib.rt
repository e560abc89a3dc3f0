//! Tests of the machine on the code of modules.
#![tactic(auto)]

#[cfg(test)]
mod exceptions;
#[cfg(test)]
mod instructions;
#[cfg(test)]
mod playing;
#[cfg(test)]
mod requests;
#[cfg(test)]
mod turns;
#[cfg(test)]
mod words;
