//! Tests of the link service by direct calls: each step once allowed, and once refused for each of its conditions; and each call of
//! the parts that keep its ends and processes.
#![tactic(auto)]

#[cfg(test)]
mod links;
#[cfg(test)]
mod processes;
#[cfg(test)]
mod rows;
#[cfg(test)]
mod service;
