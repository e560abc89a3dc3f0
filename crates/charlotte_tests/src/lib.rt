//! Tests of calls and their answers, values, packets, settings and programs, and of ports, through their public calls.
#![tactic(auto)]

#[cfg(test)]
mod calls;
mod checked;
#[cfg(test)]
mod direct;
#[cfg(test)]
mod packets;
mod ports;
#[cfg(test)]
mod programs;
#[cfg(test)]
mod samples;
#[cfg(test)]
mod settings;
#[cfg(test)]
mod several;
mod threads;
#[cfg(test)]
mod values;
