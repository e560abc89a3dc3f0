//! Tests of the language crates through their public calls.
#![tactic(auto)]

#[cfg(test)]
mod lexer;
#[cfg(test)]
mod limits;
#[cfg(test)]
mod listings;
#[cfg(test)]
mod source;
#[cfg(test)]
mod syntax;
#[cfg(test)]
mod types;
#[cfg(test)]
mod typing;
