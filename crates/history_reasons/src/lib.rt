//! Why a step of a history is not allowed, in words, with the names of the history.
#![tactic(auto)]

mod calls;
mod messages;
mod reports;
mod steps;
mod telling;

use crate::telling::Telling;
use charlotte_calls::NoMemory;
use history_run::History;
use std::alloc::Global;

/// Why the last line of a history was not allowed: the first of the reasons of its step that holds.
pub fn reason(alloc: Global, history: &History) -> Result<Vec<u8>, NoMemory> {
    let mut telling = Telling::new(alloc, history.draft(), history.service());
    telling.step(history.act())?;
    Ok(telling.into_text())
}
