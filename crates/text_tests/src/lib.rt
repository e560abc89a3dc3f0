//! Tests of texts, journals, scripts, transcripts and their replay, through the public calls of their crates.
#![tactic(auto)]

#[cfg(test)]
mod forms;
#[cfg(test)]
mod journals;
#[cfg(test)]
mod lines;
#[cfg(test)]
mod noted;
#[cfg(test)]
mod plans;
#[cfg(test)]
mod reading;
#[cfg(test)]
mod replays;
#[cfg(test)]
mod scripts;
#[cfg(test)]
mod seeded;
#[cfg(test)]
mod texts;
#[cfg(test)]
mod transcripts;
#[cfg(test)]
mod values;
