//! What a measure asks for, by the words of the program.

use std::vec::Vec;

/// The most links of one maker.
const MOST_LINKS: u32 = 65_536;

const MOST_STEPS: u32 = 4_000_000;

/// What is measured.
#[derive(Clone, Copy)]
pub(crate) enum Measure {
    /// Messages over so many links in turn.
    Rounds { links: u32, steps: u32 },
    /// Links that are made, and processes that exit.
    Exits { steps: u32 },
}

impl Measure {
    /// The measure that these words ask for.
    pub(crate) fn of(words: &[String]) -> Option<Measure> {
        match words {
            [kind, links, steps] if kind.as_str() == "rounds" => Some(Measure::Rounds {
                links: number(links.as_str(), MOST_LINKS)?,
                steps: number(steps.as_str(), MOST_STEPS)?,
            }),
            [kind, steps] if kind.as_str() == "exits" => Some(Measure::Exits {
                steps: number(steps.as_str(), MOST_STEPS)?,
            }),
            _ => None,
        }
    }
}

/// A number from 1 to the most.
fn number(word: &str, most: u32) -> Option<u32> {
    let value = word.parse::<u32>().ok()?;
    if 1 <= value && value <= most {
        Some(value)
    } else {
        None
    }
}
