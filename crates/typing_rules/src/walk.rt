//! A walk over the tokens of a module.

ghost use Rattle.std.specs.Prelude.{◌≡◌, ◌+◌, ◌<◌, None};
ghost use Rattle.typing_rules.specs.Rules.{demand};
ghost use Rattle.typing_rules.specs.Found.{found_fault, first_found};
ghost use Rattle.typing_rules.specs.Progress.{earlier, first_with};
ghost use Rattle.typing_rules.specs.Modules.{is_no_later};

use std::marker::Model;

/// A rule that fails, and the number of the token at which it does.
#[derive(Clone, Copy)]
pub struct Found {
    pub place: u32,
    pub rule: u8,
}

/// How far a walk over a module's tokens has come, and the first fault on the way.
#[derive(Drop)]
pub struct Walk {
    at: u32,
    first: Option<Found>,
}

impl Model for Walk {
    ghost use Rattle.typing_rules.specs.Progress.{Progress};
    ghost use Rattle.typing_rules.specs.Found.{found_fault, first_found};

    ghost Value = { Progress };

    ghost view = { λ w. record { at = w.at; first = first_found w.first } };
}

/// Whether a fault stands at an earlier place than another, or at the same place and its rule is no later.
fn is_no_later(a: Found, b: Found) -> bool
    ensures { result ≡ is_no_later (found_fault a) (found_fault b) }
{
    a.place < b.place || (a.place == b.place && a.rule <= b.rule)
}

impl Walk {
    /// A walk that begins at the first token.
    pub fn start() -> Walk
        ensures at { result.at ≡ 0 }
        ensures first { result.first ≡ None }
    {
        Walk { at: 0, first: None }
    }

    /// The number of the next token.
    pub fn at(&self) -> u32
        ensures { result ≡ self.now.at }
    {
        self.at
    }

    /// The first fault so far.
    pub fn first(&self) -> Option<Found>
        ensures { first_found result ≡ self.now.first }
    {
        self.first
    }

    /// Goes on by this many tokens.
    pub fn skip(&mut self, tokens: u32)
        requires { self.old.at + tokens < 4294967296 }
        ensures at { self.new.at ≡ self.old.at + tokens }
        ensures first { self.new.first ≡ self.old.first }
    {
        self.at += tokens;
    }

    /// Notes that the rule fails at the place, unless what it demands holds, and hands that on.
    pub fn demand(&mut self, rule: u8, place: u32, holds: bool) -> bool
        ensures at { self.new.at ≡ self.old.at }
        ensures first { self.new.first ≡ first_with self.old.first (demand rule place holds) }
        ensures holds { result ≡ holds }
    {
        if !holds {
            self.note(Found { place, rule });
        }
        holds
    }

    /// Keeps the earlier one of the first fault so far and this one.
    fn note(&mut self, found: Found)
        ensures at { self.new.at ≡ self.old.at }
        ensures first { self.new.first ≡ earlier self.old.first (found_fault found) }
    {
        match self.first {
            Some(first) if is_no_later(first, found) => {}
            _ => self.first = Some(found),
        }
    }
}
