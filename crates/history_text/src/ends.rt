//! Ends by the names of their links, and what stands behind them.
ghost use Rattle.std.specs.Prelude.{◌≡◌, ◌<◌, ◌≤◌, ℕ};
ghost use Rattle.charlotte_text.specs.Reading.{Gives, side_of};
ghost use Rattle.charlotte_text.specs.Spelling.{most_ends};
ghost use Rattle.history_text.specs.Ends.{told_end};
ghost use Rattle.history_text.specs.Names.{Takes};
ghost use Rattle.transcript_reading.specs.Forms.{first_of, only_of};
ghost use Rattle.history_text.specs.Forms.{before_last, split_end, untold_link, link_of, end_of, plus_end_of, ends_of, end_number_of, end_way_of};
ghost use Rattle.history_text.specs.declared.stage.Scope.TheVariants as scope;

use crate::draft::Draft;
use crate::name::is_name;
use crate::stage::Scope;
use crate::words::Words;
use arrayvec::ArrayVec;
use charlotte_calls::{EndId, Ends, LinkId, Side, Way};
use charlotte_text::{Fault, most_ends};

/// The link of names that no link has.
const NO_LINK: LinkId = LinkId {
    maker: 255,
    count: 4_294_967_295,
};

/// The bytes before the last one, which is this.
#[tactic(auto, unfolding(crate::specs::Forms::before_last))]
pub(crate) fn before_last(last: u8, word: &[u8]) -> Result<&[u8], Fault>
    requires { 0 < last }
    ensures { Gives (λ x. x.now) result (before_last last word.now) }
{
    match word.split_last() {
        Some((byte, front)) if *byte == last => Ok(front),
        _ => Err(Fault::Form),
    }
}

/// A side at the end of a word, and what stands before it.
#[tactic(auto, unfolding(charlotte_text::specs::Reading::side_of))]
fn split_side(word: &[u8]) -> Result<(&[u8], Side), Fault>
    ensures { Gives (λ x. (x.0.now, x.1)) result (side_of word.now) }
{
    match word.split_last() {
        Some((b'a', front)) => Ok((front, Side::A)),
        Some((b'b', front)) => Ok((front, Side::B)),
        _ => Err(Fault::Form),
    }
}

/// A name, a dot and a side.
#[tactic(auto, unfolding(crate::specs::Forms::split_end))]
fn split_end(word: &[u8]) -> Result<(&[u8], Side), Fault>
    ensures { Gives (λ x. (x.0.now, x.1)) result (split_end word.now) }
{
    let (front, side) = split_side(word)?;
    let name = before_last(b'.', front)?;
    Ok((name, side))
}

/// A word that names no link: in a call it may be a name.
fn untold_link(scope: Scope, word: &[u8]) -> Result<LinkId, Fault>
    ensures { result ≡ untold_link scope word.now }
{
    match scope {
        Scope::Step => Err(Fault::Form),
        Scope::Call if is_name(word) => Ok(NO_LINK),
        Scope::Call => Err(Fault::Form),
    }
}

impl Draft {
    /// The link of a name.
    #[tactic(auto, unfolding(crate::specs::Forms::link_of))]
    fn read_link(&self, scope: Scope, word: &[u8]) -> Result<LinkId, Fault>
        ensures { result ≡ link_of scope self.now word.now }
    {
        match self.link_named(word) {
            Some(link) => Ok(link),
            None => untold_link(scope, word),
        }
    }

    /// The end that a word names.
    #[tactic(auto, unfolding(crate::specs::Forms::end_of))]
    fn read_end(&self, scope: Scope, word: &[u8]) -> Result<EndId, Fault>
        ensures { result ≡ end_of scope self.now word.now }
    {
        let (name, side) = split_end(word)?;
        let link = self.read_link(scope, name)?;
        Ok(EndId { link, side })
    }

    /// An end behind a plus.
    #[tactic(auto, unfolding(crate::specs::Forms::plus_end_of))]
    fn read_plus_end(&self, scope: Scope, word: &[u8]) -> Result<EndId, Fault>
        ensures { result ≡ plus_end_of scope self.now word.now }
    {
        match word {
            [b'+', end @ ..] => self.read_end(scope, end),
            _ => Err(Fault::Form),
        }
    }

    /// The end of a name, as `mail.a`.
    pub fn end_named(&self, name: &[u8]) -> Result<EndId, Fault>
        ensures { result ≡ told_end self.now name.now }
    {
        self.read_end(Scope::Step, name)
    }

    /// The next word, an end.
    pub(crate) fn end(&self, scope: Scope, words: &mut Words<'_>) -> Result<EndId, Fault>
        ensures { Takes (first_of (end_of scope self.now) words.old) result words.new }
    {
        let word = words.next()?;
        Ok(self.read_end(scope, word)?)
    }

    /// The only word, an end.
    pub(crate) fn only_end(&self, scope: Scope, mut words: Words<'_>) -> Result<EndId, Fault>
        ensures { result ≡ only_of (end_of scope self.now) words.entry }
    {
        let on = self.end(scope, &mut words)?;
        words.finish()?;
        Ok(on)
    }

    /// An end and a number, and nothing behind them.
    #[tactic(auto, unfolding(crate::specs::Forms::end_number_of))]
    pub(crate) fn end_number(&self, mut words: Words<'_>) -> Result<(EndId, u32), Fault>
        ensures { result ≡ end_number_of self.now words.entry }
    {
        let on = self.end(Scope::Step, &mut words)?;
        let n = words.number()?;
        words.finish()?;
        Ok((on, n))
    }

    /// An end and a direction, and nothing behind them.
    #[tactic(auto, unfolding(crate::specs::Forms::end_way_of))]
    pub(crate) fn end_way(&self, scope: Scope, mut words: Words<'_>) -> Result<(EndId, Way), Fault>
        ensures { result ≡ end_way_of scope self.now words.entry }
    {
        let on = self.end(scope, &mut words)?;
        let way = words.way()?;
        words.finish()?;
        Ok((on, way))
    }

    /// All words that are left, the ends of a message.
    pub(crate) fn ends(&self, scope: Scope, words: Words<'_>) -> Result<Ends, Fault>
        ensures { result ≡ ends_of scope self.now (most_ends self.now.version) words.entry }
    {
        self.ends_up_to(scope, most_ends(self.version()), words)
    }

    /// All words that are left, ends that are at most so many.
    fn ends_up_to(&self, scope: Scope, most: usize, words: Words<'_>) -> Result<Ends, Fault>
        requires { most ≤ 8 }
        ensures { result ≡ ends_of scope self.now most words.entry }
    {
        let mut rest = words;
        let mut ends = ArrayVec::<EndId, 8>::new();
        while let Some(word) = rest.pop() {
            if most <= ends.len() {
                return Err(Fault::Form);
            }
            ends.push(self.read_plus_end(scope, word)?);
        }
        Ends::from_slice(ends.as_slice()).ok_or(Fault::Form)
    }
}
