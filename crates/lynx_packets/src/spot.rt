//! What may stand next in a signature.

ghost use Rattle.std.specs.Prelude.{◌≡◌, ◌<◌, ◌≤◌, length, IsTrue};
ghost use Rattle.lynx_packets.specs.Spots.{closes, goes_on, ends, behind, may_link, letters_of, word_begun, started, worded, spelled, closed, ended_on, digits_on, one_on, next_spot, type_of_word, is_last, digit_told, one_told, is_done, type_told, letter_on, opened_on};

use lynx_tree::TypeName;

/// The two lists of types of a signature.
#[derive(Clone, Copy)]
pub(crate) enum Part {
    Arguments,
    Results,
}

/// The word of a type.
#[derive(Clone, Copy)]
pub(crate) enum Word {
    Int,
    Bool,
    Text,
    Link,
    Row,
}

/// Where a reader stands in a signature, behind the name.
#[derive(Clone, Copy)]
pub(crate) enum Spot {
    /// Behind an opening bracket.
    Opened(Part),
    /// Behind a comma.
    Comma(Part),
    /// Behind so many letters of a word.
    Within(Part, Word, usize),
    /// Behind `row`.
    Digits(Part),
    /// Behind `row1`.
    One(Part),
    /// Behind a type.
    Ended(Part),
    /// Behind the arguments and their closing bracket.
    Colon,
    /// Behind the colon.
    Open,
    /// Behind the whole signature.
    Done,
}

impl Part {
    /// Whether a closing bracket may stand here, so many bytes before the end of the signature.
    #[inline(always)]
    fn closes(self, left: usize) -> bool
        ensures { result ≡ closes self left }
    {
        match self {
            Part::Arguments => left == 4 || (7 <= left && left != 10),
            Part::Results => left == 1,
        }
    }

    /// Whether a comma may stand here.
    #[inline(always)]
    fn goes_on(self, left: usize) -> bool
        ensures { result ≡ goes_on self left }
    {
        match self {
            Part::Arguments => 8 <= left,
            Part::Results => (5 <= left && left <= 7) || 9 <= left,
        }
    }

    /// Whether the part can go on behind so many bytes more.
    #[inline(always)]
    fn behind(self, left: usize, width: usize) -> bool
        ensures { result ≡ behind self left width }
    {
        width <= left && (self.closes(left - width) || self.goes_on(left - width))
    }

    #[inline(always)]
    fn may_link(self, links: u8) -> bool
        ensures { result ≡ may_link self links }
    {
        match self {
            Part::Arguments => links != 0,
            Part::Results => true,
        }
    }

    #[tactic(auto, unfolding(crate::specs::Spots::word_begun))]
    #[inline(always)]
    fn begin(self, links: u8, left: usize, byte: u8) -> Option<Word>
        ensures { result ≡ word_begun self links left byte }
    {
        match byte {
            b'i' if self.behind(left, 3) => Some(Word::Int),
            b'b' if self.behind(left, 4) => Some(Word::Bool),
            b't' if self.behind(left, 4) => Some(Word::Text),
            b'l' if self.may_link(links) && self.behind(left, 4) => Some(Word::Link),
            b'r' if self.behind(left, 4) || self.behind(left, 5) => Some(Word::Row),
            _ => None,
        }
    }

    #[inline(always)]
    fn start(self, links: u8, left: usize, byte: u8) -> Option<Spot>
        ensures { result ≡ started self (word_begun self links left byte) }
    {
        match self.begin(links, left, byte) {
            Some(word) => Some(Spot::Within(self, word, 1)),
            None => None,
        }
    }

    #[inline(always)]
    fn closed(self) -> Spot
        ensures { result ≡ closed self }
    {
        match self {
            Part::Arguments => Spot::Colon,
            Part::Results => Spot::Done,
        }
    }

    /// Behind an opening bracket.
    #[inline(always)]
    fn open(self, links: u8, left: usize, byte: u8) -> Option<Spot>
        ensures { result ≡ opened_on links self left byte }
    {
        if byte == b')' && self.closes(left) {
            return Some(self.closed());
        }
        self.start(links, left, byte)
    }

    /// Behind a type.
    #[inline(always)]
    fn end(self, left: usize, byte: u8) -> Option<Spot>
        ensures { result ≡ ended_on self left byte }
    {
        match byte {
            b')' if self.closes(left) => Some(self.closed()),
            b',' if self.goes_on(left) => Some(Spot::Comma(self)),
            _ => None,
        }
    }

    /// Behind `row`.
    #[inline(always)]
    fn digit(self, left: usize, byte: u8) -> Option<Spot>
        ensures { result ≡ digits_on self left byte }
    {
        match byte {
            b'1' => Some(Spot::One(self)),
            b'2'..=b'9' if self.behind(left, 1) => Some(Spot::Ended(self)),
            _ => None,
        }
    }

    /// Behind `row1`.
    #[inline(always)]
    fn second_digit(self, left: usize, byte: u8) -> Option<Spot>
        ensures { result ≡ one_on self left byte }
    {
        match byte {
            b'0'..=b'6' if self.behind(left, 1) => Some(Spot::Ended(self)),
            b'0'..=b'6' => None,
            _ => self.end(left, byte),
        }
    }
}

impl Word {
    #[inline(always)]
    fn letters(self) -> &'static [u8]
        ensures { result.now ≡ letters_of self }
    {
        match self {
            Word::Int => b"int",
            Word::Bool => b"bool",
            Word::Text => b"text",
            Word::Link => b"link",
            Word::Row => b"row",
        }
    }

    /// The type, but of a row.
    #[inline(always)]
    fn kind(self) -> Option<TypeName>
        ensures { result ≡ type_of_word self }
    {
        match self {
            Word::Int => Some(TypeName::Int),
            Word::Bool => Some(TypeName::Bool),
            Word::Text => Some(TypeName::Text),
            Word::Link => Some(TypeName::Link),
            Word::Row => None,
        }
    }

    #[inline(always)]
    fn is_last(self, at: usize) -> bool
        ensures { result ≡ is_last self at }
    {
        at == self.letters().len().saturating_sub(1)
    }

    /// Behind the last letter.
    #[inline(always)]
    fn end(self, part: Part) -> Spot
        ensures { result ≡ worded part self }
    {
        match self {
            Word::Row => Spot::Digits(part),
            _ => Spot::Ended(part),
        }
    }

    /// Behind the letter at this place, if it is the byte.
    #[inline(always)]
    fn letter(self, part: Part, at: usize, byte: u8) -> Option<Spot>
        ensures { result ≡ letter_on part self at byte }
    {
        let letters = self.letters();
        if at >= letters.len() || byte != letters[at] {
            return None;
        }
        if self.is_last(at) {
            return Some(self.end(part));
        }
        Some(Spot::Within(part, self, at + 1))
    }
}

impl Spot {
    #[inline(always)]
    pub(crate) fn is_done(self) -> bool
        ensures { result ≡ is_done self }
    {
        matches!(self, Spot::Done)
    }

    /// Behind one more byte, where so many bytes of the signature are left with this one, and so many links may still come among the
    /// arguments. None where no signature of this size goes on so.
    #[tactic(auto, unfolding(crate::specs::Spots::next_spot))]
    #[inline(always)]
    pub(crate) fn next(self, links: u8, left: usize, byte: u8) -> Option<Spot>
        ensures { result ≡ next_spot links left self byte }
    {
        match self {
            Spot::Opened(part) => part.open(links, left, byte),
            Spot::Comma(part) => part.start(links, left, byte),
            Spot::Within(part, word, at) => word.letter(part, at, byte),
            Spot::Digits(part) => part.digit(left, byte),
            Spot::One(part) => part.second_digit(left, byte),
            Spot::Ended(part) => part.end(left, byte),
            Spot::Colon if byte == b':' => Some(Spot::Open),
            Spot::Open if byte == b'(' => Some(Spot::Opened(Part::Results)),
            Spot::Colon | Spot::Open | Spot::Done => None,
        }
    }

    /// The argument's type that is known to be whole at this byte.
    #[tactic(auto, unfolding(crate::specs::Spots::type_told))]
    #[inline(always)]
    pub(crate) fn told(self, byte: u8) -> Option<TypeName>
        ensures { result ≡ type_told self byte }
    {
        match self {
            Spot::Within(Part::Arguments, word, at) if word.is_last(at) => word.kind(),
            Spot::Digits(Part::Arguments) => digit_told(byte),
            Spot::One(Part::Arguments) => Some(TypeName::Row(one_told(byte))),
            _ => None,
        }
    }
}

/// A row of one digit, behind `row`.
fn digit_told(byte: u8) -> Option<TypeName>
    ensures { result ≡ digit_told byte }
{
    match byte {
        b'2'..=b'9' => Some(TypeName::Row(i64::from(byte - 48))),
        _ => None,
    }
}

/// The length of a row behind `row1`.
fn one_told(byte: u8) -> i64
    ensures { result ≡ one_told byte }
{
    match byte {
        b'0'..=b'6' => i64::from(byte - 38),
        _ => 1,
    }
}
