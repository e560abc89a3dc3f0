//! The keywords.

ghost use Rattle.std.specs.Prelude.{◌≡◌, ◌≢◌, ◌≤◌, ◌<◌, ◌↔◌, length, Some, IsTrue, IfSome, IfNone};
ghost use Rattle.lynx_lexer.specs.declared.keyword.Keyword.{Keyword};
ghost use Rattle.lynx_lexer.specs.Words.{word_of};
ghost use Rattle.lynx_lexer.specs.Slots.{slot_of, keyword_at};

/// A keyword: a word of the grammar in lower case, which is no name.
#[derive(Clone, Copy, Debug, PartialEq, Eq)]
pub enum Keyword {
    Module,
    Begin,
    End,
    Op,
    Param,
    Var,
    Entry,
    Of,
    Int,
    Bool,
    Text,
    Link,
    Row,
    If,
    Then,
    Else,
    While,
    Do,
    Write,
    Await,
    Stop,
    Raise,
    New,
    Destroy,
    Bind,
    To,
    Unbind,
    From,
    Connect,
    On,
    Accept,
    Reply,
    Try,
    When,
    Or,
    And,
    Mod,
    Not,
    True,
    False,
}

impl Keyword {
    /// The keyword's spelling.
    pub fn as_slice(self) -> &'static [u8]
        ensures { result.now ≡ word_of self }
    {
        match self {
            Keyword::Module => b"module",
            Keyword::Begin => b"begin",
            Keyword::End => b"end",
            Keyword::Op => b"op",
            Keyword::Param => b"param",
            Keyword::Var => b"var",
            Keyword::Entry => b"entry",
            Keyword::Of => b"of",
            Keyword::Int => b"int",
            Keyword::Bool => b"bool",
            Keyword::Text => b"text",
            Keyword::Link => b"link",
            Keyword::Row => b"row",
            Keyword::If => b"if",
            Keyword::Then => b"then",
            Keyword::Else => b"else",
            Keyword::While => b"while",
            Keyword::Do => b"do",
            Keyword::Write => b"write",
            Keyword::Await => b"await",
            Keyword::Stop => b"stop",
            Keyword::Raise => b"raise",
            Keyword::New => b"new",
            Keyword::Destroy => b"destroy",
            Keyword::Bind => b"bind",
            Keyword::To => b"to",
            Keyword::Unbind => b"unbind",
            Keyword::From => b"from",
            Keyword::Connect => b"connect",
            Keyword::On => b"on",
            Keyword::Accept => b"accept",
            Keyword::Reply => b"reply",
            Keyword::Try => b"try",
            Keyword::When => b"when",
            Keyword::Or => b"or",
            Keyword::And => b"and",
            Keyword::Mod => b"mod",
            Keyword::Not => b"not",
            Keyword::True => b"true",
            Keyword::False => b"false",
        }
    }

    /// The keyword that is spelled so.
    pub fn from_slice(word: &[u8]) -> Option<Keyword>
        ensures found { IfSome result (λ keyword. word.now ≡ word_of keyword) }
        ensures none { IfNone result ((keyword : Keyword) → word.now ≢ word_of keyword) }
    {
        let keyword = candidate(word)?;
        if !keyword.spells(word) {
            return None;
        }
        Some(keyword)
    }

    fn spells(self, word: &[u8]) -> bool
        ensures { IsTrue result ↔ (word.now ≡ word_of self) }
    {
        self.as_slice() == word
    }
}

/// The only keyword that the word can be.
fn candidate(word: &[u8]) -> Option<Keyword>
    ensures { (keyword : Keyword) → word.now ≡ word_of keyword → result ≡ Some keyword }
{
    if word.len() < 2 || word.len() > 7 {
        return None;
    }
    keyword_at(slot(word))
}

/// A perfect hash of keywords, by the first two bytes and the length.
fn slot(word: &[u8]) -> usize
    requires { 2 ≤ length word.now × length word.now ≤ 7 }
    ensures value { result ≡ slot_of word.now }
    ensures fits { result < 128 }
{
    (usize::from(word[0]) + 6 * usize::from(word[1]) + 4 * word.len()) % 128
}

/// The keyword whose spelling has the slot.
#[tactic(auto, unfolding(crate::specs::Slots::keyword_at))]
fn keyword_at(slot: usize) -> Option<Keyword>
    ensures { result ≡ keyword_at slot }
{
    match slot {
        1 => Some(Keyword::And),
        5 => Some(Keyword::End),
        6 => Some(Keyword::Do),
        9 => Some(Keyword::Int),
        11 => Some(Keyword::On),
        12 => Some(Keyword::Bool),
        13 => Some(Keyword::Entry),
        19 => Some(Keyword::Mod),
        20 => Some(Keyword::Not),
        22 => Some(Keyword::To),
        23 => Some(Keyword::Op),
        24 => Some(Keyword::Row),
        25 => Some(Keyword::Connect),
        31 => Some(Keyword::Module),
        33 => Some(Keyword::Unbind),
        34 => Some(Keyword::From),
        35 => Some(Keyword::Or),
        44 => Some(Keyword::Try),
        48 => Some(Keyword::True),
        55 => Some(Keyword::Write),
        59 => Some(Keyword::Stop),
        63 => Some(Keyword::Await),
        64 => Some(Keyword::False),
        72 => Some(Keyword::Var),
        74 => Some(Keyword::Param),
        75 => Some(Keyword::Accept),
        76 => Some(Keyword::Raise),
        84 => Some(Keyword::Begin),
        85 => Some(Keyword::If),
        88 => Some(Keyword::New),
        91 => Some(Keyword::Of),
        94 => Some(Keyword::Destroy),
        98 => Some(Keyword::Text),
        100 => Some(Keyword::Reply),
        104 => Some(Keyword::Bind),
        114 => Some(Keyword::Link),
        116 => Some(Keyword::Then),
        119 => Some(Keyword::When),
        123 => Some(Keyword::While),
        125 => Some(Keyword::Else),
        _ => None,
    }
}
