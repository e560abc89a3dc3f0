//! The tokens that are left to read, and reading one.

ghost use Rattle.std.specs.Prelude.{◌≡◌, ◌≢◌, ℕ, ◌<◌, List, length, drop, map, true, false, IfOk};
ghost use Rattle.lynx_lexer.specs.declared.keyword.Keyword.TheVariants as keywords;
ghost use Rattle.lynx_descent.specs.declared.refusal.Refusal.TheVariants as refusals;
ghost use Rattle.lynx_descent.specs.Reading as spec;
ghost use Rattle.lynx_descent.specs.Reading.{Reads};

use lynx_descent::{Ahead, Refusal};
use lynx_lexer::{IdentRef, Keyword, Kind, Left, Lexemes, Shape, Sign, TextRef};
use std::alloc::Global;
use std::marker::Model;

/// The tokens from the present place to the end.
#[derive(Drop)]
pub struct Reader<'t, 'a> {
    alloc: Global,
    rest: Left<'t, 'a>,
}

impl<'t, 'a> Model for Reader<'t, 'a> {
    ghost use Rattle.std.specs.Prelude.{List};
    ghost use Rattle.lynx_lexer.specs.declared.token.Kind.{Kind};

    ghost Value = { List Kind };

    ghost view = { λ r. r.rest };
}

#[tactic(auto, unfolding(lynx_descent::specs::Reading::same_keyword))]
pub fn same_keyword(a: Keyword, b: Keyword) -> bool
    ensures { result ≡ spec.same_keyword a b }
{
    a == b
}

#[tactic(auto, unfolding(lynx_descent::specs::Reading::same_sign))]
pub fn same_sign(a: Sign, b: Sign) -> bool
    ensures { result ≡ spec.same_sign a b }
{
    a == b
}

impl<'t, 'a> Reader<'t, 'a> {
    pub fn new(alloc: Global, tokens: &'t Lexemes<'a>) -> Reader<'t, 'a>
        ensures { result ≡ map (λ t. t.kind) tokens.now }
    {
        Reader {
            alloc,
            rest: tokens.left(),
        }
    }

    pub fn alloc(&self) -> Global {
        self.alloc
    }

    /// How many tokens are left.
    pub fn left(&self) -> usize
        ensures { result ≡ length self.now }
    {
        self.rest.len()
    }

    /// That no module goes on with the next token.
    pub fn refuse(&self) -> Refusal
        ensures { result ≡ refusals.At (length self.now) }
    {
        Refusal::At(self.left())
    }

    /// That the next token opens one bracket or statement too many.
    pub fn too_deep(&self) -> Refusal
        ensures { result ≡ refusals.TooDeep (length self.now) }
    {
        Refusal::TooDeep(self.left())
    }

    #[tactic(auto, using(crate::proofs::Aheads::ahead_told))]
    pub fn peek(&self) -> Ahead
        ensures { result ≡ spec.ahead self.now }
    {
        match self.rest.shape() {
            None => Ahead::End,
            Some(Shape::Keyword(keyword)) => Ahead::Keyword(keyword),
            Some(Shape::Sign(sign)) => Ahead::Sign(sign),
            Some(Shape::Name) => Ahead::Name,
            Some(Shape::Number) => Ahead::Number,
            Some(Shape::Text) => Ahead::Text,
        }
    }

    pub fn sees_keyword(&self, keyword: Keyword) -> bool
        ensures { result ≡ spec.sees_keyword keyword self.now }
    {
        match self.peek() {
            Ahead::Keyword(next) => same_keyword(next, keyword),
            _ => false,
        }
    }

    pub fn sees_sign(&self, sign: Sign) -> bool
        ensures { result ≡ spec.sees_sign sign self.now }
    {
        match self.peek() {
            Ahead::Sign(next) => same_sign(next, sign),
            _ => false,
        }
    }

    /// Goes past the next token, if there is one.
    pub fn advance(&mut self)
        ensures { self.new ≡ drop 1 self.old }
    {
        self.rest.advance();
    }

    /// Reads this keyword.
    #[tactic(auto, unfolding(lynx_descent::specs::Reading::keyword))]
    pub fn keyword(&mut self, keyword: Keyword) -> Result<(), Refusal>
        ensures { Reads (λ x. x) (spec.keyword keyword self.old) result self.new }
    {
        if !self.sees_keyword(keyword) {
            return Err(self.refuse());
        }
        self.advance();
        Ok(())
    }

    /// Reads this sign.
    #[tactic(auto, unfolding(lynx_descent::specs::Reading::sign))]
    pub fn sign(&mut self, sign: Sign) -> Result<(), Refusal>
        ensures { Reads (λ x. x) (spec.sign sign self.old) result self.new }
    {
        if !self.sees_sign(sign) {
            return Err(self.refuse());
        }
        self.advance();
        Ok(())
    }

    /// Reads `end` behind what was made.
    pub fn ended<T: Drop>(&mut self, made: T) -> Result<T, Refusal>
        ensures reads { Reads (λ _. tt) (spec.keyword keywords.End self.old) result self.new }
        ensures same { IfOk result (λ x. x ≡ made) }
    {
        self.keyword(Keyword::End)?;
        Ok(made)
    }

    /// Reads the sign that closes what was made.
    pub fn closed<T: Drop>(&mut self, sign: Sign, made: T) -> Result<T, Refusal>
        ensures reads { Reads (λ _. tt) (spec.sign sign self.old) result self.new }
        ensures same { IfOk result (λ x. x ≡ made) }
    {
        self.sign(sign)?;
        Ok(made)
    }

    #[tactic(auto, unfolding(lynx_descent::specs::Reading::name))]
    pub fn name(&mut self) -> Result<IdentRef<'a>, Refusal>
        ensures { Reads (λ x. x) (spec.name self.old) result self.new }
    {
        let Some(Kind::Name(name)) = self.rest.kind() else {
            return Err(self.refuse());
        };
        self.advance();
        Ok(name)
    }

    #[tactic(auto, unfolding(lynx_descent::specs::Reading::number))]
    pub fn number(&mut self) -> Result<i64, Refusal>
        ensures { Reads (λ x. x) (spec.number self.old) result self.new }
    {
        let Some(Kind::Number(number)) = self.rest.kind() else {
            return Err(self.refuse());
        };
        self.advance();
        Ok(number)
    }

    #[tactic(auto, unfolding(lynx_descent::specs::Reading::text))]
    pub fn text(&mut self) -> Result<TextRef<'a>, Refusal>
        ensures { Reads (λ x. x) (spec.text self.old) result self.new }
    {
        let Some(Kind::Text(inside)) = self.rest.kind() else {
            return Err(self.refuse());
        };
        self.advance();
        Ok(inside)
    }

    /// Goes past a token that opens a bracket or a statement, where `room` more may be open. The room inside.
    #[tactic(auto, unfolding(lynx_descent::specs::Reading::opened))]
    pub fn opened(&mut self, room: usize) -> Result<usize, Refusal>
        ensures { Reads (λ x. x) (spec.opened room self.old) result self.new }
    {
        if room == 0 {
            return Err(self.too_deep());
        }
        self.advance();
        Ok(room - 1)
    }

    /// Reads `(`. The room inside.
    #[tactic(auto, unfolding(lynx_descent::specs::Reading::bracket))]
    pub fn bracket(&mut self, room: usize) -> Result<usize, Refusal>
        ensures { Reads (λ x. x) (spec.bracket room self.old) result self.new }
    {
        if !self.sees_sign(Sign::Open) {
            return Err(self.refuse());
        }
        self.opened(room)
    }
}
