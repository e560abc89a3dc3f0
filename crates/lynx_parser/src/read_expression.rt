//! Reading expressions.

ghost use Rattle.std.specs.Prelude.{◌≡◌, ℕ, map, option_map};
ghost use Rattle.lynx_descent.specs.Reading.{Reads, then_parse, number, pure, text};
ghost use Rattle.lynx_descent.specs.ReadingExpressions as spec;
ghost use Rattle.lynx_descent.specs.ReadingExpressions.{inside};
ghost use Rattle.lynx_tree.specs.Trees as trees;
ghost use Rattle.lynx_tree.specs.Trees.{expr_tree, boxed_tree};

use crate::make_expression::{
    and_of, bracket_of, minus_of, named_of, not_of, one, or_of, relation_of, sum_of, term_of,
};
use crate::reader::Reader;
use crate::spare::without_spare;
use lynx_descent::{Ahead, Refusal};
use lynx_lexer::{Keyword, Sign};
use lynx_tree::{Expr, TermSign};

impl<'t, 'a> Reader<'t, 'a> {
    /// The sign of a relation, if one comes next.
    #[tactic(auto, unfolding(lynx_descent::specs::ReadingExpressions::relation_sign))]
    fn relation_sign(&self) -> Option<Sign>
        ensures { result ≡ spec.relation_sign self.now }
    {
        match self.peek() {
            Ahead::Sign(Sign::Equal) => Some(Sign::Equal),
            Ahead::Sign(Sign::NotEqual) => Some(Sign::NotEqual),
            Ahead::Sign(Sign::Less) => Some(Sign::Less),
            Ahead::Sign(Sign::AtMost) => Some(Sign::AtMost),
            Ahead::Sign(Sign::Greater) => Some(Sign::Greater),
            Ahead::Sign(Sign::AtLeast) => Some(Sign::AtLeast),
            _ => None,
        }
    }

    /// The sign of a sum, if one comes next.
    #[tactic(auto, unfolding(lynx_descent::specs::ReadingExpressions::sum_sign))]
    fn sum_sign(&self) -> Option<Sign>
        ensures { result ≡ spec.sum_sign self.now }
    {
        match self.peek() {
            Ahead::Sign(Sign::Plus) => Some(Sign::Plus),
            Ahead::Sign(Sign::Minus) => Some(Sign::Minus),
            _ => None,
        }
    }

    /// The operator of a term, if one comes next.
    #[tactic(auto, unfolding(lynx_descent::specs::ReadingExpressions::term_sign))]
    fn term_sign(&self) -> Option<TermSign>
        ensures { result ≡ spec.term_sign self.now }
    {
        match self.peek() {
            Ahead::Sign(Sign::Times) => Some(TermSign::Times),
            Ahead::Sign(Sign::Over) => Some(TermSign::Over),
            Ahead::Keyword(Keyword::Mod) => Some(TermSign::Mod),
            _ => None,
        }
    }

    fn number_expr(&mut self) -> Result<Expr<'a>, Refusal>
        ensures { Reads expr_tree (then_parse (number self.old) (λ n. pure (trees.Number n))) result self.new }
    {
        Ok(Expr::Number(self.number()?))
    }

    fn text_expr(&mut self) -> Result<Expr<'a>, Refusal>
        ensures { Reads expr_tree (then_parse (text self.old) (λ inside. pure (trees.Text inside))) result self.new }
    {
        Ok(Expr::Text(self.text()?))
    }

    /// Reads an expression, inside which `room` more brackets may be open.
    #[cycle(read_expression)]
    #[tactic(auto, unfolding(lynx_descent::specs::ReadingExpressions::expr))]
    pub fn expr(&mut self, room: usize) -> Result<Expr<'a>, Refusal>
        ensures { Reads expr_tree (spec.expr (inside room) self.old) result self.new }
    {
        let first = self.conj(room)?;
        if !self.sees_keyword(Keyword::Or) {
            return Ok(first);
        }
        let mut members = one(self.alloc(), first)?;
        self.advance();
        members.push(self.conj(room)?)?;
        let members = self.disjuncts(room, members)?;
        or_of(self.alloc(), members)
    }

    /// Reads what follows each further `or`.
    #[cycle(read_expression)]
    #[tactic(auto, using(lynx_descent::proofs::Turns::turns))]
    fn disjuncts(
        &mut self,
        room: usize,
        mut members: Vec<Expr<'a>>,
    ) -> Result<Vec<Expr<'a>>, Refusal>
        ensures { Reads (λ v. map expr_tree v.items) (spec.disjuncts (inside room) (map expr_tree members.entry.items) self.old) result self.new }
    {
        for _turn in 0..self.left() {
            if !self.sees_keyword(Keyword::Or) {
                break;
            }
            self.advance();
            members.push(self.conj(room)?)?;
        }
        without_spare(&mut members);
        Ok(members)
    }

    #[cycle(read_expression)]
    #[tactic(auto, unfolding(lynx_descent::specs::ReadingExpressions::conj))]
    fn conj(&mut self, room: usize) -> Result<Expr<'a>, Refusal>
        ensures { Reads expr_tree (spec.conj (inside room) self.old) result self.new }
    {
        let first = self.rel(room)?;
        if !self.sees_keyword(Keyword::And) {
            return Ok(first);
        }
        let mut members = one(self.alloc(), first)?;
        self.advance();
        members.push(self.rel(room)?)?;
        let members = self.conjuncts(room, members)?;
        and_of(self.alloc(), members)
    }

    /// Reads what follows each further `and`.
    #[cycle(read_expression)]
    #[tactic(auto, using(lynx_descent::proofs::Turns::turns))]
    fn conjuncts(
        &mut self,
        room: usize,
        mut members: Vec<Expr<'a>>,
    ) -> Result<Vec<Expr<'a>>, Refusal>
        ensures { Reads (λ v. map expr_tree v.items) (spec.conjuncts (inside room) (map expr_tree members.entry.items) self.old) result self.new }
    {
        for _turn in 0..self.left() {
            if !self.sees_keyword(Keyword::And) {
                break;
            }
            self.advance();
            members.push(self.rel(room)?)?;
        }
        without_spare(&mut members);
        Ok(members)
    }

    #[cycle(read_expression)]
    #[tactic(auto, unfolding(lynx_descent::specs::ReadingExpressions::rel))]
    fn rel(&mut self, room: usize) -> Result<Expr<'a>, Refusal>
        ensures { Reads expr_tree (spec.rel (inside room) self.old) result self.new }
    {
        let first = self.sum(room)?;
        let Some(sign) = self.relation_sign() else {
            return Ok(first);
        };
        let first = Box::new(self.alloc(), first)?;
        self.advance();
        let second = self.sum(room)?;
        relation_of(self.alloc(), first, sign, second)
    }

    #[cycle(read_expression)]
    #[tactic(auto, using(crate::proofs::Made::nothing_more), unfolding(lynx_descent::specs::ReadingExpressions::sum))]
    fn sum(&mut self, room: usize) -> Result<Expr<'a>, Refusal>
        ensures { Reads expr_tree (spec.sum (inside room) self.old) result self.new }
    {
        let first = self.term(room)?;
        if self.sum_sign().is_none() {
            return Ok(first);
        }
        let first = Box::new(self.alloc(), first)?;
        let rest = self.summands(room)?;
        sum_of(self.alloc(), first, rest)
    }

    /// Reads operators and what follows each.
    #[cycle(read_expression)]
    #[tactic(auto, using(lynx_descent::proofs::Turns::turns))]
    fn summands(&mut self, room: usize) -> Result<Vec<(Sign, Expr<'a>)>, Refusal>
        ensures { Reads (λ v. map (λ m. (m.0, expr_tree m.1)) v.items) (spec.summands (inside room) self.old) result self.new }
    {
        let mut rest = Vec::new(self.alloc());
        for _turn in 0..self.left() {
            let Some(sign) = self.sum_sign() else {
                break;
            };
            self.advance();
            rest.push((sign, self.term(room)?))?;
        }
        Ok(rest)
    }

    #[cycle(read_expression)]
    #[tactic(auto, using(crate::proofs::Made::nothing_more), unfolding(lynx_descent::specs::ReadingExpressions::term))]
    fn term(&mut self, room: usize) -> Result<Expr<'a>, Refusal>
        ensures { Reads expr_tree (spec.term (inside room) self.old) result self.new }
    {
        let first = self.unary(room)?;
        if self.term_sign().is_none() {
            return Ok(first);
        }
        let first = Box::new(self.alloc(), first)?;
        let rest = self.factors(room)?;
        term_of(self.alloc(), first, rest)
    }

    /// Reads operators and what follows each.
    #[cycle(read_expression)]
    #[tactic(auto, using(lynx_descent::proofs::Turns::turns))]
    fn factors(&mut self, room: usize) -> Result<Vec<(TermSign, Expr<'a>)>, Refusal>
        ensures { Reads (λ v. map (λ m. (m.0, expr_tree m.1)) v.items) (spec.factors (inside room) self.old) result self.new }
    {
        let mut rest = Vec::new(self.alloc());
        for _turn in 0..self.left() {
            let Some(sign) = self.term_sign() else {
                break;
            };
            self.advance();
            rest.push((sign, self.unary(room)?))?;
        }
        Ok(rest)
    }

    #[cycle(read_expression)]
    #[tactic(auto, unfolding(lynx_descent::specs::ReadingExpressions::unary))]
    fn unary(&mut self, room: usize) -> Result<Expr<'a>, Refusal>
        ensures { Reads expr_tree (spec.unary (inside room) self.old) result self.new }
    {
        match self.peek() {
            Ahead::Sign(Sign::Minus) => {
                self.advance();
                let inner = self.prim(room)?;
                minus_of(self.alloc(), inner)
            }
            Ahead::Keyword(Keyword::Not) => {
                self.advance();
                let inner = self.prim(room)?;
                not_of(self.alloc(), inner)
            }
            _ => self.prim(room),
        }
    }

    #[cycle(read_expression)]
    #[tactic(auto, unfolding(lynx_descent::specs::ReadingExpressions::prim))]
    fn prim(&mut self, room: usize) -> Result<Expr<'a>, Refusal>
        ensures { Reads expr_tree (spec.prim (inside room) self.old) result self.new }
    {
        match self.peek() {
            Ahead::Keyword(Keyword::True) => {
                self.advance();
                Ok(Expr::True)
            }
            Ahead::Keyword(Keyword::False) => {
                self.advance();
                Ok(Expr::False)
            }
            Ahead::Sign(Sign::Open) => {
                let inner = Box::new(self.alloc(), self.inside(room)?)?;
                self.sign(Sign::Close)?;
                Ok(bracket_of(inner))
            }
            Ahead::Name => self.named(room),
            Ahead::Number => self.number_expr(),
            Ahead::Text => self.text_expr(),
            _ => Err(self.refuse()),
        }
    }

    /// Reads a variable, or a member of a row.
    #[cycle(read_expression)]
    #[tactic(auto, unfolding(lynx_descent::specs::ReadingExpressions::named))]
    fn named(&mut self, room: usize) -> Result<Expr<'a>, Refusal>
        ensures { Reads expr_tree (spec.named (inside room) self.old) result self.new }
    {
        let name = self.name()?;
        let index = self.index(room)?;
        named_of(self.alloc(), name, index)
    }

    /// Reads an index in its brackets, if `[` comes next.
    #[cycle(read_expression)]
    #[tactic(auto, unfolding(lynx_descent::specs::ReadingExpressions::index))]
    pub fn index(&mut self, room: usize) -> Result<Option<Box<Expr<'a>>>, Refusal>
        ensures { Reads (option_map boxed_tree) (spec.index (inside room) self.old) result self.new }
    {
        if !self.sees_sign(Sign::OpenRow) {
            return Ok(None);
        }
        let index = Box::new(self.alloc(), self.inside(room)?)?;
        self.sign(Sign::CloseRow)?;
        Ok(Some(index))
    }

    /// Goes past an opening bracket, and reads an expression.
    #[cycle(read_expression)]
    #[tactic(auto, unfolding(lynx_descent::specs::ReadingExpressions::inside))]
    fn inside(&mut self, room: usize) -> Result<Expr<'a>, Refusal>
        ensures { Reads expr_tree (spec.inside room self.old) result self.new }
    {
        if room == 0 {
            return Err(self.too_deep());
        }
        self.advance();
        self.expr(room - 1)
    }
}
