//! Reading statements.

ghost use Rattle.std.specs.Prelude.{◌≡◌, ℕ, drop, map, option_map};
ghost use Rattle.lynx_descent.specs.Reading.{Reads, then_parse, name, pure};
ghost use Rattle.lynx_descent.specs.ReadingExpressions.{inside, expr};
ghost use Rattle.lynx_descent.specs.ReadingStatements as spec;
ghost use Rattle.lynx_descent.specs.ReadingStatements.{stmts, body_of, handler_of};
ghost use Rattle.lynx_lexer.specs.declared.keyword.Keyword.TheVariants as keywords;
ghost use Rattle.lynx_tree.specs.Trees as trees;
ghost use Rattle.lynx_tree.specs.Trees.{boxed_tree, stmt_tree};

use crate::make_statement::{
    accept_of, assign_of, attempt_of, choice_of, connect_of, repetition_of, reply_of,
};
use crate::reader::Reader;
use crate::spare::without_spare;
use lynx_descent::{Ahead, Refusal};
use lynx_lexer::{IdentRef, Keyword, Sign};
use lynx_tree::{Expr, Handler, Stmt};

impl<'t, 'a> Reader<'t, 'a> {
    #[tactic(auto, unfolding(lynx_descent::specs::ReadingStatements::assign))]
    fn assign(&mut self, room: usize) -> Result<Stmt<'a>, Refusal>
        ensures { Reads stmt_tree (spec.assign room self.old) result self.new }
    {
        let name = self.name()?;
        let index = self.index(room)?;
        self.sign(Sign::Becomes)?;
        let value = self.expr(room)?;
        Ok(assign_of(name, index, value))
    }

    /// Reads two names with a keyword between.
    #[tactic(auto, unfolding(lynx_descent::specs::ReadingStatements::pair))]
    fn pair(&mut self, between: Keyword) -> Result<(IdentRef<'a>, IdentRef<'a>), Refusal>
        ensures { Reads (λ x. x) (spec.pair between self.old) result self.new }
    {
        let first = self.name()?;
        self.keyword(between)?;
        let second = self.name()?;
        Ok((first, second))
    }

    #[tactic(auto, unfolding(lynx_descent::specs::ReadingStatements::new))]
    fn new_link(&mut self) -> Result<Stmt<'a>, Refusal>
        ensures { Reads stmt_tree (spec.new (drop 1 self.old)) result self.new }
    {
        self.advance();
        let first = self.name()?;
        self.sign(Sign::Comma)?;
        let second = self.name()?;
        Ok(Stmt::New { first, second })
    }

    #[tactic(auto, unfolding(lynx_descent::specs::ReadingStatements::connect))]
    fn connect(&mut self, room: usize) -> Result<Stmt<'a>, Refusal>
        ensures { Reads stmt_tree (spec.connect room (drop 1 self.old)) result self.new }
    {
        self.advance();
        let (op, link) = self.pair(Keyword::On)?;
        let given = self.values(room)?;
        self.sign(Sign::Colon)?;
        let results = self.names(room)?;
        Ok(connect_of(op, link, given, results))
    }

    #[tactic(auto, unfolding(lynx_descent::specs::ReadingStatements::reply))]
    fn reply(&mut self, room: usize) -> Result<Stmt<'a>, Refusal>
        ensures { Reads stmt_tree (spec.reply room (drop 1 self.old)) result self.new }
    {
        self.advance();
        Ok(reply_of(self.values(room)?))
    }

    fn write(&mut self, room: usize) -> Result<Stmt<'a>, Refusal>
        ensures { Reads stmt_tree (then_parse (expr (inside room) (drop 1 self.old)) (λ e. pure (trees.Write e))) result self.new }
    {
        self.advance();
        Ok(Stmt::Write(self.expr(room)?))
    }

    fn await_stmt(&mut self, room: usize) -> Result<Stmt<'a>, Refusal>
        ensures { Reads stmt_tree (then_parse (expr (inside room) (drop 1 self.old)) (λ e. pure (trees.Await e))) result self.new }
    {
        self.advance();
        Ok(Stmt::Await(self.expr(room)?))
    }

    fn raise(&mut self) -> Result<Stmt<'a>, Refusal>
        ensures { Reads stmt_tree (then_parse (name (drop 1 self.old)) (λ n. pure (trees.Raise n))) result self.new }
    {
        self.advance();
        Ok(Stmt::Raise(self.name()?))
    }

    fn destroy(&mut self) -> Result<Stmt<'a>, Refusal>
        ensures { Reads stmt_tree (then_parse (name (drop 1 self.old)) (λ n. pure (trees.Destroy n))) result self.new }
    {
        self.advance();
        Ok(Stmt::Destroy(self.name()?))
    }

    fn bind(&mut self) -> Result<Stmt<'a>, Refusal>
        ensures { Reads stmt_tree (then_parse (spec.pair keywords.To (drop 1 self.old)) (λ p. pure (trees.Bind p.0 p.1))) result self.new }
    {
        self.advance();
        let (link, entry) = self.pair(Keyword::To)?;
        Ok(Stmt::Bind { link, entry })
    }

    fn unbind(&mut self) -> Result<Stmt<'a>, Refusal>
        ensures { Reads stmt_tree (then_parse (spec.pair keywords.From (drop 1 self.old)) (λ p. pure (trees.Unbind p.0 p.1))) result self.new }
    {
        self.advance();
        let (link, entry) = self.pair(Keyword::From)?;
        Ok(Stmt::Unbind { link, entry })
    }

    /// Reads an expression, for a box.
    fn condition(&mut self, room: usize) -> Result<Box<Expr<'a>>, Refusal>
        ensures { Reads boxed_tree (expr (inside room) self.old) result self.new }
    {
        let condition = self.expr(room)?;
        Ok(Box::new(self.alloc(), condition)?)
    }

    /// Whether the next token begins a statement.
    #[tactic(auto, unfolding(lynx_descent::specs::ReadingStatements::begins_stmt))]
    fn begins_stmt(&self) -> bool
        ensures { result ≡ spec.begins_stmt self.now }
    {
        match self.peek() {
            Ahead::Name
            | Ahead::Keyword(
                Keyword::If
                | Keyword::While
                | Keyword::Write
                | Keyword::Await
                | Keyword::Stop
                | Keyword::Raise
                | Keyword::New
                | Keyword::Destroy
                | Keyword::Bind
                | Keyword::Unbind
                | Keyword::Connect
                | Keyword::Accept
                | Keyword::Reply
                | Keyword::Try,
            ) => true,
            _ => false,
        }
    }

    /// Reads statements, each with its semicolon, where `room` more brackets and statements may be open.
    #[cycle(read_statement)]
    #[tactic(auto, using(lynx_descent::proofs::Turns::turns), unfolding(lynx_descent::specs::ReadingStatements::stmts))]
    pub fn stmts(&mut self, room: usize) -> Result<Vec<Stmt<'a>>, Refusal>
        ensures { Reads (λ v. body_of v.items) (spec.stmts room self.old) result self.new }
    {
        let mut all = Vec::new(self.alloc());
        for _turn in 0..self.left() {
            if !self.begins_stmt() {
                break;
            }
            all.push(self.stmt(room)?)?;
            self.sign(Sign::Semicolon)?;
        }
        without_spare(&mut all);
        Ok(all)
    }

    #[cycle(read_statement)]
    #[tactic(auto, unfolding(lynx_descent::specs::ReadingStatements::stmt))]
    fn stmt(&mut self, room: usize) -> Result<Stmt<'a>, Refusal>
        ensures { Reads stmt_tree (spec.stmt room self.old) result self.new }
    {
        if room == 0 {
            return Err(self.too_deep());
        }
        self.within(room - 1)
    }

    /// Reads a statement that is open.
    #[cycle(read_statement)]
    #[tactic(auto, unfolding(lynx_descent::specs::ReadingStatements::within))]
    fn within(&mut self, room: usize) -> Result<Stmt<'a>, Refusal>
        ensures { Reads stmt_tree (spec.within room (stmts room) self.old) result self.new }
    {
        match self.peek() {
            Ahead::Name => self.assign(room),
            Ahead::Keyword(Keyword::If) => self.choice(room),
            Ahead::Keyword(Keyword::While) => self.repetition(room),
            Ahead::Keyword(Keyword::Write) => self.write(room),
            Ahead::Keyword(Keyword::Await) => self.await_stmt(room),
            Ahead::Keyword(Keyword::Stop) => {
                self.advance();
                Ok(Stmt::Stop)
            }
            Ahead::Keyword(Keyword::Raise) => self.raise(),
            Ahead::Keyword(Keyword::New) => self.new_link(),
            Ahead::Keyword(Keyword::Destroy) => self.destroy(),
            Ahead::Keyword(Keyword::Bind) => self.bind(),
            Ahead::Keyword(Keyword::Unbind) => self.unbind(),
            Ahead::Keyword(Keyword::Connect) => self.connect(room),
            Ahead::Keyword(Keyword::Accept) => self.accept(room),
            Ahead::Keyword(Keyword::Reply) => self.reply(room),
            Ahead::Keyword(Keyword::Try) => self.attempt(room),
            _ => Err(self.refuse()),
        }
    }

    #[cycle(read_statement)]
    #[tactic(auto, unfolding(lynx_descent::specs::ReadingStatements::choice))]
    fn choice(&mut self, room: usize) -> Result<Stmt<'a>, Refusal>
        ensures { Reads stmt_tree (spec.choice room (stmts room) (drop 1 self.old)) result self.new }
    {
        self.advance();
        let condition = self.condition(room)?;
        self.keyword(Keyword::Then)?;
        let then = self.stmts(room)?;
        let otherwise = self.otherwise(room)?;
        self.ended(choice_of(condition, then, otherwise))
    }

    /// Reads the other side of a choice, if it has one.
    #[cycle(read_statement)]
    #[tactic(auto, unfolding(lynx_descent::specs::ReadingStatements::otherwise))]
    fn otherwise(&mut self, room: usize) -> Result<Option<Vec<Stmt<'a>>>, Refusal>
        ensures { Reads (option_map (λ v. body_of v.items)) (spec.otherwise (stmts room) self.old) result self.new }
    {
        if !self.sees_keyword(Keyword::Else) {
            return Ok(None);
        }
        self.advance();
        Ok(Some(self.stmts(room)?))
    }

    #[cycle(read_statement)]
    #[tactic(auto, unfolding(lynx_descent::specs::ReadingStatements::repetition))]
    fn repetition(&mut self, room: usize) -> Result<Stmt<'a>, Refusal>
        ensures { Reads stmt_tree (spec.repetition room (stmts room) (drop 1 self.old)) result self.new }
    {
        self.advance();
        let condition = self.condition(room)?;
        self.keyword(Keyword::Do)?;
        let body = self.stmts(room)?;
        self.ended(repetition_of(condition, body))
    }

    #[cycle(read_statement)]
    #[tactic(auto, unfolding(lynx_descent::specs::ReadingStatements::accept))]
    fn accept(&mut self, room: usize) -> Result<Stmt<'a>, Refusal>
        ensures { Reads stmt_tree (spec.accept room (stmts room) (drop 1 self.old)) result self.new }
    {
        self.advance();
        let (op, link) = self.pair(Keyword::On)?;
        let names = self.names(room)?;
        self.keyword(Keyword::Do)?;
        let body = self.stmts(room)?;
        self.ended(accept_of(op, link, names, body))
    }

    #[cycle(read_statement)]
    #[tactic(auto, unfolding(lynx_descent::specs::ReadingStatements::attempt))]
    fn attempt(&mut self, room: usize) -> Result<Stmt<'a>, Refusal>
        ensures { Reads stmt_tree (spec.attempt (stmts room) (drop 1 self.old)) result self.new }
    {
        self.advance();
        let body = self.stmts(room)?;
        let handlers = self.handlers(room)?;
        self.ended(attempt_of(body, handlers))
    }

    #[cycle(read_statement)]
    #[tactic(auto, using(lynx_descent::proofs::Turns::turns))]
    fn handlers(&mut self, room: usize) -> Result<Vec<Handler<'a>>, Refusal>
        ensures { Reads (λ v. map handler_of v.items) (spec.handlers (stmts room) self.old) result self.new }
    {
        let mut all = Vec::new(self.alloc());
        for _turn in 0..self.left() {
            if !self.sees_keyword(Keyword::When) {
                break;
            }
            all.push(self.handler(room)?)?;
        }
        without_spare(&mut all);
        Ok(all)
    }

    #[cycle(read_statement)]
    #[tactic(auto, unfolding(lynx_descent::specs::ReadingStatements::handler))]
    fn handler(&mut self, room: usize) -> Result<Handler<'a>, Refusal>
        ensures { Reads handler_of (spec.handler (stmts room) self.old) result self.new }
    {
        self.advance();
        let name = self.name()?;
        self.keyword(Keyword::Do)?;
        let body = self.stmts(room)?;
        Ok(Handler { name, body })
    }
}
