//! Reading declarations and modules.

ghost use Rattle.std.specs.Prelude.{◌≡◌, ℕ, map};
ghost use Rattle.lynx_descent.specs.Reading.{Reads};
ghost use Rattle.lynx_descent.specs.ReadingModules as spec;
ghost use Rattle.lynx_descent.specs.ReadingStatements.{body_of};
ghost use Rattle.lynx_tree.specs.Trees.{OpTree, VarTree, EntryTree, op_tree, var_tree, entry_tree, module_tree};

use crate::item::{Item, declared};
use crate::reader::Reader;
use lynx_descent::Refusal;
use lynx_lexer::{Keyword, Sign};
use lynx_tree::{EntryDecl, Module, OpDecl, Stmt, VarDecl};

impl<'a> Item<'a> for OpDecl<'a> {
    ghost Tree = { OpTree };

    ghost tree = { op_tree };

    ghost parser = { spec.op };

    fn read<'t>(reader: &mut Reader<'t, 'a>, room: usize) -> Result<OpDecl<'a>, Refusal> {
        reader.op(room)
    }
}

impl<'a> Item<'a> for VarDecl<'a> {
    ghost Tree = { VarTree };

    ghost tree = { var_tree };

    ghost parser = { λ _. spec.var };

    fn read<'t>(reader: &mut Reader<'t, 'a>, _room: usize) -> Result<VarDecl<'a>, Refusal> {
        reader.var()
    }
}

impl<'a> Item<'a> for EntryDecl<'a> {
    ghost Tree = { EntryTree };

    ghost tree = { entry_tree };

    ghost parser = { spec.entry };

    fn read<'t>(reader: &mut Reader<'t, 'a>, room: usize) -> Result<EntryDecl<'a>, Refusal> {
        reader.entry(room)
    }
}

impl<'t, 'a> Reader<'t, 'a> {
    #[tactic(auto, unfolding(lynx_descent::specs::ReadingModules::op))]
    fn op(&mut self, room: usize) -> Result<OpDecl<'a>, Refusal>
        ensures { Reads op_tree (spec.op room self.old) result self.new }
    {
        self.advance();
        let name = self.name()?;
        let arguments = self.type_names(room)?;
        self.sign(Sign::Colon)?;
        let results = self.type_names(room)?;
        let op = OpDecl {
            name,
            arguments,
            results,
        };
        self.closed(Sign::Semicolon, op)
    }

    /// Reads a param or a variable.
    #[tactic(auto, unfolding(lynx_descent::specs::ReadingModules::var))]
    fn var(&mut self) -> Result<VarDecl<'a>, Refusal>
        ensures { Reads var_tree (spec.var self.old) result self.new }
    {
        self.advance();
        let name = self.name()?;
        self.sign(Sign::Colon)?;
        let kind = self.type_name()?;
        self.closed(Sign::Semicolon, VarDecl { name, kind })
    }

    /// Reads statements from `begin` to `end`.
    #[tactic(auto, unfolding(lynx_descent::specs::ReadingModules::body))]
    fn body(&mut self, room: usize) -> Result<Vec<Stmt<'a>>, Refusal>
        ensures { Reads (λ v. body_of v.items) (spec.body room self.old) result self.new }
    {
        self.keyword(Keyword::Begin)?;
        let body = self.stmts(room)?;
        self.ended(body)
    }

    #[tactic(auto, using(crate::proofs::MadeStatements::stmts_listed), unfolding(lynx_descent::specs::ReadingModules::entry))]
    fn entry(&mut self, room: usize) -> Result<EntryDecl<'a>, Refusal>
        ensures { Reads entry_tree (spec.entry room self.old) result self.new }
    {
        self.advance();
        let name = self.name()?;
        self.keyword(Keyword::Of)?;
        let op = self.name()?;
        let parameters = self.names(room)?;
        let vars = declared(self, Keyword::Var, room)?;
        let body = self.body(room)?;
        let entry = EntryDecl {
            name,
            op,
            parameters,
            vars,
            body,
        };
        self.closed(Sign::Semicolon, entry)
    }

    #[tactic(auto, using(crate::proofs::MadeStatements::stmts_listed), unfolding(lynx_descent::specs::ReadingModules::one_module))]
    fn one_module(&mut self, room: usize) -> Result<Module<'a>, Refusal>
        ensures { Reads module_tree (spec.one_module room self.old) result self.new }
    {
        self.keyword(Keyword::Module)?;
        let name = self.name()?;
        self.sign(Sign::Semicolon)?;
        let ops = declared(self, Keyword::Op, room)?;
        let params = declared(self, Keyword::Param, room)?;
        let vars = declared(self, Keyword::Var, room)?;
        let entries = declared(self, Keyword::Entry, room)?;
        let body = self.body(room)?;
        let module = Module {
            name,
            ops,
            params,
            vars,
            entries,
            body,
        };
        self.closed(Sign::Dot, module)
    }

    /// Reads a module with nothing behind it, where `room` brackets and statements may be open.
    #[tactic(auto, unfolding(lynx_descent::specs::ReadingModules::whole))]
    pub fn whole(&mut self, room: usize) -> Result<Module<'a>, Refusal>
        ensures { Reads module_tree (spec.whole room self.old) result self.new }
    {
        let module = self.one_module(room)?;
        if self.left() > 0 {
            return Err(self.refuse());
        }
        Ok(module)
    }
}
