//! Reading lists in brackets.

ghost use Rattle.std.specs.Prelude.{◌≡◌, ℕ, List, map};
ghost use Rattle.lynx_descent.specs.Reading.{Reads, name};
ghost use Rattle.lynx_descent.specs.ReadingExpressions.{inside, expr};
ghost use Rattle.lynx_descent.specs.ReadingLists as spec;
ghost use Rattle.lynx_tree.specs.Trees.{ExprTree, expr_tree};
ghost use Rattle.lynx_tree.specs.declared.declaration.TypeName.{TypeName as TypeTree};

use crate::item::{Item, bracketed};
use crate::reader::Reader;
use lynx_descent::{Ahead, Refusal};
use lynx_lexer::{IdentRef, Keyword};
use lynx_tree::{Expr, TypeName};

impl<'a> Item<'a> for IdentRef<'a> {
    ghost Tree = { List ℕ };

    ghost tree = { λ ident. ident };

    ghost parser = { λ _. name };

    fn read<'t>(reader: &mut Reader<'t, 'a>, _room: usize) -> Result<IdentRef<'a>, Refusal> {
        reader.name()
    }
}

impl<'a> Item<'a> for Expr<'a> {
    ghost Tree = { ExprTree };

    ghost tree = { expr_tree };

    ghost parser = { λ room. expr (inside room) };

    fn read<'t>(reader: &mut Reader<'t, 'a>, room: usize) -> Result<Expr<'a>, Refusal> {
        reader.expr(room)
    }
}

impl<'a> Item<'a> for TypeName {
    ghost Tree = { TypeTree };

    ghost tree = { λ kind. kind };

    ghost parser = { λ _. spec.type_name };

    fn read<'t>(reader: &mut Reader<'t, 'a>, _room: usize) -> Result<TypeName, Refusal> {
        reader.type_name()
    }
}

impl<'t, 'a> Reader<'t, 'a> {
    /// Reads names in brackets.
    #[tactic(auto, unfolding(lynx_descent::specs::ReadingLists::names))]
    pub fn names(&mut self, room: usize) -> Result<Vec<IdentRef<'a>>, Refusal>
        ensures { Reads (λ v. v.items) (spec.names room self.old) result self.new }
    {
        bracketed(self, room)
    }

    /// Reads values in brackets.
    #[tactic(auto, unfolding(lynx_descent::specs::ReadingLists::values))]
    pub fn values(&mut self, room: usize) -> Result<Vec<Expr<'a>>, Refusal>
        ensures { Reads (λ v. map expr_tree v.items) (spec.values room self.old) result self.new }
    {
        bracketed(self, room)
    }

    /// Reads a type.
    #[tactic(auto, unfolding(lynx_descent::specs::ReadingLists::type_name))]
    pub fn type_name(&mut self) -> Result<TypeName, Refusal>
        ensures { Reads (λ x. x) (spec.type_name self.old) result self.new }
    {
        let kind = match self.peek() {
            Ahead::Keyword(Keyword::Int) => TypeName::Int,
            Ahead::Keyword(Keyword::Bool) => TypeName::Bool,
            Ahead::Keyword(Keyword::Text) => TypeName::Text,
            Ahead::Keyword(Keyword::Link) => TypeName::Link,
            Ahead::Keyword(Keyword::Row) => {
                self.advance();
                return Ok(TypeName::Row(self.number()?));
            }
            _ => return Err(self.refuse()),
        };
        self.advance();
        Ok(kind)
    }

    /// Reads types in brackets.
    #[tactic(auto, unfolding(lynx_descent::specs::ReadingLists::type_names))]
    pub fn type_names(&mut self, room: usize) -> Result<Vec<TypeName>, Refusal>
        ensures { Reads (λ v. v.items) (spec.type_names room self.old) result self.new }
    {
        bracketed(self, room)
    }
}
