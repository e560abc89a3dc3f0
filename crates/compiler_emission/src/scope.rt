//! What names stand for in a part of a module.

ghost use Rattle.std.specs.Prelude.{◌≡◌};
ghost use Rattle.lynx_code.specs.Generation.{load, load_member, store, store_member};
ghost use Rattle.compiler_emission.specs.Tables.{names_in};

use crate::places::Places;
use crate::tables::Tables;
use lynx_code::Instruction;
use lynx_lexer::IdentRef;

/// The names that stand in a part of a module. Those of an entry hide those of the module.
#[derive(Clone, Copy)]
pub struct Scope<'s, 'm> {
    pub locals: &'s Places<'m>,
    pub tables: &'s Tables<'m>,
}

impl<'s, 'm> Scope<'s, 'm> {
    /// The instruction that loads a variable.
    pub fn load(&self, name: &IdentRef) -> Instruction
        ensures { result ≡ load (names_in self.now) name.now }
    {
        match self.locals.look(name) {
            Some(slot) => Instruction::LoadL(slot),
            None => Instruction::LoadG(self.tables.globals.place(name)),
        }
    }

    /// The instruction that loads a member of a row.
    pub fn load_member(&self, name: &IdentRef) -> Instruction
        ensures { result ≡ load_member (names_in self.now) name.now }
    {
        match self.locals.look(name) {
            Some(slot) => Instruction::AtL(slot),
            None => Instruction::AtG(self.tables.globals.place(name)),
        }
    }

    /// The instruction that stores into a variable.
    pub fn store(&self, name: &IdentRef) -> Instruction
        ensures { result ≡ store (names_in self.now) name.now }
    {
        match self.locals.look(name) {
            Some(slot) => Instruction::StoreL(slot),
            None => Instruction::StoreG(self.tables.globals.place(name)),
        }
    }

    /// The instruction that stores into a member of a row.
    pub fn store_member(&self, name: &IdentRef) -> Instruction
        ensures { result ≡ store_member (names_in self.now) name.now }
    {
        match self.locals.look(name) {
            Some(slot) => Instruction::PutL(slot),
            None => Instruction::PutG(self.tables.globals.place(name)),
        }
    }

    /// The number of an operation.
    pub fn op(&self, name: &IdentRef) -> u32
        ensures { result ≡ (names_in self.now).op name.now }
    {
        self.tables.ops.place(name)
    }

    /// The number of an entry.
    pub fn entry(&self, name: &IdentRef) -> u16
        ensures { result ≡ (names_in self.now).entry name.now }
    {
        match self.tables.entries.look(name) {
            Some(place) => place as u16,
            None => 0,
        }
    }
}
