//! Instructions on variables.

ghost use Rattle.std.specs.Prelude.{◌≡◌, ◌<◌, List, length, slice_get, IfOk};
ghost use Rattle.lynx_code.specs.declared.instruction.Instruction.TheVariants as code;
ghost use Rattle.lynx_meaning.specs.Code.{Program};
ghost use Rattle.lynx_meaning.specs.Values as meaning;
ghost use Rattle.machine_stack.specs.Stacks.{IsRow, TopIsInt, TopIsLike};
ghost use Rattle.machine_thread.specs.Told.{told};
ghost use Rattle.machine_steps.specs.Operands.{AreInts, does};

use crate::action::Move;
use crate::thread::Thread;
use lynx_lexer::NoMemory;
use machine_stack::Variables;

impl Thread {
    pub(crate) fn loads_global(&mut self, globals: &Variables, slot: u32) -> Result<Move, NoMemory>
        requires place { self.old.address < usize.MAX }
        requires there { slot < length globals.now }
        ensures { IfOk result (λ move. (p : Program) → told move globals.now self.new ≡ does p (code.LoadG slot) globals.now self.old) }
    {
        globals.load(slot as usize, &mut self.operands)?;
        Ok(self.goes())
    }

    pub(crate) fn loads_local(&mut self, slot: u32) -> Result<Move, NoMemory>
        requires place { self.old.address < usize.MAX }
        requires there { slot < length self.old.locals }
        ensures { IfOk result (λ move. (p : Program) (globals : List meaning.Value) → told move globals self.new ≡ does p (code.LoadL slot) globals self.old) }
    {
        self.locals.load(slot as usize, &mut self.operands)?;
        Ok(self.goes())
    }

    pub(crate) fn stores_global(&mut self, globals: &mut Variables, slot: u32) -> Move
        requires place { self.old.address < usize.MAX }
        requires there { TopIsLike (slice_get globals.old slot) self.old.stack }
        ensures { (p : Program) → told result globals.new self.new ≡ does p (code.StoreG slot) globals.old self.old }
    {
        globals.store(slot as usize, &mut self.operands);
        self.goes()
    }

    pub(crate) fn stores_local(&mut self, slot: u32) -> Move
        requires place { self.old.address < usize.MAX }
        requires there { TopIsLike (slice_get self.old.locals slot) self.old.stack }
        ensures { (p : Program) (globals : List meaning.Value) → told result globals self.new ≡ does p (code.StoreL slot) globals self.old }
    {
        self.locals.store(slot as usize, &mut self.operands);
        self.goes()
    }

    pub(crate) fn loads_global_member(
        &mut self,
        globals: &Variables,
        slot: u32,
    ) -> Result<Move, NoMemory>
        requires place { self.old.address < usize.MAX }
        requires row { IsRow (slice_get globals.now slot) }
        requires index { TopIsInt self.old.stack }
        ensures { IfOk result (λ move. (p : Program) → told move globals.now self.new ≡ does p (code.AtG slot) globals.now self.old) }
    {
        let index = self.pop_int();
        self.gives_of_one(index, globals.member(slot as usize, index))
    }

    pub(crate) fn loads_local_member(&mut self, slot: u32) -> Result<Move, NoMemory>
        requires place { self.old.address < usize.MAX }
        requires row { IsRow (slice_get self.old.locals slot) }
        requires index { TopIsInt self.old.stack }
        ensures { IfOk result (λ move. (p : Program) (globals : List meaning.Value) → told move globals self.new ≡ does p (code.AtL slot) globals self.old) }
    {
        let index = self.pop_int();
        let found = self.locals.member(slot as usize, index);
        self.gives_of_one(index, found)
    }

    pub(crate) fn stores_global_member(
        &mut self,
        globals: &mut Variables,
        slot: u32,
    ) -> Result<Move, NoMemory>
        requires place { self.old.address < usize.MAX }
        requires row { IsRow (slice_get globals.old slot) }
        requires operands { AreInts self.old.stack }
        ensures { IfOk result (λ move. (p : Program) → told move globals.new self.new ≡ does p (code.PutG slot) globals.old self.old) }
    {
        let number = self.pop_int();
        let index = self.pop_int();
        if let Err(exception) = globals.set_member(slot as usize, index, number) {
            self.push_int(index)?;
            self.push_int(number)?;
            return self.raises(exception);
        }
        Ok(self.goes())
    }

    pub(crate) fn stores_local_member(&mut self, slot: u32) -> Result<Move, NoMemory>
        requires place { self.old.address < usize.MAX }
        requires row { IsRow (slice_get self.old.locals slot) }
        requires operands { AreInts self.old.stack }
        ensures { IfOk result (λ move. (p : Program) (globals : List meaning.Value) → told move globals self.new ≡ does p (code.PutL slot) globals self.old) }
    {
        let number = self.pop_int();
        let index = self.pop_int();
        if let Err(exception) = self.locals.set_member(slot as usize, index, number) {
            self.push_int(index)?;
            self.push_int(number)?;
            return self.raises(exception);
        }
        Ok(self.goes())
    }
}
