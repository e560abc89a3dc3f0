//! The instructions of a thread, one after the other.

ghost use Rattle.std.specs.Prelude.{◌≡◌, ◌<◌, Some, IfOk};
ghost use Rattle.lynx_code.specs.declared.instruction.Instruction.TheVariants as code;
ghost use Rattle.lynx_meaning.specs.Code.{Program};
ghost use Rattle.lynx_meaning.specs.Values as meaning;
ghost use Rattle.machine_turns.specs.Threads.{comes_of, fuel_after};
ghost use Rattle.machine_thread.specs.Told.{told};
ghost use Rattle.machine_thread.specs.declared.action.Move.TheVariants as moves;
ghost use Rattle.machine_steps.specs.Operands.{Finds, IsReady, StaysReady, IsCourse, does};
ghost use Rattle.machine_thread.specs.Programs.{program_of};

use crate::action::Move;
use crate::thread::Thread;
use lynx_code::{Code, Instruction};
use lynx_lexer::NoMemory;
use machine_stack::Variables;

impl Thread {
    /// Goes on with so much fuel, until an instruction asks for an action, an await finds false, the thread ends or the fuel is spent. An
    /// instruction takes one unit where it begins. Tells what came, and the fuel that is left: none where the thread can go on.
    pub fn run(
        &mut self,
        code: &Code,
        globals: &mut Variables,
        fuel: u32,
    ) -> Result<(Move, u32), NoMemory>
        requires { StaysReady (program_of code.now) globals.old self.old }
        ensures course { IfOk result (λ r. IsCourse (program_of code.now) fuel globals.old self.old r.1 (told r.0 globals.new self.new)) }
        ensures spent { IfOk result (λ r. r.0 ≡ moves.GoesOn → r.1 ≡ 0) }
    {
        let mut left = fuel;
        'instructions: while left > 0 {
            left = self.fuel_after(left);
            match self.step(code, globals)? {
                Move::GoesOn => {}
                other => return Ok((other, left)),
            }
        }
        Ok((Move::GoesOn, left))
    }

    // An instruction that begins takes one unit.
    fn fuel_after(&self, fuel: u32) -> u32
        requires { 0 < fuel }
        ensures { result ≡ fuel_after fuel self.now }
    {
        if self.is_fresh() { fuel - 1 } else { fuel }
    }

    /// The instruction at its address.
    fn step(&mut self, code: &Code, globals: &mut Variables) -> Result<Move, NoMemory>
        requires { IsReady (program_of code.now) globals.old self.old }
        ensures { IfOk result (λ move. told move globals.new self.new ≡ comes_of (program_of code.now) globals.old self.old) }
    {
        let instruction = &code.instructions[self.address];
        self.does(instruction, code, globals)
    }

    fn does(
        &mut self,
        instruction: &Instruction,
        code: &Code,
        globals: &mut Variables,
    ) -> Result<Move, NoMemory>
        requires place { self.old.address < usize.MAX }
        requires finds { Finds (program_of code.now) instruction.now globals.old self.old }
        ensures { IfOk result (λ move. told move globals.new self.new ≡ does (program_of code.now) instruction.now globals.old self.old) }
    {
        match instruction {
            Instruction::Push(literal) => self.push(literal),
            Instruction::LoadG(slot) => self.loads_global(globals, *slot),
            Instruction::LoadL(slot) => self.loads_local(*slot),
            Instruction::AtG(slot) => self.loads_global_member(globals, *slot),
            Instruction::AtL(slot) => self.loads_local_member(*slot),
            Instruction::StoreG(slot) => Ok(self.stores_global(globals, *slot)),
            Instruction::StoreL(slot) => Ok(self.stores_local(*slot)),
            Instruction::PutG(slot) => self.stores_global_member(globals, *slot),
            Instruction::PutL(slot) => self.stores_local_member(*slot),
            Instruction::Add => self.adds(),
            Instruction::Sub => self.subtracts(),
            Instruction::Mul => self.multiplies(),
            Instruction::Div => self.divides(),
            Instruction::Mod => self.reduces(),
            Instruction::Neg => self.negates(),
            Instruction::Eq => self.equals(),
            Instruction::Ne => self.differs(),
            Instruction::Lt => self.is_less(),
            Instruction::Le => self.is_at_most(),
            Instruction::Gt => self.is_greater(),
            Instruction::Ge => self.is_at_least(),
            Instruction::Not => self.negates_truth(),
            Instruction::AndJ(address) => Ok(self.decides(false, *address)),
            Instruction::OrJ(address) => Ok(self.decides(true, *address)),
            Instruction::JumpF(address) => Ok(self.jumps_if_false(*address)),
            Instruction::Jump(address) => Ok(self.jumps(*address)),
            Instruction::Await(address) => self.awaits(*address),
            Instruction::Try(address) => self.opens(*address),
            Instruction::Untry => Ok(self.unopens()),
            Instruction::Case(exception, address) => Ok(self.handles(*exception, *address)),
            Instruction::Again => self.raises_again(),
            Instruction::Raise(exception) => self.raises(*exception),
            Instruction::Write => self.writes(),
            Instruction::New => self.makes_links(),
            Instruction::Destroy => self.destroys(),
            Instruction::Bind(entry) => self.binds(*entry),
            Instruction::Unbind(entry) => self.unbinds(*entry),
            Instruction::Connect(op) => self.connects(*op, code.ops[*op as usize].arguments.len()),
            Instruction::Accept(op) => self.accepts(*op),
            Instruction::Close => self.closes(),
            Instruction::Reply(count) => self.replies(*count),
            Instruction::Stop => self.stops(),
            Instruction::End => self.ends(),
        }
    }
}
