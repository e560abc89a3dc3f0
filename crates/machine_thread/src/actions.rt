//! Instructions that ask for actions.

ghost use Rattle.std.specs.Prelude.{◌≡◌, ◌≤◌, ◌<◌, List, length, Some, slice_get, IfOk};
ghost use Rattle.lynx_code.specs.declared.instruction.Instruction.TheVariants as code;
ghost use Rattle.lynx_meaning.specs.Code.{Program};
ghost use Rattle.lynx_meaning.specs.Values as meaning;
ghost use Rattle.lynx_meaning.specs.Values.{written};
ghost use Rattle.machine_stack.specs.Stacks.{IsTop, TopIsLink};
ghost use Rattle.machine_thread.specs.Told.{told};
ghost use Rattle.machine_steps.specs.Operands.{HasValues, TopIsPlain, does};

use crate::action::{Action, Move};
use crate::exceptions::Raised;
use crate::outcomes::Answered;
use crate::thread::Thread;
use lynx_lexer::NoMemory;
use machine_values::{Value, written_number, written_truth};
use typing_rules::ShortText;

impl Thread {
    #[inline(never)]
    pub(crate) fn makes_links(&mut self) -> Result<Move, NoMemory>
        requires { self.old.address < usize.MAX }
        ensures { IfOk result (λ move. (p : Program) (globals : List meaning.Value) → told move globals self.new ≡ does p code.New globals self.old) }
    {
        if !self.is_fresh() {
            return self.answered_after(0);
        }
        self.asks(Action::New)
    }

    #[inline(never)]
    pub(crate) fn destroys(&mut self) -> Result<Move, NoMemory>
        requires place { self.old.address < usize.MAX }
        requires operands { TopIsLink self.old.stack }
        ensures { IfOk result (λ move. (p : Program) (globals : List meaning.Value) → told move globals self.new ≡ does p code.Destroy globals self.old) }
    {
        if !self.is_fresh() {
            return self.answered_after(1);
        }
        let link = self.operands.link();
        self.asks(Action::Destroy(link))
    }

    #[inline(never)]
    pub(crate) fn binds(&mut self, entry: u16) -> Result<Move, NoMemory>
        requires place { self.old.address < usize.MAX }
        requires operands { TopIsLink self.old.stack }
        ensures { IfOk result (λ move. (p : Program) (globals : List meaning.Value) → told move globals self.new ≡ does p (code.Bind entry) globals self.old) }
    {
        if !self.is_fresh() {
            return self.answered_after(1);
        }
        let link = self.operands.link();
        self.asks(Action::Bind(link, entry))
    }

    #[inline(never)]
    pub(crate) fn unbinds(&mut self, entry: u16) -> Result<Move, NoMemory>
        requires place { self.old.address < usize.MAX }
        requires operands { TopIsLink self.old.stack }
        ensures { IfOk result (λ move. (p : Program) (globals : List meaning.Value) → told move globals self.new ≡ does p (code.Unbind entry) globals self.old) }
    {
        if !self.is_fresh() {
            return self.answered_after(1);
        }
        let link = self.operands.link();
        self.asks(Action::Unbind(link, entry))
    }

    /// The operation has so many arguments.
    #[inline(never)]
    pub(crate) fn connects(&mut self, op: u32, arguments: usize) -> Result<Move, NoMemory>
        requires place { self.old.address < usize.MAX }
        requires count { arguments < usize.MAX }
        requires operands { HasValues (Some arguments) self.old.stack }
        ensures { IfOk result (λ move. (p : Program) (globals : List meaning.Value) → slice_get p.arguments op ≡ Some arguments → told move globals self.new ≡ does p (code.Connect op) globals self.old) }
    {
        if !self.is_fresh() {
            return self.answered_after(arguments + 1);
        }
        let link = self.operands.link();
        let values = self.operands.values(self.alloc, 1, arguments)?;
        self.asks(Action::Connect(link, op, values))
    }

    #[inline(never)]
    pub(crate) fn accepts(&mut self, op: u32) -> Result<Move, NoMemory>
        requires place { self.old.address < usize.MAX }
        requires operands { TopIsLink self.old.stack }
        ensures { IfOk result (λ move. (p : Program) (globals : List meaning.Value) → told move globals self.new ≡ does p (code.Accept op) globals self.old) }
    {
        if self.is_fresh() {
            let link = self.operands.link();
            return self.asks(Action::Accept(link, op));
        }
        self.accepted(op)
    }

    // With its values the request is open. One that was refused never was.
    fn accepted(&mut self, op: u32) -> Result<Move, NoMemory>
        requires place { self.old.address < usize.MAX }
        requires operands { TopIsLink self.old.stack }
        requires given { 0 < length self.old.given }
        ensures { IfOk result (λ move. (p : Program) (globals : List meaning.Value) → told move globals self.new ≡ does p (code.Accept op) globals self.old) }
    {
        if let Some(exception) = self.first_exception() {
            return self.raises_after(Raised {
                exception,
                taken: 1,
                heard: 1,
                closed: 0,
            });
        }
        self.opens_request(op)?;
        self.answered(Answered {
            taken: 1,
            closed: 0,
        })
    }

    /// The innermost open request is closed.
    #[inline(never)]
    pub(crate) fn closes(&mut self) -> Result<Move, NoMemory>
        requires place { self.old.address < usize.MAX }
        requires unclosed { 0 < length self.old.requests }
        ensures { IfOk result (λ move. (p : Program) (globals : List meaning.Value) → told move globals self.new ≡ does p code.Close globals self.old) }
    {
        if self.is_fresh() {
            return self.asks(Action::Close);
        }
        self.answered(Answered {
            taken: 0,
            closed: 1,
        })
    }

    #[inline(never)]
    pub(crate) fn replies(&mut self, count: u16) -> Result<Move, NoMemory>
        requires place { self.old.address < usize.MAX }
        requires operands { count ≤ length self.old.stack }
        ensures { IfOk result (λ move. (p : Program) (globals : List meaning.Value) → told move globals self.new ≡ does p (code.Reply count) globals self.old) }
    {
        let count = usize::from(count);
        if !self.is_fresh() {
            return self.answered_after(count);
        }
        let values = self.operands.values(self.alloc, 0, count)?;
        self.asks(Action::Reply(values))
    }

    #[inline(never)]
    pub(crate) fn writes(&mut self) -> Result<Move, NoMemory>
        requires place { self.old.address < usize.MAX }
        requires operands { TopIsPlain self.old.stack }
        ensures { IfOk result (λ move. (p : Program) (globals : List meaning.Value) → told move globals self.new ≡ does p code.Write globals self.old) }
    {
        if !self.is_fresh() {
            return self.answered_after(1);
        }
        let text = self.written();
        self.asks(Action::Write(text))
    }

    // What stands on top, as it is written.
    fn written(&self) -> ShortText
        requires { TopIsPlain self.now.stack }
        ensures { (v : meaning.Value) × IsTop v self.now.stack × (result ≡ written v) }
    {
        match self.operands.top() {
            Some(Value::Int(number)) => written_number(number),
            Some(Value::Bool(truth)) => written_truth(truth),
            Some(Value::Text(text)) => text,
            _ => unreachable!(),
        }
    }

    #[inline(never)]
    pub(crate) fn stops(&mut self) -> Result<Move, NoMemory>
        ensures { IfOk result (λ move. (p : Program) (globals : List meaning.Value) → told move globals self.new ≡ does p code.Stop globals self.old) }
    {
        self.asks(Action::StopAll)
    }
}
