//! Instructions.

ghost use Rattle.std.specs.Prelude.{◌≡◌, IfOk};

use crate::kept_text::KeptText;
use lynx_lexer::NoMemory;
use std::alloc::Global;
use typing_rules::Exception;

/// A value that stands in code.
#[derive(Debug, Drop)]
pub enum Literal {
    Int(i64),
    Bool(bool),
    Text(KeptText),
}

/// One instruction. A slot is the place of a variable, from 0: among those of the module where the name ends in G, and among those of the
/// entry where it ends in L. An address is the place of an instruction in the code.
#[derive(Debug, Drop)]
pub enum Instruction {
    Push(Literal),
    LoadG(u32),
    LoadL(u32),
    /// A member of a row.
    AtG(u32),
    AtL(u32),
    StoreG(u32),
    StoreL(u32),
    /// Into a member of a row.
    PutG(u32),
    PutL(u32),
    Add,
    Sub,
    Mul,
    Div,
    Mod,
    Neg,
    Eq,
    Ne,
    Lt,
    Le,
    Gt,
    Ge,
    Not,
    /// Keeps a value that decides, and jumps to this address; else drops it.
    AndJ(u16),
    OrJ(u16),
    /// Jumps where the value is false.
    JumpF(u16),
    Jump(u16),
    /// Goes on where the value is true; else a next try begins at this address.
    Await(u16),
    /// Opens a try, whose handlers begin at this address.
    Try(u16),
    Write,
    New,
    Destroy,
    Close,
    Stop,
    /// Closes the innermost open try.
    Untry,
    /// Raises the pending exception anew.
    Again,
    /// The end of a part.
    End,
    /// To the entry of this number.
    Bind(u16),
    Unbind(u16),
    /// A request of the operation of this number.
    Connect(u32),
    Accept(u32),
    /// With so many values.
    Reply(u16),
    Raise(Exception),
    /// Goes on where this exception is pending; else jumps to this address.
    Case(Exception, u16),
}

impl Literal {
    /// A literal that is equal. Only a text takes memory.
    pub fn copy(&self, alloc: Global) -> Result<Literal, NoMemory>
        ensures { IfOk result (λ copy. copy ≡ self.now) }
    {
        match self {
            Literal::Int(number) => Ok(Literal::Int(*number)),
            Literal::Bool(truth) => Ok(Literal::Bool(*truth)),
            Literal::Text(inside) => Ok(Literal::Text(inside.copy(alloc)?)),
        }
    }
}

impl Instruction {
    /// An instruction that is equal. Only the `push` of a text takes memory.
    pub fn copy(&self, alloc: Global) -> Result<Instruction, NoMemory>
        ensures { IfOk result (λ copy. copy ≡ self.now) }
    {
        match self {
            Instruction::Push(literal) => Ok(Instruction::Push(literal.copy(alloc)?)),
            Instruction::LoadG(slot) => Ok(Instruction::LoadG(*slot)),
            Instruction::LoadL(slot) => Ok(Instruction::LoadL(*slot)),
            Instruction::AtG(slot) => Ok(Instruction::AtG(*slot)),
            Instruction::AtL(slot) => Ok(Instruction::AtL(*slot)),
            Instruction::StoreG(slot) => Ok(Instruction::StoreG(*slot)),
            Instruction::StoreL(slot) => Ok(Instruction::StoreL(*slot)),
            Instruction::PutG(slot) => Ok(Instruction::PutG(*slot)),
            Instruction::PutL(slot) => Ok(Instruction::PutL(*slot)),
            Instruction::Add => Ok(Instruction::Add),
            Instruction::Sub => Ok(Instruction::Sub),
            Instruction::Mul => Ok(Instruction::Mul),
            Instruction::Div => Ok(Instruction::Div),
            Instruction::Mod => Ok(Instruction::Mod),
            Instruction::Neg => Ok(Instruction::Neg),
            Instruction::Eq => Ok(Instruction::Eq),
            Instruction::Ne => Ok(Instruction::Ne),
            Instruction::Lt => Ok(Instruction::Lt),
            Instruction::Le => Ok(Instruction::Le),
            Instruction::Gt => Ok(Instruction::Gt),
            Instruction::Ge => Ok(Instruction::Ge),
            Instruction::Not => Ok(Instruction::Not),
            Instruction::AndJ(address) => Ok(Instruction::AndJ(*address)),
            Instruction::OrJ(address) => Ok(Instruction::OrJ(*address)),
            Instruction::JumpF(address) => Ok(Instruction::JumpF(*address)),
            Instruction::Jump(address) => Ok(Instruction::Jump(*address)),
            Instruction::Await(address) => Ok(Instruction::Await(*address)),
            Instruction::Try(address) => Ok(Instruction::Try(*address)),
            Instruction::Write => Ok(Instruction::Write),
            Instruction::New => Ok(Instruction::New),
            Instruction::Destroy => Ok(Instruction::Destroy),
            Instruction::Close => Ok(Instruction::Close),
            Instruction::Stop => Ok(Instruction::Stop),
            Instruction::Untry => Ok(Instruction::Untry),
            Instruction::Again => Ok(Instruction::Again),
            Instruction::End => Ok(Instruction::End),
            Instruction::Bind(entry) => Ok(Instruction::Bind(*entry)),
            Instruction::Unbind(entry) => Ok(Instruction::Unbind(*entry)),
            Instruction::Connect(op) => Ok(Instruction::Connect(*op)),
            Instruction::Accept(op) => Ok(Instruction::Accept(*op)),
            Instruction::Reply(count) => Ok(Instruction::Reply(*count)),
            Instruction::Raise(exception) => Ok(Instruction::Raise(*exception)),
            Instruction::Case(exception, address) => Ok(Instruction::Case(*exception, *address)),
        }
    }
}
