//! The listing of code.

ghost use Rattle.std.specs.Prelude.{◌≡◌, ℕ, ◌+◌, ◌-◌, [], ◌∷◌, ◌++◌, ◌≤◌, ◌^◌, length, take, drop, IfOk, OnOk, codes, decimal};
ghost use Rattle.lynx_code.specs.declared.instruction.Instruction.TheVariants as code;
ghost use Rattle.lynx_code.specs.Modules.{IsCodeOf};
ghost use Rattle.lynx_tree.specs.Trees.{ModuleTree};
ghost use Rattle.lynx_code.specs.Listing.{literal_text, instruction_text, line_end, lines_text, part_text, part_end, part_in, parts_in, parts_text, code_listing, module_listing};

use crate::code::{Code, Part};
use crate::instruction::{Instruction, Literal};
use crate::kept_text::KeptText;
use itoa::Buffer;
use lynx_lexer::{Ident, NoMemory};
use std::alloc::Global;
use typing_rules::Exception;

fn push(out: &mut Vec<u8>, text: &[u8]) -> Result<(), NoMemory>
    ensures { OnOk result (out.new.items ≡ out.old.items ++ text.now) }
{
    out.extend_from_slice(text)?;
    Ok(())
}

fn push_number(out: &mut Vec<u8>, number: u64) -> Result<(), NoMemory>
    ensures { OnOk result (out.new.items ≡ out.old.items ++ decimal number) }
{
    let mut buffer = Buffer::new();
    out.extend_from_slice(buffer.format(number).as_bytes())?;
    Ok(())
}

// A word, and a blank in it at its end, with a number.
fn push_numbered(out: &mut Vec<u8>, word: &[u8], number: u32) -> Result<(), NoMemory>
    ensures { OnOk result (out.new.items ≡ out.old.items ++ (word.now ++ decimal number)) }
{
    push(out, word)?;
    push_number(out, u64::from(number))?;
    Ok(())
}

fn push_text(out: &mut Vec<u8>, inside: &KeptText) -> Result<(), NoMemory>
    ensures { OnOk result (out.new.items ≡ out.old.items ++ (codes "'" ++ inside.now ++ codes "'")) }
{
    push(out, b"'")?;
    push(out, inside.as_slice())?;
    push(out, b"'")?;
    Ok(())
}

fn push_literal(out: &mut Vec<u8>, literal: &Literal) -> Result<(), NoMemory>
    ensures { OnOk result (out.new.items ≡ out.old.items ++ literal_text literal.now) }
{
    match literal {
        Literal::Int(number) => {
            let mut buffer = Buffer::new();
            push(out, buffer.format(*number).as_bytes())
        }
        Literal::Bool(true) => push(out, b"true"),
        Literal::Bool(false) => push(out, b"false"),
        Literal::Text(inside) => push_text(out, inside),
    }
}

fn push_push(out: &mut Vec<u8>, literal: &Literal) -> Result<(), NoMemory>
    ensures { OnOk result (out.new.items ≡ out.old.items ++ (codes "push " ++ literal_text literal.now)) }
{
    push(out, b"push ")?;
    push_literal(out, literal)?;
    Ok(())
}

fn push_raise(out: &mut Vec<u8>, exception: Exception) -> Result<(), NoMemory>
    ensures { OnOk result (out.new.items ≡ out.old.items ++ instruction_text (code.Raise exception)) }
{
    push(out, b"raise ")?;
    push(out, exception.as_slice())?;
    Ok(())
}

fn push_case(out: &mut Vec<u8>, exception: Exception, address: u16) -> Result<(), NoMemory>
    ensures { OnOk result (out.new.items ≡ out.old.items ++ instruction_text (code.Case exception address)) }
{
    push(out, b"case ")?;
    push(out, exception.as_slice())?;
    push_numbered(out, b" ", u32::from(address))?;
    Ok(())
}

fn push_instruction(out: &mut Vec<u8>, instruction: &Instruction) -> Result<(), NoMemory>
    ensures { OnOk result (out.new.items ≡ out.old.items ++ instruction_text instruction.now) }
{
    match instruction {
        Instruction::Push(literal) => push_push(out, literal),
        Instruction::LoadG(slot) => push_numbered(out, b"loadg ", *slot),
        Instruction::LoadL(slot) => push_numbered(out, b"loadl ", *slot),
        Instruction::AtG(slot) => push_numbered(out, b"atg ", *slot),
        Instruction::AtL(slot) => push_numbered(out, b"atl ", *slot),
        Instruction::StoreG(slot) => push_numbered(out, b"storeg ", *slot),
        Instruction::StoreL(slot) => push_numbered(out, b"storel ", *slot),
        Instruction::PutG(slot) => push_numbered(out, b"putg ", *slot),
        Instruction::PutL(slot) => push_numbered(out, b"putl ", *slot),
        Instruction::Add => push(out, b"add"),
        Instruction::Sub => push(out, b"sub"),
        Instruction::Mul => push(out, b"mul"),
        Instruction::Div => push(out, b"div"),
        Instruction::Mod => push(out, b"mod"),
        Instruction::Neg => push(out, b"neg"),
        Instruction::Eq => push(out, b"eq"),
        Instruction::Ne => push(out, b"ne"),
        Instruction::Lt => push(out, b"lt"),
        Instruction::Le => push(out, b"le"),
        Instruction::Gt => push(out, b"gt"),
        Instruction::Ge => push(out, b"ge"),
        Instruction::Not => push(out, b"not"),
        Instruction::AndJ(address) => push_numbered(out, b"andj ", u32::from(*address)),
        Instruction::OrJ(address) => push_numbered(out, b"orj ", u32::from(*address)),
        Instruction::JumpF(address) => push_numbered(out, b"jumpf ", u32::from(*address)),
        Instruction::Jump(address) => push_numbered(out, b"jump ", u32::from(*address)),
        Instruction::Await(address) => push_numbered(out, b"await ", u32::from(*address)),
        Instruction::Try(address) => push_numbered(out, b"try ", u32::from(*address)),
        Instruction::Write => push(out, b"write"),
        Instruction::New => push(out, b"new"),
        Instruction::Destroy => push(out, b"destroy"),
        Instruction::Close => push(out, b"close"),
        Instruction::Stop => push(out, b"stop"),
        Instruction::Untry => push(out, b"untry"),
        Instruction::Again => push(out, b"again"),
        Instruction::End => push(out, b"end"),
        Instruction::Bind(entry) => push_numbered(out, b"bind ", u32::from(*entry)),
        Instruction::Unbind(entry) => push_numbered(out, b"unbind ", u32::from(*entry)),
        Instruction::Connect(op) => push_numbered(out, b"connect ", *op),
        Instruction::Accept(op) => push_numbered(out, b"accept ", *op),
        Instruction::Reply(count) => push_numbered(out, b"reply ", u32::from(*count)),
        Instruction::Raise(exception) => push_raise(out, *exception),
        Instruction::Case(exception, address) => push_case(out, *exception, *address),
    }
}

// An instruction on a line behind its address.
fn push_line(out: &mut Vec<u8>, address: u64, instruction: &Instruction) -> Result<(), NoMemory>
    ensures { OnOk result (out.new.items ≡ out.old.items ++ (decimal address ++ codes " " ++ instruction_text instruction.now ++ line_end)) }
{
    push_number(out, address)?;
    push(out, b" ")?;
    push_instruction(out, instruction)?;
    push(out, b"\n")?;
    Ok(())
}

fn push_lines(out: &mut Vec<u8>, start: u16, instructions: &[Instruction]) -> Result<(), NoMemory>
    ensures { OnOk result (out.new.items ≡ out.old.items ++ lines_text start instructions.now) }
{
    let mut address = u64::from(start);
    for instruction in instructions {
        push_line(out, address, instruction)?;
        address += 1;
    }
    Ok(())
}

// A word and a name on a line.
fn push_heading(out: &mut Vec<u8>, word: &[u8], name: &Ident) -> Result<(), NoMemory>
    ensures { OnOk result (out.new.items ≡ out.old.items ++ (word.now ++ name.now ++ line_end)) }
{
    push(out, word)?;
    push(out, name.as_slice())?;
    push(out, b"\n")?;
    Ok(())
}

// The instructions from one address to another.
fn between(instructions: &[Instruction], from: usize, to: usize) -> &[Instruction]
    ensures { result.now ≡ take (to - from) (drop from instructions.now) }
{
    if from >= to || from >= instructions.len() {
        return &[];
    }
    if to >= instructions.len() {
        return &instructions[from..];
    }
    &instructions[from..to]
}

// Where the part ends that stands before these.
fn end_before(parts: &[Part], all: usize) -> usize
    ensures { result ≡ part_end parts.now all }
{
    match parts.first() {
        Some(next) => usize::from(next.start),
        None => all,
    }
}

// A part that stands before these others.
fn push_part(
    out: &mut Vec<u8>,
    part: &Part,
    others: &[Part],
    instructions: &[Instruction],
) -> Result<(), NoMemory>
    ensures { OnOk result (out.new.items ≡ out.old.items ++ part_text (part_in instructions.now part.now others.now)) }
{
    let end = end_before(others, instructions.len());
    push_heading(out, b"part ", &part.name)?;
    push_lines(
        out,
        part.start,
        between(instructions, usize::from(part.start), end),
    )?;
    Ok(())
}

fn push_parts(
    out: &mut Vec<u8>,
    parts: &[Part],
    instructions: &[Instruction],
) -> Result<(), NoMemory>
    ensures { OnOk result (out.new.items ≡ out.old.items ++ parts_text (parts_in instructions.now parts.now)) }
{
    for index in 0..parts.len() {
        push_part(out, &parts[index], &parts[index + 1..], instructions)?;
    }
    Ok(())
}

/// The listing of code: `code` with the module's name, and then each part with its instructions, one on a line behind its address.
/// The time is linear in the text.
pub fn listing(alloc: Global, code: &Code) -> Result<Vec<u8>, NoMemory>
    ensures text { IfOk result (λ v. v.items ≡ code_listing code.now) }
    ensures exact { (m : ModuleTree) → IsCodeOf m code.now → IfOk result (λ v. v.items ≡ module_listing m) }
{
    let mut out = Vec::new(alloc);
    push_heading(&mut out, b"code ", &code.name)?;
    push_parts(&mut out, &code.parts, &code.instructions)?;
    Ok(out)
}
