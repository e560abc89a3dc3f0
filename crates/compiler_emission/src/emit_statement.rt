//! The code of statements.

ghost use Rattle.std.specs.Prelude.{◌≡◌, ◌<◌, ◌≤◌, ◌+◌, ◌∷◌, [], ◌++◌, List, ℕ, length, slice_get, true, false, Err, Some, OnOk};
ghost use Rattle.lynx_tree.specs.Grammar.{IsStmt, AreExprs, AreStmts, AreHandlers};
ghost use Rattle.lynx_tree.specs.Trees.{expr_tree, expr_list, stmt_tree, stmt_list, handler_list, else_list, assign_tree, If, IfElse, While, Connect, Accept, Reply, Try, choice_tree};
ghost use Rattle.lynx_code.specs.Generation.{stmt_code, stmts_code, handlers_code, store, stores, exception_named};
ghost use Rattle.lynx_code.specs.declared.instruction.Instruction.TheVariants as code_of;
ghost use Rattle.compiler_emission.specs.declared.fault.CompileFault.TheVariants as faults;
ghost use Rattle.lynx_code.specs.declared.instruction.Instruction.{Instruction};
ghost use Rattle.lynx_code.specs.Generation.{Names};
ghost use Rattle.lynx_tree.specs.Trees.{HandlerTrees};
ghost use Rattle.typing_rules.specs.declared.exception.Exception.{Exception};
ghost use Rattle.compiler_emission.specs.Jumps.{jump_to, over_code, handler_code, handlers_count, guarded_code, caught_code, has_statements, acts_on_links};
ghost use Rattle.compiler_emission.specs.Tables.{names_in};
ghost use Rattle.typing_rules.specs.Exceptions.{exception_of};

use crate::emit::{behind, push, set, short};
use crate::emit_expression::{emit_expr, emit_exprs, emit_then};
use crate::fault::CompileFault;
use crate::scope::Scope;
use lynx_code::Instruction;
use lynx_lexer::IdentRef;
use lynx_tree::{Expr, Handler, Stmt};
use typing_rules::Exception;

/// A jump over statements.
#[derive(Clone, Copy)]
enum Jump {
    IfFalse,
    Always,
    Try,
    Case(Exception),
}

impl Jump {
    fn to(self, address: u16) -> Instruction
        ensures { result ≡ jump_to self address }
    {
        match self {
            Jump::IfFalse => Instruction::JumpF(address),
            Jump::Always => Instruction::Jump(address),
            Jump::Try => Instruction::Try(address),
            Jump::Case(exception) => Instruction::Case(exception, address),
        }
    }
}

/// The exception of a name.
fn exception(name: &IdentRef) -> Exception
    ensures { result ≡ exception_named (exception_of name.now) }
{
    match Exception::from_slice(name.as_slice()) {
        Some(exception) => exception,
        None => Exception::Failed,
    }
}

fn emit_two(
    code: &mut Vec<Instruction>,
    first: Instruction,
    second: Instruction,
) -> Result<(), CompileFault>
    ensures ok { OnOk result (code.new.items ≡ code.old.items ++ (first ∷ second ∷ [])) }
    ensures long { result ≡ Err faults.CodeTooLong → 65535 < length code.old.items + 2 }
{
    push(code, first)?;
    push(code, second)
}

/// Adds the instructions that store into variables, from the last one to the first.
fn emit_stores(
    list: &[IdentRef],
    code: &mut Vec<Instruction>,
    names: &Scope,
) -> Result<(), CompileFault>
    ensures ok { OnOk result (code.new.items ≡ code.old.items ++ stores (names_in names.now) list.now) }
    ensures long { result ≡ Err faults.CodeTooLong → 65535 < length code.old.items + length (stores (names_in names.now) list.now) }
{
    for done in 0..list.len() {
        let place = list.len() - 1 - done;
        push(code, names.store(&list[place]))?;
    }
    Ok(())
}

fn emit_assign<'t, 'm>(
    name: &'t IdentRef<'m>,
    index: &'t Option<Box<Expr<'m>>>,
    value: &'t Expr<'m>,
    code: &mut Vec<Instruction>,
    names: &Scope,
) -> Result<(), CompileFault>
    ensures ok { OnOk result (code.new.items ≡ code.old.items ++ stmt_code (names_in names.now) (length code.old.items) (assign_tree name.now index.now value.now)) }
    ensures long { result ≡ Err faults.CodeTooLong → 65535 < length code.old.items + length (stmt_code (names_in names.now) (length code.old.items) (assign_tree name.now index.now value.now)) }
{
    match index {
        None => emit_then(value, names.store(name), code, names),
        Some(index) => {
            emit_expr(index, code, names)?;
            emit_then(value, names.store_member(name), code, names)
        }
    }
}

fn emit_connect<'t, 'm>(
    op: &'t IdentRef<'m>,
    link: &'t IdentRef<'m>,
    values: &'t [Expr<'m>],
    results: &'t [IdentRef<'m>],
    code: &mut Vec<Instruction>,
    names: &Scope,
) -> Result<(), CompileFault>
    ensures ok { OnOk result (code.new.items ≡ code.old.items ++ stmt_code (names_in names.now) (length code.old.items) (Connect op.now link.now (expr_list values.now) results.now)) }
    ensures long { result ≡ Err faults.CodeTooLong → 65535 < length code.old.items + length (stmt_code (names_in names.now) (length code.old.items) (Connect op.now link.now (expr_list values.now) results.now)) }
{
    emit_exprs(values, code, names)?;
    emit_two(code, names.load(link), Instruction::Connect(names.op(op)))?;
    emit_stores(results, code, names)
}

#[tactic(auto, using(crate::proofs::Loops::how_many_are))]
fn emit_reply(
    values: &[Expr],
    code: &mut Vec<Instruction>,
    names: &Scope,
) -> Result<(), CompileFault>
    requires { AreExprs 6 (expr_list values.now) }
    ensures ok { OnOk result (code.new.items ≡ code.old.items ++ stmt_code (names_in names.now) (length code.old.items) (Reply (expr_list values.now))) }
    ensures long { result ≡ Err faults.CodeTooLong → 65535 < length code.old.items + length (stmt_code (names_in names.now) (length code.old.items) (Reply (expr_list values.now))) }
{
    // Each value has an instruction, so values too many to count are code that is too long.
    emit_exprs(values, code, names)?;
    let count = short(values.len())?;
    push(code, Instruction::Reply(count))
}

/// Adds the code of a statement that acts on links.
fn emit_link(stmt: &Stmt, code: &mut Vec<Instruction>, names: &Scope) -> Result<(), CompileFault>
    requires links { acts_on_links (stmt_tree stmt.now) ≡ true }
    requires grammar { IsStmt (stmt_tree stmt.now) }
    ensures ok { OnOk result (code.new.items ≡ code.old.items ++ stmt_code (names_in names.now) (length code.old.items) (stmt_tree stmt.now)) }
    ensures long { result ≡ Err faults.CodeTooLong → 65535 < length code.old.items + length (stmt_code (names_in names.now) (length code.old.items) (stmt_tree stmt.now)) }
{
    match stmt {
        Stmt::New { first, second } => {
            push(code, Instruction::New)?;
            emit_two(code, names.store(second), names.store(first))
        }
        Stmt::Destroy(name) => emit_two(code, names.load(name), Instruction::Destroy),
        Stmt::Bind { link, entry } => {
            emit_two(
                code,
                names.load(link),
                Instruction::Bind(names.entry(entry)),
            )
        }
        Stmt::Unbind { link, entry } => {
            emit_two(
                code,
                names.load(link),
                Instruction::Unbind(names.entry(entry)),
            )
        }
        Stmt::Connect {
            op,
            link,
            values,
            results,
        } => emit_connect(op, link, values, results, code, names),
        Stmt::Reply(values) => emit_reply(values, code, names),
        _ => unreachable!(),
    }
}

/// Adds the code of a statement with no others inside.
fn emit_action(stmt: &Stmt, code: &mut Vec<Instruction>, names: &Scope) -> Result<(), CompileFault>
    requires alone { has_statements (stmt_tree stmt.now) ≡ false }
    requires grammar { IsStmt (stmt_tree stmt.now) }
    ensures ok { OnOk result (code.new.items ≡ code.old.items ++ stmt_code (names_in names.now) (length code.old.items) (stmt_tree stmt.now)) }
    ensures long { result ≡ Err faults.CodeTooLong → 65535 < length code.old.items + length (stmt_code (names_in names.now) (length code.old.items) (stmt_tree stmt.now)) }
{
    match stmt {
        Stmt::Assign { name, index, value } => emit_assign(name, index, value, code, names),
        Stmt::Write(value) => emit_then(value, Instruction::Write, code, names),
        Stmt::Await(condition) => {
            let start = behind(code, 0)?;
            emit_then(condition, Instruction::Await(start), code, names)
        }
        Stmt::Stop => push(code, Instruction::Stop),
        Stmt::Raise(name) => push(code, Instruction::Raise(exception(name))),
        _ => emit_link(stmt, code, names),
    }
}

/// Adds the code of a statement.
#[cycle(emit_statement)]
fn emit_stmt(stmt: &Stmt, code: &mut Vec<Instruction>, names: &Scope) -> Result<(), CompileFault>
    requires { IsStmt (stmt_tree stmt.now) }
    ensures ok { OnOk result (code.new.items ≡ code.old.items ++ stmt_code (names_in names.now) (length code.old.items) (stmt_tree stmt.now)) }
    ensures long { result ≡ Err faults.CodeTooLong → 65535 < length code.old.items + length (stmt_code (names_in names.now) (length code.old.items) (stmt_tree stmt.now)) }
{
    match stmt {
        Stmt::If {
            condition,
            then,
            otherwise,
        } => emit_choice(condition, then, otherwise, code, names),
        Stmt::While { condition, body } => emit_while(condition, body, code, names),
        Stmt::Accept {
            op,
            link,
            names: arguments,
            body,
        } => emit_accept(op, link, arguments, body, code, names),
        Stmt::Try { body, handlers } => emit_try(body, handlers, code, names),
        _ => emit_action(stmt, code, names),
    }
}

/// Adds the code of statements.
#[cycle(emit_statement)]
pub fn emit_stmts(
    stmts: &[Stmt],
    code: &mut Vec<Instruction>,
    names: &Scope,
) -> Result<(), CompileFault>
    requires { AreStmts (stmt_list stmts.now) }
    ensures ok { OnOk result (code.new.items ≡ code.old.items ++ stmts_code (names_in names.now) (length code.old.items) (stmt_list stmts.now)) }
    ensures long { result ≡ Err faults.CodeTooLong → 65535 < length code.old.items + length (stmts_code (names_in names.now) (length code.old.items) (stmt_list stmts.now)) }
{
    for stmt in stmts {
        emit_stmt(stmt, code, names)?;
    }
    Ok(())
}

/// Adds the code of statements behind a jump over them and over so many instructions more.
#[cycle(emit_statement)]
fn emit_over(
    stmts: &[Stmt],
    jump: Jump,
    more: u16,
    code: &mut Vec<Instruction>,
    names: &Scope,
) -> Result<(), CompileFault>
    requires { AreStmts (stmt_list stmts.now) }
    ensures ok { OnOk result (code.new.items ≡ code.old.items ++ over_code (names_in names.now) (jump_to jump) more (length code.old.items) (stmt_list stmts.now)) }
    ensures long { result ≡ Err faults.CodeTooLong → 65535 < length code.old.items + length (over_code (names_in names.now) (jump_to jump) more (length code.old.items) (stmt_list stmts.now)) + more }
{
    let at = code.len();
    push(code, Instruction::End)?;
    emit_stmts(stmts, code, names)?;
    let end = behind(code, more)?;
    set(code, at, jump.to(end));
    Ok(())
}

#[cycle(emit_statement)]
fn emit_if<'t, 'm>(
    condition: &'t Expr<'m>,
    then: &'t [Stmt<'m>],
    code: &mut Vec<Instruction>,
    names: &Scope,
) -> Result<(), CompileFault>
    requires { AreStmts (stmt_list then.now) }
    ensures ok { OnOk result (code.new.items ≡ code.old.items ++ stmt_code (names_in names.now) (length code.old.items) (If (expr_tree condition.now) (stmt_list then.now))) }
    ensures long { result ≡ Err faults.CodeTooLong → 65535 < length code.old.items + length (stmt_code (names_in names.now) (length code.old.items) (If (expr_tree condition.now) (stmt_list then.now))) }
{
    emit_expr(condition, code, names)?;
    emit_over(then, Jump::IfFalse, 0, code, names)
}

#[cycle(emit_statement)]
fn emit_if_else<'t, 'm>(
    condition: &'t Expr<'m>,
    then: &'t [Stmt<'m>],
    otherwise: &'t [Stmt<'m>],
    code: &mut Vec<Instruction>,
    names: &Scope,
) -> Result<(), CompileFault>
    requires { AreStmts (stmt_list then.now) × AreStmts (stmt_list otherwise.now) }
    ensures ok { OnOk result (code.new.items ≡ code.old.items ++ stmt_code (names_in names.now) (length code.old.items) (IfElse (expr_tree condition.now) (stmt_list then.now) (stmt_list otherwise.now))) }
    ensures long { result ≡ Err faults.CodeTooLong → 65535 < length code.old.items + length (stmt_code (names_in names.now) (length code.old.items) (IfElse (expr_tree condition.now) (stmt_list then.now) (stmt_list otherwise.now))) }
{
    emit_expr(condition, code, names)?;
    emit_over(then, Jump::IfFalse, 1, code, names)?;
    emit_over(otherwise, Jump::Always, 0, code, names)
}

/// Adds the code of a choice, which may have another side.
#[cycle(emit_statement)]
fn emit_choice<'t, 'm>(
    condition: &'t Expr<'m>,
    then: &'t [Stmt<'m>],
    otherwise: &'t Option<Vec<Stmt<'m>>>,
    code: &mut Vec<Instruction>,
    names: &Scope,
) -> Result<(), CompileFault>
    requires { IsStmt (choice_tree (expr_tree condition.now) (stmt_list then.now) (else_list otherwise.now)) }
    ensures ok { OnOk result (code.new.items ≡ code.old.items ++ stmt_code (names_in names.now) (length code.old.items) (choice_tree (expr_tree condition.now) (stmt_list then.now) (else_list otherwise.now))) }
    ensures long { result ≡ Err faults.CodeTooLong → 65535 < length code.old.items + length (stmt_code (names_in names.now) (length code.old.items) (choice_tree (expr_tree condition.now) (stmt_list then.now) (else_list otherwise.now))) }
{
    match otherwise {
        None => emit_if(condition, then, code, names),
        Some(otherwise) => emit_if_else(condition, then, otherwise, code, names),
    }
}

#[cycle(emit_statement)]
fn emit_while<'t, 'm>(
    condition: &'t Expr<'m>,
    body: &'t [Stmt<'m>],
    code: &mut Vec<Instruction>,
    names: &Scope,
) -> Result<(), CompileFault>
    requires { AreStmts (stmt_list body.now) }
    ensures ok { OnOk result (code.new.items ≡ code.old.items ++ stmt_code (names_in names.now) (length code.old.items) (While (expr_tree condition.now) (stmt_list body.now))) }
    ensures long { result ≡ Err faults.CodeTooLong → 65535 < length code.old.items + length (stmt_code (names_in names.now) (length code.old.items) (While (expr_tree condition.now) (stmt_list body.now))) }
{
    let start = behind(code, 0)?;
    emit_expr(condition, code, names)?;
    emit_over(body, Jump::IfFalse, 1, code, names)?;
    push(code, Instruction::Jump(start))
}

#[cycle(emit_statement)]
fn emit_accept<'t, 'm>(
    op: &'t IdentRef<'m>,
    link: &'t IdentRef<'m>,
    arguments: &'t [IdentRef<'m>],
    body: &'t [Stmt<'m>],
    code: &mut Vec<Instruction>,
    names: &Scope,
) -> Result<(), CompileFault>
    requires { AreStmts (stmt_list body.now) }
    ensures ok { OnOk result (code.new.items ≡ code.old.items ++ stmt_code (names_in names.now) (length code.old.items) (Accept op.now link.now arguments.now (stmt_list body.now))) }
    ensures long { result ≡ Err faults.CodeTooLong → 65535 < length code.old.items + length (stmt_code (names_in names.now) (length code.old.items) (Accept op.now link.now arguments.now (stmt_list body.now))) }
{
    emit_two(code, names.load(link), Instruction::Accept(names.op(op)))?;
    emit_stores(arguments, code, names)?;
    emit_stmts(body, code, names)?;
    push(code, Instruction::Close)
}

/// Adds the code of a handler, whose jump behind the `try` is kept open.
#[cycle(emit_statement)]
fn emit_handler(
    handler: &Handler,
    code: &mut Vec<Instruction>,
    names: &Scope,
) -> Result<(), CompileFault>
    requires { AreStmts (stmt_list handler.now.body.items) }
    ensures ok { OnOk result (code.new.items ≡ code.old.items ++ handler_code (names_in names.now) 0 (length code.old.items) handler.now.name (stmt_list handler.now.body.items)) }
    ensures long { result ≡ Err faults.CodeTooLong → 65535 < length code.old.items + length (handler_code (names_in names.now) 0 (length code.old.items) handler.now.name (stmt_list handler.now.body.items)) }
{
    let jump = Jump::Case(exception(&handler.name));
    emit_over(&handler.body, jump, 1, code, names)?;
    push(code, Instruction::Jump(0))
}

/// Adds the code of handlers, whose jumps behind the `try` are kept open.
#[cycle(emit_statement)]
fn emit_handlers(
    handlers: &[Handler],
    code: &mut Vec<Instruction>,
    names: &Scope,
) -> Result<(), CompileFault>
    requires { AreHandlers (handler_list handlers.now) }
    ensures ok { OnOk result (code.new.items ≡ code.old.items ++ handlers_code (names_in names.now) 0 (length code.old.items) (handler_list handlers.now)) }
    ensures long { result ≡ Err faults.CodeTooLong → 65535 < length code.old.items + length (handlers_code (names_in names.now) 0 (length code.old.items) (handler_list handlers.now)) }
{
    for handler in handlers {
        emit_handler(handler, code, names)?;
    }
    Ok(())
}

/// The address behind the handler whose `case` stands at this address; 0 where there is none.
fn next_handler(code: &[Instruction], at: usize) -> usize
    ensures { (x : Exception) (next : ℕ) → slice_get code.now at ≡ Some (code_of.Case x next) → result ≡ next }
{
    match code.get(at) {
        Some(Instruction::Case(_, next)) => usize::from(*next),
        _ => 0,
    }
}

/// Writes the jump of a handler that begins at an address, and answers the address behind the handler.
fn close_handler(code: &mut Vec<Instruction>, at: usize, end: u16) -> usize
    ensures { (before body rest : List Instruction) (x : Exception) (next : ℕ) (kept : Instruction) → at ≡ length before → next ≡ at + 1 + length body + 1
        → code.old.items ≡ before ++ code_of.Case x next ∷ (body ++ kept ∷ rest) → (result ≡ next) × (code.new.items ≡ before ++ code_of.Case x next ∷ (body ++ code_of.Jump end ∷ rest)) }
{
    let next = next_handler(code, at);
    if next == 0 || code.len() < next {
        return next;
    }
    code[next - 1] = Instruction::Jump(end);
    next
}

/// Writes the jumps of so many handlers that begin at an address.
fn close_handlers(code: &mut Vec<Instruction>, first: usize, count: usize, end: u16)
    ensures { (names : Names) (before rest : List Instruction) (handlers : HandlerTrees) → first ≡ length before → count ≡ handlers_count handlers
        → code.old.items ≡ before ++ (handlers_code names 0 first handlers ++ rest) → code.new.items ≡ before ++ (handlers_code names end first handlers ++ rest) }
{
    let mut at = first;
    for _done in 0..count {
        at = close_handler(code, at, end);
    }
}

/// Writes the jump before the handlers, and those of so many handlers, that go behind a `try`.
fn close_try(code: &mut Vec<Instruction>, first: usize, count: usize, end: u16)
    requires { 0 < first × first ≤ length code.old.items }
    ensures { (names : Names) (before rest : List Instruction) (handlers : HandlerTrees) → first ≡ length before + 1 → count ≡ handlers_count handlers
        → code.old.items ≡ before ++ code_of.End ∷ (handlers_code names 0 first handlers ++ rest) → code.new.items ≡ before ++ code_of.Jump end ∷ (handlers_code names end first handlers ++ rest) }
{
    set(code, first - 1, Instruction::Jump(end));
    close_handlers(code, first, count, end);
}

/// Adds the code of the body of a `try`, whose jump over the handlers is kept open as the last instruction.
#[cycle(emit_statement)]
fn emit_guarded(
    body: &[Stmt],
    code: &mut Vec<Instruction>,
    names: &Scope,
) -> Result<(), CompileFault>
    requires { AreStmts (stmt_list body.now) }
    ensures ok { OnOk result (code.new.items ≡ code.old.items ++ guarded_code (names_in names.now) (length code.old.items) (stmt_list body.now)) }
    ensures long { result ≡ Err faults.CodeTooLong → 65535 < length code.old.items + length (guarded_code (names_in names.now) (length code.old.items) (stmt_list body.now)) }
{
    emit_over(body, Jump::Try, 2, code, names)?;
    emit_two(code, Instruction::Untry, Instruction::End)
}

/// Adds the code of the handlers of a `try`, whose jumps behind it are kept open.
#[cycle(emit_statement)]
fn emit_caught(
    handlers: &[Handler],
    code: &mut Vec<Instruction>,
    names: &Scope,
) -> Result<(), CompileFault>
    requires { AreHandlers (handler_list handlers.now) }
    ensures ok { OnOk result (code.new.items ≡ code.old.items ++ caught_code (names_in names.now) 0 (length code.old.items) (handler_list handlers.now)) }
    ensures long { result ≡ Err faults.CodeTooLong → 65535 < length code.old.items + length (caught_code (names_in names.now) 0 (length code.old.items) (handler_list handlers.now)) }
{
    emit_handlers(handlers, code, names)?;
    push(code, Instruction::Again)
}

/// Adds the code of a `try`.
#[cycle(emit_statement)]
fn emit_try<'t, 'm>(
    body: &'t [Stmt<'m>],
    handlers: &'t [Handler<'m>],
    code: &mut Vec<Instruction>,
    names: &Scope,
) -> Result<(), CompileFault>
    requires { AreStmts (stmt_list body.now) × AreHandlers (handler_list handlers.now) }
    ensures ok { OnOk result (code.new.items ≡ code.old.items ++ stmt_code (names_in names.now) (length code.old.items) (Try (stmt_list body.now) (handler_list handlers.now))) }
    ensures long { result ≡ Err faults.CodeTooLong → 65535 < length code.old.items + length (stmt_code (names_in names.now) (length code.old.items) (Try (stmt_list body.now) (handler_list handlers.now))) }
{
    emit_guarded(body, code, names)?;
    let first = code.len();
    emit_caught(handlers, code, names)?;
    let end = behind(code, 0)?;
    close_try(code, first, handlers.len(), end);
    Ok(())
}
