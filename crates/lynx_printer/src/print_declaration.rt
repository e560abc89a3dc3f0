//! Declarations as text.

ghost use Rattle.std.specs.Prelude.{◌≡◌, ℕ, [], ◌∷◌, ◌++◌, OnOk};
ghost use Rattle.lynx_lexer.specs.declared.keyword.Keyword.TheVariants as keywords;
ghost use Rattle.lynx_tree.specs.Grammar.{Mark, word, mark, stmts_marks, op_marks, var_marks, entry_marks};
ghost use Rattle.lynx_tree.specs.Trees.{stmt_list, op_tree, var_tree, entry_tree};
ghost use Rattle.lynx_tree.specs.Printing.{Prints};

use crate::print_all::{Declaration, push_all};
use crate::print_list::{push_names, push_type, push_types};
use crate::print_statement::{push_named, push_stmts, push_two};
use crate::print_token::{push_keyword, push_sign};
use lynx_lexer::{Keyword, NoMemory, Sign};
use lynx_tree::{EntryDecl, OpDecl, Stmt, VarDecl};

fn push_op(op: &OpDecl, out: &mut Vec<u8>) -> Result<(), NoMemory>
    ensures { OnOk result (Prints out.old.items out.new.items (op_marks (op_tree op.now))) }
{
    push_named(Keyword::Op, &op.name, out)?;
    push_types(&op.arguments, out)?;
    push_sign(Sign::Colon, out)?;
    push_types(&op.results, out)?;
    push_sign(Sign::Semicolon, out)
}

impl<'a> Declaration for OpDecl<'a> {
    ghost marks = { λ _ op. op_marks (op_tree op) };

    fn push(&self, _keyword: Keyword, out: &mut Vec<u8>) -> Result<(), NoMemory> {
        push_op(self, out)
    }
}

fn push_var(var: &VarDecl, keyword: Keyword, out: &mut Vec<u8>) -> Result<(), NoMemory>
    ensures { OnOk result (Prints out.old.items out.new.items (var_marks keyword (var_tree var.now))) }
{
    push_named(keyword, &var.name, out)?;
    push_sign(Sign::Colon, out)?;
    push_type(var.kind, out)?;
    push_sign(Sign::Semicolon, out)
}

impl<'a> Declaration for VarDecl<'a> {
    ghost marks = { λ keyword var. var_marks keyword (var_tree var) };

    fn push(&self, keyword: Keyword, out: &mut Vec<u8>) -> Result<(), NoMemory> {
        push_var(self, keyword, out)
    }
}

/// Adds statements from `begin` to `end` and a sign.
pub fn push_body(body: &[Stmt], last: Sign, out: &mut Vec<u8>) -> Result<(), NoMemory>
    ensures { OnOk result (Prints out.old.items out.new.items (word 0 keywords.Begin ∷ (stmts_marks 0 (stmt_list body.now) ++ word 0 keywords.End ∷ mark 0 last ∷ []))) }
{
    push_keyword(Keyword::Begin, out)?;
    push_stmts(body, out)?;
    push_keyword(Keyword::End, out)?;
    push_sign(last, out)
}

fn push_entry(entry: &EntryDecl, out: &mut Vec<u8>) -> Result<(), NoMemory>
    ensures { OnOk result (Prints out.old.items out.new.items (entry_marks (entry_tree entry.now))) }
{
    push_two(Keyword::Entry, &entry.name, Keyword::Of, &entry.op, out)?;
    push_names(&entry.parameters, out)?;
    push_all(&entry.vars, Keyword::Var, out)?;
    push_body(&entry.body, Sign::Semicolon, out)
}

impl<'a> Declaration for EntryDecl<'a> {
    ghost marks = { λ _ entry. entry_marks (entry_tree entry) };

    fn push(&self, _keyword: Keyword, out: &mut Vec<u8>) -> Result<(), NoMemory> {
        push_entry(self, out)
    }
}
