//! The tables of a module.

ghost use Rattle.std.specs.Prelude.{◌<◌, [], length, IfOk, OnOk};
ghost use Rattle.lynx_tree.specs.Grammar.{module_marks};
ghost use Rattle.lynx_tree.specs.Trees.{module_tree};
ghost use Rattle.lynx_code.specs.Modules.{global_names, op_names, entry_names};
ghost use Rattle.compiler_emission.specs.Places.{IsTableOf};
ghost use Rattle.compiler_emission.specs.Tables.{AreTablesOf};

use crate::places::{Places, add_entries};
use crate::tables::Tables;
use lynx_lexer::NoMemory;
use lynx_tree::Module;
use std::alloc::Global;

/// Adds the names of a module to its three tables, which are empty.
fn add_each<'t, 'm>(
    tree: &'t Module<'m>,
    globals: &mut Places<'m>,
    ops: &mut Places<'m>,
    entries: &mut Places<'m>,
) -> Result<(), NoMemory>
    requires empty { IsTableOf [] globals.old × IsTableOf [] ops.old × IsTableOf [] entries.old }
    requires fits { length (module_marks (module_tree tree.now)) < 4294967296 }
    requires short { length tree.now.entries.items < 65535 }
    ensures globals { OnOk result (IsTableOf (global_names (module_tree tree.now)) globals.new) }
    ensures ops { OnOk result (IsTableOf (op_names (module_tree tree.now)) ops.new) }
    ensures entries { OnOk result (IsTableOf (entry_names (module_tree tree.now)) entries.new) }
{
    globals.add_vars(&tree.params)?;
    globals.add_vars(&tree.vars)?;
    ops.add_ops(&tree.ops)?;
    add_entries(&tree.entries, entries)?;
    Ok(())
}

/// The tables of a module whose entries have numbers of 16 bits.
pub fn tables_of<'t, 'm>(alloc: Global, tree: &'t Module<'m>) -> Result<Tables<'m>, NoMemory>
    requires fits { length (module_marks (module_tree tree.now)) < 4294967296 }
    requires short { length tree.now.entries.items < 65535 }
    ensures { IfOk result (AreTablesOf (module_tree tree.now)) }
{
    let mut globals = Places::new(alloc);
    let mut ops = Places::new(alloc);
    let mut entries = Places::new(alloc);
    add_each(tree, &mut globals, &mut ops, &mut entries)?;
    Ok(Tables {
        globals,
        ops,
        entries,
    })
}
