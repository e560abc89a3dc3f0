//! Declarations of one sort, one after another, as text.

ghost use Rattle.std.specs.Prelude.{◌≡◌, List, OnOk};
ghost use Rattle.std.specs.List.{flat_map};
ghost use Rattle.lynx_lexer.specs.declared.keyword.Keyword.{Keyword};
ghost use Rattle.lynx_tree.specs.Grammar.{Mark};
ghost use Rattle.lynx_tree.specs.Printing.{Prints};

use lynx_lexer::{Keyword, NoMemory};

/// What is declared behind a keyword.
pub trait Declaration {
    /// The tokens of one. Only a variable's depend on the keyword.
    ghost marks: { Keyword → Self → List Mark };

    fn push(&self, keyword: Keyword, out: &mut Vec<u8>) -> Result<(), NoMemory>
        ensures { OnOk result (Prints out.old.items out.new.items (marks keyword self.now)) };
}

/// Adds declarations, each behind the keyword.
pub fn push_all<T: Declaration>(
    all: &[T],
    keyword: Keyword,
    out: &mut Vec<u8>,
) -> Result<(), NoMemory>
    ensures { OnOk result (Prints out.old.items out.new.items (flat_map (T.marks keyword) all.now)) }
{
    for item in all {
        item.push(keyword, out)?;
    }
    Ok(())
}
