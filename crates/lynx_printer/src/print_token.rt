//! Tokens as text.

ghost use Rattle.std.specs.Prelude.{◌≡◌, ℕ, [], ◌∷◌, ◌++◌, OnOk};
ghost use Rattle.lynx_lexer.specs.declared.token.Kind.TheVariants as kinds;
ghost use Rattle.lynx_tree.specs.Printing.{token_text};

use itoa::Buffer;
use lynx_lexer::{IdentRef, Keyword, NoMemory, Sign, TextRef};

/// Adds a spelling and what follows it.
pub fn push_spelling(spelling: &[u8], gap: u8, out: &mut Vec<u8>) -> Result<(), NoMemory>
    ensures { OnOk result (out.new.items ≡ out.old.items ++ (spelling.now ++ gap ∷ [])) }
{
    out.extend_from_slice(spelling)?;
    out.push(gap)?;
    Ok(())
}

#[tactic(auto, unfolding(lynx_tree::specs::Printing::token_text))]
pub fn push_keyword(keyword: Keyword, out: &mut Vec<u8>) -> Result<(), NoMemory>
    ensures { OnOk result (out.new.items ≡ out.old.items ++ token_text (kinds.Keyword keyword)) }
{
    push_spelling(keyword.as_slice(), b' ', out)
}

#[tactic(auto, unfolding(lynx_tree::specs::Printing::token_text))]
pub fn push_sign(sign: Sign, out: &mut Vec<u8>) -> Result<(), NoMemory>
    ensures { OnOk result (out.new.items ≡ out.old.items ++ token_text (kinds.Sign sign)) }
{
    let gap = match sign {
        Sign::Semicolon | Sign::Dot => b'\n',
        _ => b' ',
    };
    push_spelling(sign.as_slice(), gap, out)
}

#[tactic(auto, unfolding(lynx_tree::specs::Printing::token_text))]
pub fn push_name(name: &IdentRef, out: &mut Vec<u8>) -> Result<(), NoMemory>
    ensures { OnOk result (out.new.items ≡ out.old.items ++ token_text (kinds.Name name.now)) }
{
    push_spelling(name.as_slice(), b' ', out)
}

#[tactic(auto, unfolding(lynx_tree::specs::Printing::token_text))]
pub fn push_number(number: i64, out: &mut Vec<u8>) -> Result<(), NoMemory>
    ensures { OnOk result (out.new.items ≡ out.old.items ++ token_text (kinds.Number number)) }
{
    let mut buffer = Buffer::new();
    push_spelling(buffer.format(number).as_bytes(), b' ', out)
}

#[tactic(auto, unfolding(lynx_tree::specs::Printing::token_text))]
pub fn push_text(inside: &TextRef, out: &mut Vec<u8>) -> Result<(), NoMemory>
    ensures { OnOk result (out.new.items ≡ out.old.items ++ token_text (kinds.Text inside.now)) }
{
    out.push(b'\'')?;
    out.extend_from_slice(inside.as_slice())?;
    push_spelling(b"'", b' ', out)?;
    Ok(())
}
