//! Lists of what is read alike: behind commas, or behind a keyword each.

ghost use Rattle.std.specs.Prelude.{◌≡◌, ℕ, [], map};
ghost use Rattle.lynx_descent.specs.Reading.{Reads, Parser, pure, then_parse, sees_keyword, bracket, sign, many};
ghost use Rattle.lynx_descent.specs.ReadingLists as spec;
ghost use Rattle.lynx_lexer.specs.declared.sign.Sign.TheVariants as signs;

use crate::reader::Reader;
use crate::spare::without_spare;
use lynx_descent::Refusal;
use lynx_lexer::{Keyword, Sign};

/// What stands in lists.
pub trait Item<'a>: Sized + Drop {
    /// What contracts see of it.
    ghost Tree: { Type 0 };

    ghost tree: { Self → Tree };

    /// How one is read, where so many more brackets may be open.
    ghost parser: { ℕ → Parser Tree };

    fn read<'t>(reader: &mut Reader<'t, 'a>, room: usize) -> Result<Self, Refusal>
        ensures { Reads tree (parser room reader.old) result reader.new };
}

/// Reads items with commas between, up to `)`.
#[tactic(auto, using(lynx_descent::proofs::Turns::turns))]
pub fn listed<'t, 'a, T: Item<'a>>(
    reader: &mut Reader<'t, 'a>,
    room: usize,
) -> Result<Vec<T>, Refusal>
    ensures { Reads (λ v. map T.tree v.items) (spec.listed (T.parser room) reader.old) result reader.new }
{
    let mut all = Vec::new(reader.alloc());
    if reader.sees_sign(Sign::Close) {
        return Ok(all);
    }
    all.push(T::read(reader, room)?)?;
    for _turn in 0..reader.left() {
        if !reader.sees_sign(Sign::Comma) {
            break;
        }
        reader.advance();
        all.push(T::read(reader, room)?)?;
    }
    without_spare(&mut all);
    Ok(all)
}

/// Reads items as long as the keyword comes next, with which each begins.
#[tactic(auto, using(lynx_descent::proofs::Turns::turns))]
pub fn declared<'t, 'a, T: Item<'a>>(
    reader: &mut Reader<'t, 'a>,
    keyword: Keyword,
    room: usize,
) -> Result<Vec<T>, Refusal>
    ensures { Reads (λ v. map T.tree v.items) (many (sees_keyword keyword) (T.parser room) [] reader.old) result reader.new }
{
    let mut all = Vec::new(reader.alloc());
    for _turn in 0..reader.left() {
        if !reader.sees_keyword(keyword) {
            break;
        }
        all.push(T::read(reader, room)?)?;
    }
    without_spare(&mut all);
    Ok(all)
}

/// Reads items in brackets, with commas between.
pub fn bracketed<'t, 'a, T: Item<'a>>(
    reader: &mut Reader<'t, 'a>,
    room: usize,
) -> Result<Vec<T>, Refusal>
    ensures { Reads (λ v. map T.tree v.items) (then_parse (bracket room reader.old) (λ within ts. then_parse (spec.listed (T.parser within) ts) (λ all us. then_parse (sign signs.Close us) (λ _. pure all)))) result reader.new }
{
    let within = reader.bracket(room)?;
    let all = listed(reader, within)?;
    reader.sign(Sign::Close)?;
    Ok(all)
}
