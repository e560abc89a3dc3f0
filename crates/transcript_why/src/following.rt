//! The kernels and the link service after the first lines of a text.
ghost use Rattle.std.specs.Prelude.{◌≡◌, ◌<◌, IfOk, MatchBool, MatchOption, length, true};
ghost use Rattle.std.specs.Bool.{OnTrue};
ghost use Rattle.transcript_items.specs.Kept.{FollowAll};
ghost use Rattle.transcript_items.specs.Next.{FollowsNext};
ghost use Rattle.transcript_reader.specs.Lines.{next_line};
ghost use Rattle.transcript_why.specs.Before.{CannotFollow, Halts, IsKept, Stops, first_lines, lines_before, setting_before, shown_next};

use crate::reached::{next_line, reader_behind};
use charlotte_calls::{NoMemory, Setting};
use std::alloc::Global;
use transcript_items::Kernels;
use transcript_reader::Reader;

/// Behind the lines before the one of a number, as far as they can stand.
#[derive(Drop)]
pub(crate) struct Behind<'a, K: Drop> {
    pub(crate) reader: Reader<'a>,
    /// The run of these lines; `None` exactly where none follows them.
    pub(crate) run: Option<K>,
}

/// Follows the lines before the one of a number. The setting is the one that they tell.
pub(crate) fn run_before<'a, K: Kernels>(
    alloc: Global,
    bytes: &'a [u8],
    number: u32,
    setting: Setting,
) -> Result<Behind<'a, K>, NoMemory>
    requires few { length bytes.now < 4294967295 }
    requires told { setting ≡ setting_before bytes.now number }
    ensures left { IfOk result (λ b. b.reader ≡ (lines_before bytes.now number).1) }
    ensures run { IfOk result (λ b. MatchOption b.run (CannotFollow bytes.now number) (λ k. K.stand k × IsKept bytes.now number (K.kept k))) }
{
    let lines = number.saturating_sub(1);
    if !setting.valid() {
        return Ok(Behind {
            reader: reader_behind(bytes, lines),
            run: None,
        });
    }
    let mut run = K::start(alloc, setting)?;
    let mut reader = Reader::new(bytes);
    if follow_lines(&mut run, &mut reader, lines)? {
        return Ok(Behind {
            reader,
            run: Some(run),
        });
    }
    Ok(Behind {
        reader: reader_behind(bytes, lines),
        run: None,
    })
}

/// Follows so many lines; `false` exactly where there are fewer that can stand, or one can not be followed.
fn follow_lines<K: Kernels>(
    run: &mut K,
    reader: &mut Reader<'_>,
    lines: u32,
) -> Result<bool, NoMemory>
    requires { K.stand run.old }
    ensures stand { IfOk result (λ went. OnTrue went (K.stand run.new)) }
    ensures left { IfOk result (λ went. OnTrue went (reader.new ≡ (first_lines lines reader.old).1)) }
    ensures followed { IfOk result (λ went. MatchBool went (FollowAll (K.kept run.old) (first_lines lines reader.old).0 (K.kept run.new))
        (Stops lines reader.old (K.kept run.old))) }
{
    for _ in 0..lines {
        if !follow_next(run, reader)? {
            return Ok(false);
        }
    }
    Ok(true)
}

/// Follows the next line; `false` exactly where none can stand there, or it can not be followed.
fn follow_next<K: Kernels>(run: &mut K, reader: &mut Reader<'_>) -> Result<bool, NoMemory>
    requires { K.stand run.old }
    ensures stand { IfOk result (λ went. OnTrue went (K.stand run.new)) }
    ensures follows { IfOk result (λ went. MatchBool went (FollowsNext (K.kept run.old) reader.old true (K.kept run.new) reader.new)
        (Halts (K.kept run.old) (shown_next (next_line reader.old)))) }
{
    match run.follow_expected(reader)? {
        Some(went) => Ok(went),
        None => follow_any(run, reader),
    }
}

/// The same, whatever the form of the line.
fn follow_any<K: Kernels>(run: &mut K, reader: &mut Reader<'_>) -> Result<bool, NoMemory>
    requires { K.stand run.old }
    ensures stand { IfOk result (λ went. OnTrue went (K.stand run.new)) }
    ensures follows { IfOk result (λ went. MatchBool went (FollowsNext (K.kept run.old) reader.old true (K.kept run.new) reader.new)
        (Halts (K.kept run.old) (shown_next (next_line reader.old)))) }
{
    let Some(line) = next_line(reader) else {
        return Ok(false);
    };
    run.follow(&line.what)
}
