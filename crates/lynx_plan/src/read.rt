ghost use Rattle.std.specs.List.{position};
ghost use Rattle.charlotte_text.specs.Reading.{parts, rest_parts};
ghost use Rattle.charlotte_text.specs.Spelling.{line_feed};
ghost use Rattle.std.specs.Prelude.{◌≡◌, ◌==◌, ◌∷◌, option_copied, IfSome, ◌<◌, ◌≤◌, ◌+◌, ◌*◌, length, MatchResult, IfOk, Ok};
ghost use Rattle.charlotte_calls.specs.Setting.{IsValid};
ghost use Rattle.lynx_plan.specs.declared.script.Script.{Script};
ghost use Rattle.lynx_plan.specs.ScriptText.{AreRisingLines, IsScriptText};
ghost use Rattle.lynx_plan.specs.Reading.{Fails, Gives, is_skipped, meaning_at, finished, line_read, script_of, script_reader};

use crate::draft::Draft;
use crate::fault::PlanFault;
use crate::form::script_form;
use crate::meaning::Meaning;
use crate::rule::Rule;
use crate::rules::judge;
use crate::script::Script;
use crate::stage::Stage;
use charlotte_calls::{Call, NoMemory};
use memchr::memchr;
use std::alloc::Global;

/// The script that the bytes spell, or the first line that fails a rule and the least rule there.
pub fn read_script(alloc: Global, bytes: &[u8]) -> Result<Script, PlanFault>
    requires { length bytes.now < 4294967295 }
    // What is read is spelled so.
    ensures found { IfOk result (IsScriptText bytes.now) }
    ensures valid { IfOk result (λ script. IsValid script.setting) }
    ensures rising { IfOk result (λ script. AreRisingLines script.lines) }
    // The line of a call has six bytes and more, and its line feed.
    ensures few { IfOk result (λ script. 7 * length script.lines ≤ length bytes.now + 1) }
    // What is spelled as a script is read so, unless memory runs out.
    ensures only { (script : Script) → IsScriptText bytes.now script → Gives result (Ok script) }
    // Which line and which rule it is.
    ensures exact { Gives result (script_of bytes.now) }
{
    read_lines(alloc, bytes)
}

fn read_lines(alloc: Global, bytes: &[u8]) -> Result<Script, PlanFault>
    requires { length bytes.now < 4294967295 }
    ensures { Gives result (script_of bytes.now) }
{
    let mut draft = Draft::new(alloc);
    let mut place = Call::Make;
    let mut line = 0;
    let mut rest = Some(bytes);
    while let Some(text) = rest {
        let (this, after) = first_line(text);
        line += 1;
        read_line(alloc, &mut draft, line, this, &mut place)?;
        rest = after;
    }
    whole(draft, line)
}

/// What the lines of a whole text say, of which this is the number of the last.
fn whole(draft: Draft, line: u32) -> Result<Script, PlanFault>
    ensures { Gives result (finished script_reader line (Ok draft)) }
{
    match draft.stage() {
        Stage::Start | Stage::Named => Err(PlanFault::BadPlan {
            line,
            rule: Rule::LineDoesNotStandThere.number(),
        }),
        Stage::Processes | Stage::Wires | Stage::Calls => Ok(draft.into_script()),
    }
}

/// The first line of a text, and what stands behind its line feed, if it has one.
pub fn first_line(text: &[u8]) -> (&[u8], Option<&[u8]>)
    ensures { parts line_feed text.now ≡ result.0.now ∷ rest_parts line_feed (option_copied result.1) }
{
    match line_feed_at(text) {
        None => (text, None),
        Some(at) => (&text[..at], Some(&text[at + 1..])),
    }
}

fn line_feed_at(text: &[u8]) -> Option<usize>
    ensures exact { position (λ b. b == line_feed) text.now ≡ result }
    ensures within { IfSome result (λ at. at < length text.now) }
{
    memchr(b'\n', text)
}

#[tactic(auto, unfolding(crate::specs::Reading::line_read))]
fn read_line(
    alloc: Global,
    draft: &mut Draft,
    line: u32,
    text: &[u8],
    place: &mut Call,
) -> Result<(), PlanFault>
    requires { length draft.old.homes ≤ 64 }
    ensures { MatchResult result (λ _. line_read script_reader line draft.old text.now ≡ Ok draft.new) (λ e. Fails e (line_read script_reader line draft.old text.now)) }
{
    if skipped(text) {
        return Ok(());
    }
    match read_meaning(alloc, draft, text, place)? {
        Ok(meaning) => draft.add(line, meaning)?,
        Err(rule) => {
            let rule = rule.number();
            return Err(PlanFault::BadPlan { line, rule });
        }
    }
    Ok(())
}

/// Whether a line is skipped: it is empty, or begins with `#`.
pub fn skipped(text: &[u8]) -> bool
    ensures { result ≡ is_skipped text.now }
{
    match text {
        [] => true,
        [first, ..] => *first == b'#',
    }
}

/// What a line says, or the least rule that it fails.
#[tactic(auto, unfolding(crate::specs::Reading::meaning_at))]
fn read_meaning(
    alloc: Global,
    draft: &Draft,
    text: &[u8],
    place: &mut Call,
) -> Result<Result<Meaning, Rule>, NoMemory>
    requires { length draft.now.homes ≤ 64 }
    ensures { IfOk result (λ meaning. meaning ≡ meaning_at draft.now text.now) }
{
    match script_form(alloc, draft.version(), text, place)? {
        Ok(form) => Ok(judge(draft, form)),
        Err(_) => Ok(Err(Rule::LineDoesNotStandThere)),
    }
}
