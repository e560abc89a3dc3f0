ghost use Rattle.std.specs.Prelude.{◌≡◌, ◌<◌, ◌≤◌, length, MatchResult, IfOk, Ok, option_copied};
ghost use Rattle.lynx_plan.specs.Reading.{Fails, Gives, finished, line_read};
ghost use Rattle.charlotte_calls.specs.Setting.{IsValid};
ghost use Rattle.plan_text.specs.declared.plan.Plan.{Plan};
ghost use Rattle.plan_text.specs.PlanText.{IsPlanText};
ghost use Rattle.plan_text.specs.Reading.{plan_meaning_at, plan_of, plan_reader};

use crate::draft::PlanDraft;
use crate::form::plan_form;
use crate::plan::Plan;
use crate::rules::{Place, judge_plan};
use charlotte_calls::NoMemory;
use lynx_plan::{Meaning, PlanFault, Rule, Stage, first_line, skipped};
use std::alloc::Global;

/// The plan that the bytes spell, or the first line that fails a rule and the least rule there. The rule on the params of the modules is not
/// among them.
pub fn read_plan(alloc: Global, bytes: &[u8]) -> Result<Plan, PlanFault>
    requires { length bytes.now < 4294967295 }
    // What is read is spelled so.
    ensures found { IfOk result (IsPlanText bytes.now) }
    ensures valid { IfOk result (λ plan. IsValid plan.setting) }
    // What is spelled as a plan is read so, unless memory runs out.
    ensures only { (plan : Plan) → IsPlanText bytes.now plan → Gives result (Ok plan) }
    // Which line and which rule it is.
    ensures exact { Gives result (plan_of bytes.now) }
{
    read_lines(alloc, bytes)
}

fn read_lines(alloc: Global, bytes: &[u8]) -> Result<Plan, PlanFault>
    requires { length bytes.now < 4294967295 }
    ensures { Gives result (plan_of bytes.now) }
{
    let mut draft = PlanDraft::new(alloc);
    let mut line = 0;
    let mut rest = Some(bytes);
    while let Some(text) = rest {
        let (this, after) = first_line(text);
        line += 1;
        read_line(alloc, &mut draft, line, this)?;
        rest = after;
    }
    whole(draft, line)
}

/// What the lines of a whole text say, of which this is the number of the last.
fn whole(draft: PlanDraft, line: u32) -> Result<Plan, PlanFault>
    ensures { Gives result (finished plan_reader line (Ok draft)) }
{
    match draft.header().stage() {
        Stage::Start | Stage::Named => Err(PlanFault::BadPlan {
            line,
            rule: Rule::LineDoesNotStandThere.number(),
        }),
        Stage::Processes | Stage::Wires | Stage::Calls => Ok(draft.into_plan()?),
    }
}

#[tactic(auto, unfolding(lynx_plan::specs::Reading::line_read))]
fn read_line(alloc: Global, draft: &mut PlanDraft, line: u32, text: &[u8]) -> Result<(), PlanFault>
    requires { length draft.old.header.homes ≤ 64 }
    ensures { MatchResult result (λ _. line_read plan_reader line draft.old text.now ≡ Ok draft.new) (λ e. Fails e (line_read plan_reader line draft.old text.now)) }
{
    if skipped(text) {
        return Ok(());
    }
    match read_meaning(alloc, draft, text)? {
        Ok((meaning, place)) => draft.add(line, meaning, place)?,
        Err(rule) => {
            let rule = rule.number();
            return Err(PlanFault::BadPlan { line, rule });
        }
    }
    Ok(())
}

/// What a line says, or the least rule that it fails.
#[tactic(auto, unfolding(crate::specs::Reading::plan_meaning_at))]
fn read_meaning(
    alloc: Global,
    draft: &PlanDraft,
    text: &[u8],
) -> Result<Result<(Meaning, Place), Rule>, NoMemory>
    requires { length draft.now.header.homes ≤ 64 }
    ensures { IfOk result (λ said. said ≡ plan_meaning_at draft.now text.now) }
{
    match plan_form(alloc, text)? {
        Ok(form) => Ok(judge_plan(draft, form)),
        Err(_) => Ok(Err(Rule::LineDoesNotStandThere)),
    }
}
