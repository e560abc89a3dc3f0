ghost use Rattle.std.specs.Prelude.{◌≡◌};
ghost use Rattle.charlotte_packets.specs.Packets.{what_picture};
ghost use Rattle.charlotte_calls.specs.declared.names.EndId.{EndId};
ghost use Rattle.end_table.specs.declared.entry.Entry.{Entry};
ghost use Rattle.kernel_step.specs.Progress.{progress, sends, reports_to, answers_to, means, HasRoom, AddsAtMost};
ghost use Rattle.kernel_step.specs.Room.{one_packet, one_report, one_answer, one_step};

use charlotte_calls::{Answer, Pid, Report, ServiceStep};
use charlotte_packets::{Packet, What, Work};

/// Adds a packet to a kernel, with the stamp of the event.
#[tactic(auto, unfolding(crate::specs::Progress::progress, crate::specs::Progress::sends))]
#[inline(always)]
pub fn push_packet(out: &mut Work, to: u8, what: What)
    requires { HasRoom one_packet out.old }
    ensures part { (t : EndId → Entry) → progress t out.new ≡ sends to (what_picture what) (progress t out.old) }
    ensures room { AddsAtMost one_packet out.old out.new }
{
    let stamp = out.stamp;
    out.packets.push_reserved((to, Packet { stamp, what }));
}

/// Adds a report for a process.
#[tactic(auto, unfolding(crate::specs::Progress::progress, crate::specs::Progress::reports_to))]
#[inline(always)]
pub fn push_report(out: &mut Work, p: Pid, report: Report)
    requires { HasRoom one_report out.old }
    ensures part { (t : EndId → Entry) → progress t out.new ≡ reports_to p report (progress t out.old) }
    ensures room { AddsAtMost one_report out.old out.new }
{
    out.reports.push_reserved((p, report));
}

/// Adds the answer to a Cancel that waited.
#[tactic(auto, unfolding(crate::specs::Progress::progress, crate::specs::Progress::answers_to))]
#[inline(always)]
pub fn push_answer(out: &mut Work, p: Pid, answer: Answer)
    requires { HasRoom one_answer out.old }
    ensures part { (t : EndId → Entry) → progress t out.new ≡ answers_to p answer (progress t out.old) }
    ensures room { AddsAtMost one_answer out.old out.new }
{
    out.answers.push_reserved((p, answer));
}

/// Adds what the event means to the link service.
#[tactic(auto, unfolding(crate::specs::Progress::progress, crate::specs::Progress::means))]
#[inline(always)]
pub fn push_step(out: &mut Work, step: ServiceStep)
    requires { HasRoom one_step out.old }
    ensures part { (t : EndId → Entry) → progress t out.new ≡ means step (progress t out.old) }
    ensures room { AddsAtMost one_step out.old out.new }
{
    out.steps.push_reserved(step);
}
