ghost use Rattle.std.specs.Prelude.{◌≡◌};
ghost use Rattle.kernel_step.specs.Enclosed.{AreEnclosed, IsReady};
ghost use Rattle.charlotte_calls.specs.declared.names.EndId.{EndId};
ghost use Rattle.end_table.specs.Table.{entries, IsHere, IfHere, KeepsOthers};
ghost use Rattle.charlotte_packets.specs.declared.work.Work.{Work};
ghost use Rattle.end_table.specs.declared.entry.Entry.TheVariants.{Here};
ghost use Rattle.end_table.specs.declared.entry.Entry.{Entry};
ghost use Rattle.kernel_step.specs.Actions.{enclosed_of, notices, notice_send, notice_receive, noticed_value, noticed_outward, noticed_inward, dead_receive_report};
ghost use Rattle.kernel_step.specs.Progress.{progress, keeps, HasRoom, AddsAtMost, StaysWithin};
ghost use Rattle.kernel_step.specs.Room.{one_report, room_of_dead_receive, room_of_notice};

use crate::enclosed::hold_each;
use charlotte_calls::{Answer, Cause, EndId, Outcome, Report, Way};
use charlotte_packets::{MovingPicture, Work};
use end_table::{HereView, Holder, Inward, Outward, Table};
use kernel_step::{answer, forget, no_bytes, no_ends, report, send_report};

/// The action NOTICE at an end that is here: a waiting send and a started receive report Destroyed, a Cancel that waits is
/// answered Dead, and the traces of the end are forgotten.
#[tactic(auto, unfolding(kernel_step::specs::Actions::notices))]
pub fn notice(table: &mut Table, on: EndId, out: &mut Work)
    requires here { IsHere (entries table.old on) }
    requires ready { IsReady (entries table.old) on }
    requires room { HasRoom room_of_notice out.old }
    ensures part { IfHere (entries table.old on) (λ v. progress (entries table.new) out.new
        ≡ notices table.old.kernel v (progress (entries table.old) out.old)) }
    ensures within { StaysWithin room_of_notice table.old table.new out.old out.new }
{
    let kernel = table.kernel();
    let living = table.here(on);
    let value = living.value();
    let holder = living.holder();
    let inward = living.inward();
    let outward = note_death(table, on);
    notice_send(table, on, holder, outward, out);
    notice_receive(out, on, holder, inward);
    forget(out, kernel, value);
}

/// What NOTICE makes of an end. It answers what the send was, with its message.
#[tactic(auto, using(kernel_step::proofs::Steps::progress_puts))]
fn note_death(table: &mut Table, on: EndId) -> Outward
    requires here { IsHere (entries table.old on) }
    ensures was { IfHere (entries table.old on) (λ v. result ≡ v.outward) }
    ensures part { IfHere (entries table.old on) (λ v. (out : Work) → progress (entries table.new) out
        ≡ keeps on (Here (record v { value = noticed_value v.value; outward = noticed_outward v.outward; inward = noticed_inward v.inward })) (progress (entries table.old) out)) }
    ensures kept { KeepsOthers table.old table.new on }
{
    let was = table.outward(on);
    let living = table.here(on);
    let noticed = HereView {
        value: noticed_value(living.value()),
        holder: living.holder(),
        outward: noticed_outward(&was),
        inward: noticed_inward(living.inward()),
    };
    table.change(on, noticed);
    was
}

/// What NOTICE makes of an end's value.
fn noticed_value(mut value: MovingPicture) -> MovingPicture
    ensures { result ≡ noticed_value value }
{
    value.want = 0;
    value.dead = true;
    value.trail = 0;
    value
}

/// What NOTICE makes of a send.
fn noticed_outward(outward: &Outward) -> Outward
    ensures { result ≡ noticed_outward outward.now }
{
    match outward {
        Outward::Idle => Outward::Idle,
        Outward::Matched { n } => Outward::Matched { n: *n },
        Outward::Waiting { .. } | Outward::Unreported => Outward::Unreported,
    }
}

/// What NOTICE makes of a receive.
fn noticed_inward(inward: Inward) -> Inward
    ensures { result ≡ noticed_inward inward }
{
    match inward {
        Inward::Idle => Inward::Idle,
        Inward::Posted { .. } | Inward::Withdrawing { .. } | Inward::Unreported => {
            Inward::Unreported
        }
    }
}

/// NOTICE of a send: a waiting one reports Destroyed, and the ends that it encloses are its owner's again.
#[tactic(auto, unfolding(kernel_step::specs::Actions::notice_send))]
fn notice_send(table: &mut Table, on: EndId, holder: Holder, outward: Outward, out: &mut Work)
    requires enclosed { AreEnclosed (entries table.old) (enclosed_of outward) }
    requires room { HasRoom one_report out.old }
    ensures part { progress (entries table.new) out.new ≡ notice_send on holder outward (progress (entries table.old) out.old) }
    ensures within { StaysWithin one_report table.old table.new out.old out.new }
{
    if let Outward::Waiting { enclosed, .. } = outward {
        report(
            out,
            holder,
            send_report(on, Outcome::Destroyed, enclosed.copy()),
        );
        hold_each(table, holder, enclosed.as_slice());
    }
}

/// NOTICE of a receive: a started one reports Destroyed, and a Cancel that waits is answered Dead.
#[tactic(auto, unfolding(kernel_step::specs::Actions::notice_receive))]
fn notice_receive(out: &mut Work, on: EndId, holder: Holder, inward: Inward)
    requires { HasRoom room_of_dead_receive out.old }
    ensures part { (t : EndId → Entry) → progress t out.new ≡ notice_receive on holder inward (progress t out.old) }
    ensures room { AddsAtMost room_of_dead_receive out.old out.new }
{
    match inward {
        Inward::Idle | Inward::Unreported => {}
        Inward::Posted { .. } => report(out, holder, dead_receive_report(on)),
        Inward::Withdrawing { .. } => {
            report(out, holder, dead_receive_report(on));
            answer(out, holder, Answer::Refused(Cause::Dead));
        }
    }
}

/// The report of a receive whose link died.
fn dead_receive_report(on: EndId) -> Report
    ensures { result ≡ dead_receive_report on }
{
    Report {
        on,
        way: Way::Inward,
        outcome: Outcome::Destroyed,
        bytes: no_bytes(),
        enclosed: no_ends(),
    }
}
