ghost use Rattle.std.specs.Prelude.{◌≡◌, Some};
ghost use Rattle.charlotte_calls.specs.declared.names.EndId.{EndId};
ghost use Rattle.end_table.specs.Table.{entries, IsHere, IsHereAnd, IfHere};
ghost use Rattle.end_table.specs.declared.entry.Entry.{Entry};
ghost use Rattle.kernel_step.specs.Calls.{posts, withdraws_receive};
ghost use Rattle.cancel_core.specs.Receives.{IsPosted, IfPosted};
ghost use Rattle.kernel_step.specs.Progress.{progress, HasRoom, AddsAtMost, StaysWithin};
ghost use Rattle.kernel_step.specs.Room.{one_step, room_of_message, room_of_receive, room_of_unwanted};
ghost use Rattle.kernel_step.specs.Rows.{asks, arrived_row, receives, takes, unwanted_row, frees};
ghost use Rattle.kernel_step.specs.Actions.{resends_on_news};

use charlotte_calls::{Answer, Bytes, Cause, EndId, Ends, Outcome, Report, ServiceStep, Way};
use charlotte_packets::{What, Work};
use end_table::{Holder, Inward, Lent, Table};
use kernel_step::{
    Site, answer, is_withdrawing, keep_inward, learn_value, push_packet, push_step, receiver,
    report, resend_on_news,
};

/// Receive: a receive is started on an end, and the opposite end is asked for a message.
#[tactic(auto, unfolding(kernel_step::specs::Calls::posts))]
pub fn post(table: &mut Table, on: EndId, out: &mut Work)
    requires here { IsHere (entries table.old on) }
    requires room { HasRoom room_of_receive out.old }
    ensures part { IfHere (entries table.old on) (λ v. progress (entries table.new) out.new
        ≡ posts table.old.kernel v (progress (entries table.old) out.old)) }
    ensures within { StaysWithin room_of_receive table.old table.new out.old out.new }
{
    let mut value = table.here(on).value();
    let w = value.asked.saturating_add(1);
    push_step(out, ServiceStep::Receive { on });
    let want = What::Want {
        to: on.opposite(),
        w,
        at: table.kernel(),
        hops: value.hops,
    };
    push_packet(out, value.hint.0, want);
    value.asked = w;
    keep_inward(table, on, value, Inward::Posted { w });
}

/// Of a parcel at the receive that it was sent for: the message is taken and reported, and the sender is told.
/// Anywhere else it does nothing.
#[inline(always)]
pub fn arrived(
    table: &mut Table,
    to: EndId,
    n: u32,
    w: u32,
    at: u8,
    hops: u32,
    bytes: Bytes,
    enclosed: Ends,
    out: &mut Work,
)
    requires room { HasRoom room_of_message out.old }
    ensures part { progress (entries table.new) out.new
        ≡ arrived_row table.old.kernel n at hops bytes enclosed (asks w (entries table.old to)) (progress (entries table.old) out.old) }
    ensures within { StaysWithin room_of_message table.old table.new out.old out.new }
{
    if let Some(_) = receiver(table, to, w) {
        let message = Arrival {
            n,
            site: Site { at, hops },
            bytes,
            enclosed,
        };
        receive(table, to, message, out);
    }
}

/// A message that came in a parcel, with the site of the end that sent it.
#[derive(Drop)]
struct Arrival {
    n: u32,
    site: Site,
    bytes: Bytes,
    enclosed: Ends,
}

/// A message is taken by the started receive of an end that is here.
#[tactic(auto, unfolding(kernel_step::specs::Rows::receives, kernel_step::specs::Actions::resends_on_news))]
#[inline(always)]
fn receive(table: &mut Table, on: EndId, message: Arrival, out: &mut Work)
    requires here { IsHere (entries table.old on) }
    requires room { HasRoom room_of_message out.old }
    ensures part { IfHere (entries table.old on) (λ v. progress (entries table.new) out.new
        ≡ arrived_row table.old.kernel message.n message.site.at message.site.hops message.bytes message.enclosed (Some v) (progress (entries table.old) out.old)) }
    ensures within { StaysWithin room_of_message table.old table.new out.old out.new }
{
    let Arrival {
        n,
        site,
        bytes,
        enclosed,
    } = message;
    let kernel = table.kernel();
    let living = table.here(on);
    let mut value = living.value();
    let holder = living.holder();
    let late = is_withdrawing(living.inward());
    push_take(out, on, n, late, holder);
    let done = Report {
        on,
        way: Way::Inward,
        outcome: Outcome::Done,
        bytes,
        enclosed,
    };
    report(out, holder, done);
    if late {
        answer(out, holder, Answer::Refused(Cause::Late));
    }
    let taken = What::Taken {
        to: on.opposite(),
        n,
        at: kernel,
        hops: value.hops,
    };
    push_packet(out, site.at, taken);
    let news = learn_value(&mut value, site);
    resend_on_news(out, kernel, news, value, Inward::Unreported);
    keep_inward(table, on, value, Inward::Unreported);
}

/// Cancel of a started receive: the opposite end is asked whether its message was matched.
#[tactic(auto, unfolding(kernel_step::specs::Calls::withdraws_receive))]
pub fn withdraw_receive(table: &mut Table, on: EndId, out: &mut Work)
    requires posted { IsHereAnd (entries table.old on) (λ v. IsPosted v.inward) }
    requires room { HasRoom room_of_receive out.old }
    ensures part { IfHere (entries table.old on) (λ v. IfPosted v.inward (λ w. progress (entries table.new) out.new
        ≡ withdraws_receive table.old.kernel w v (progress (entries table.old) out.old))) }
    ensures within { StaysWithin room_of_receive table.old table.new out.old out.new }
{
    let living = table.here(on);
    let value = living.value();
    let w = match living.inward() {
        Inward::Posted { w } => w,
        _ => unreachable!(),
    };
    push_step(
        out,
        ServiceStep::Cancel {
            on,
            way: Way::Inward,
        },
    );
    let unwant = What::Unwant {
        to: on.opposite(),
        w,
        at: table.kernel(),
        hops: value.hops,
    };
    push_packet(out, value.hint.0, unwant);
    keep_inward(table, on, value, Inward::Withdrawing { w });
}

/// The rule of unwanted: the Cancel of the receive w is answered, where it waits.
pub fn unwanted(table: &mut Table, to: EndId, w: u32, at: u8, hops: u32, out: &mut Work)
    requires room { HasRoom room_of_unwanted out.old }
    ensures part { progress (entries table.new) out.new
        ≡ unwanted_row table.old.kernel w at hops (entries table.old to) (progress (entries table.old) out.old) }
    ensures within { StaysWithin room_of_unwanted table.old table.new out.old out.new }
{
    if let Lent::Here(living) = table.lend(to) {
        if living.inward() == (Inward::Withdrawing { w }) {
            free(table, to, Site { at, hops }, out);
        }
    }
}

/// The Cancel of an end's receive is answered: the receive never happened.
#[tactic(auto, unfolding(kernel_step::specs::Rows::frees, kernel_step::specs::Actions::resends_on_news))]
fn free(table: &mut Table, on: EndId, site: Site, out: &mut Work)
    requires here { IsHere (entries table.old on) }
    requires room { HasRoom room_of_unwanted out.old }
    ensures part { IfHere (entries table.old on) (λ v. progress (entries table.new) out.new
        ≡ frees table.old.kernel site.at site.hops v (progress (entries table.old) out.old)) }
    ensures within { StaysWithin room_of_unwanted table.old table.new out.old out.new }
{
    let kernel = table.kernel();
    let living = table.here(on);
    let mut value = living.value();
    push_step(out, ServiceStep::Free { on });
    answer(out, living.holder(), Answer::Ok);
    let news = learn_value(&mut value, site);
    resend_on_news(out, kernel, news, value, Inward::Idle);
    keep_inward(table, on, value, Inward::Idle);
}

/// Notes who takes a message.
fn push_take(out: &mut Work, on: EndId, n: u32, late: bool, holder: Holder)
    requires { HasRoom one_step out.old }
    ensures part { (t : EndId → Entry) → progress t out.new ≡ takes on n late holder (progress t out.old) }
    ensures room { AddsAtMost one_step out.old out.new }
{
    if let Holder::Owner(p) = holder {
        push_step(
            out,
            ServiceStep::Take {
                on: on.opposite(),
                n,
                p,
                late,
            },
        );
    }
}
