ghost use Rattle.std.specs.Prelude.{◌≡◌, false, Some};
ghost use Rattle.std.specs.List.{list_any};
ghost use Rattle.kernel_step.specs.Enclosed.{AreEnclosed, IsReady};
ghost use Rattle.end_table.specs.Place.{end_eq};
ghost use Rattle.end_table.specs.Table.{entries, IsHere, IfHere};
ghost use Rattle.kernel_step.specs.Actions.{send_report};
ghost use Rattle.kernel_step.specs.Calls.{starts_send, withdraws_send};
ghost use Rattle.kernel_step.specs.Progress.{progress, HasRoom, StaysWithin};
ghost use Rattle.kernel_step.specs.Room.{one_step, room_of_send, room_of_taken, room_of_want};
ghost use Rattle.kernel_step.specs.Rows.{want_row, want_here, wants, awaits, taken_row, completes, unwant_row, unwant_here, voids};

use crate::enclosed::hold_each;
use crate::matching::{Message, match_waiting, send_parcel};
use charlotte_calls::{Bytes, EndId, Ends, Outcome, ServiceStep, Way};
use charlotte_packets::{What, Work};
use end_table::{Lent, Sending, Table};
use kernel_step::{
    Site, enclosed_ends, keep_inward, keep_sending, keep_waiting, learn, learn_value, no_ends,
    push_packet, push_step, report, resend_on_news, send_report, sender,
};

/// Send: a send of these bytes, which encloses these ends, is started, and matched where a receive wants it.
/// That the ends are held by the send is set before.
#[tactic(auto, unfolding(kernel_step::specs::Calls::starts_send))]
#[inline(always)]
pub fn start_send(table: &mut Table, on: EndId, bytes: Bytes, enclose: Ends, out: &mut Work)
    requires here { IsHere (entries table.old on) }
    requires enclosed { AreEnclosed (entries table.old) enclose }
    requires apart { list_any (end_eq on) enclose ≡ false }
    requires room { HasRoom room_of_send out.old }
    ensures part { IfHere (entries table.old on) (λ v. progress (entries table.new) out.new
        ≡ starts_send table.old.kernel bytes enclose v (progress (entries table.old) out.old)) }
    ensures within { StaysWithin room_of_send table.old table.new out.old out.new }
{
    let mut value = table.here(on).value();
    let n = value.sent.saturating_add(1);
    push_step(
        out,
        ServiceStep::Send {
            on,
            n,
            bytes: bytes.copy(),
            enclose: enclose.copy(),
        },
    );
    value.sent = n;
    if value.want != 0 {
        let message = Message {
            n,
            bytes,
            enclosed: enclose,
        };
        send_parcel(table, on, value, message, out);
        return;
    }
    keep_waiting(table, on, value, n, bytes, enclose);
}

/// Cancel of a send that waits: it never happened, and the ends that it enclosed are its owner's again.
#[tactic(auto, unfolding(kernel_step::specs::Calls::withdraws_send))]
pub fn withdraw_send(table: &mut Table, on: EndId, out: &mut Work)
    requires here { IsHere (entries table.old on) }
    requires ready { IsReady (entries table.old) on }
    requires room { HasRoom one_step out.old }
    ensures part { IfHere (entries table.old on) (λ v. progress (entries table.new) out.new
        ≡ withdraws_send v (progress (entries table.old) out.old)) }
    ensures within { StaysWithin one_step table.old table.new out.old out.new }
{
    let living = table.here(on);
    let value = living.value();
    let holder = living.holder();
    let enclosed = enclosed_ends(&table.outward(on));
    keep_sending(table, on, value, Sending::Idle);
    hold_each(table, holder, enclosed.as_slice());
    push_step(
        out,
        ServiceStep::Cancel {
            on,
            way: Way::Outward,
        },
    );
}

/// The rule of want: the receive w of the opposite end asks for a message, unless it was matched or withdrawn.
pub fn want(table: &mut Table, to: EndId, w: u32, at: u8, hops: u32, out: &mut Work)
    requires ready { IsReady (entries table.old) to }
    requires room { HasRoom room_of_want out.old }
    ensures part { progress (entries table.new) out.new
        ≡ want_row table.old.kernel to w at hops (entries table.old to) (progress (entries table.old) out.old) }
    ensures within { StaysWithin room_of_want table.old table.new out.old out.new }
{
    match table.lend(to) {
        Lent::Here(_) => want_here(table, to, w, Site { at, hops }, out),
        Lent::Left { to: there, .. } => push_packet(out, there, What::Want { to, w, at, hops }),
        Lent::Nothing | Lent::Destroyed(_) => {}
    }
}

/// The receive w of the opposite end asks an end that is here.
#[tactic(auto, unfolding(kernel_step::specs::Rows::want_here))]
fn want_here(table: &mut Table, on: EndId, w: u32, site: Site, out: &mut Work)
    requires here { IsHere (entries table.old on) }
    requires ready { IsReady (entries table.old) on }
    requires room { HasRoom room_of_want out.old }
    ensures part { IfHere (entries table.old on) (λ v. progress (entries table.new) out.new
        ≡ want_here table.old.kernel w site.at site.hops v (progress (entries table.old) out.old)) }
    ensures within { StaysWithin room_of_want table.old table.new out.old out.new }
{
    let value = table.here(on).value();
    if value.dead {
        return;
    }
    if value.served < w {
        serve(table, on, w, site, out);
    } else {
        learn(table, on, site, out);
    }
}

/// The receive w of the opposite end asks for a message: a waiting one is sent.
#[tactic(auto, unfolding(kernel_step::specs::Rows::wants, kernel_step::specs::Actions::resends_on_news))]
fn serve(table: &mut Table, on: EndId, w: u32, site: Site, out: &mut Work)
    requires here { IsHere (entries table.old on) }
    requires ready { IsReady (entries table.old) on }
    requires room { HasRoom room_of_want out.old }
    ensures part { IfHere (entries table.old on) (λ v. progress (entries table.new) out.new
        ≡ wants table.old.kernel w site.at site.hops v (progress (entries table.old) out.old)) }
    ensures within { StaysWithin room_of_want table.old table.new out.old out.new }
{
    let kernel = table.kernel();
    let living = table.here(on);
    let mut value = living.value();
    let inward = living.inward();
    let news = learn_value(&mut value, site);
    let informed = value;
    value.want = w;
    match_waiting(table, on, value, out);
    resend_on_news(out, kernel, news, informed, inward);
}

/// The rule of taken: the send n is completed, where it is matched.
pub fn finished(table: &mut Table, to: EndId, n: u32, at: u8, hops: u32, out: &mut Work)
    requires room { HasRoom room_of_taken out.old }
    ensures part { progress (entries table.new) out.new
        ≡ taken_row table.old.kernel n at hops (awaits n (entries table.old to)) (progress (entries table.old) out.old) }
    ensures within { StaysWithin room_of_taken table.old table.new out.old out.new }
{
    if let Some(_) = sender(table, to, n) {
        complete(table, to, n, Site { at, hops }, out);
    }
}

/// The matched send of an end that is here is completed and reported.
#[tactic(auto, unfolding(kernel_step::specs::Rows::completes, kernel_step::specs::Actions::resends_on_news))]
fn complete(table: &mut Table, on: EndId, n: u32, site: Site, out: &mut Work)
    requires here { IsHere (entries table.old on) }
    requires room { HasRoom room_of_taken out.old }
    ensures part { IfHere (entries table.old on) (λ v. progress (entries table.new) out.new
        ≡ completes table.old.kernel n site.at site.hops v (progress (entries table.old) out.old)) }
    ensures within { StaysWithin room_of_taken table.old table.new out.old out.new }
{
    let kernel = table.kernel();
    let living = table.here(on);
    let mut value = living.value();
    let holder = living.holder();
    let inward = living.inward();
    push_step(out, ServiceStep::Complete { on, n });
    report(out, holder, send_report(on, Outcome::Done, no_ends()));
    let news = learn_value(&mut value, site);
    resend_on_news(out, kernel, news, value, inward);
    keep_sending(table, on, value, Sending::Unreported);
}

/// The rule of unwant: the receive w of the opposite end is withdrawn, unless it was matched.
pub fn unwant(table: &mut Table, to: EndId, w: u32, at: u8, hops: u32, out: &mut Work)
    requires room { HasRoom room_of_want out.old }
    ensures part { progress (entries table.new) out.new
        ≡ unwant_row table.old.kernel to w at hops (entries table.old to) (progress (entries table.old) out.old) }
    ensures within { StaysWithin room_of_want table.old table.new out.old out.new }
{
    match table.lend(to) {
        Lent::Here(_) => withdraw(table, to, w, Site { at, hops }, out),
        Lent::Left { to: there, .. } => push_packet(out, there, What::Unwant { to, w, at, hops }),
        Lent::Nothing | Lent::Destroyed(_) => {}
    }
}

/// The receive w of the opposite end is withdrawn at an end that is here.
#[tactic(auto, unfolding(kernel_step::specs::Rows::unwant_here))]
fn withdraw(table: &mut Table, on: EndId, w: u32, site: Site, out: &mut Work)
    requires here { IsHere (entries table.old on) }
    requires room { HasRoom room_of_want out.old }
    ensures part { IfHere (entries table.old on) (λ v. progress (entries table.new) out.new
        ≡ unwant_here table.old.kernel w site.at site.hops v (progress (entries table.old) out.old)) }
    ensures within { StaysWithin room_of_want table.old table.new out.old out.new }
{
    let value = table.here(on).value();
    if value.dead {
        return;
    }
    if value.served < w {
        void(table, on, w, site, out);
    } else {
        learn(table, on, site, out);
    }
}

/// The receive w of the opposite end is withdrawn: the opposite end is told.
#[tactic(auto, unfolding(kernel_step::specs::Rows::voids, kernel_step::specs::Actions::resends_on_news))]
fn void(table: &mut Table, on: EndId, w: u32, site: Site, out: &mut Work)
    requires here { IsHere (entries table.old on) }
    requires room { HasRoom room_of_want out.old }
    ensures part { IfHere (entries table.old on) (λ v. progress (entries table.new) out.new
        ≡ voids table.old.kernel w site.at site.hops v (progress (entries table.old) out.old)) }
    ensures within { StaysWithin room_of_want table.old table.new out.old out.new }
{
    let kernel = table.kernel();
    let living = table.here(on);
    let mut value = living.value();
    let inward = living.inward();
    let asking = on.opposite();
    push_step(out, ServiceStep::Withdraw { on: asking });
    let unwanted = What::Unwanted {
        to: asking,
        w,
        at: kernel,
        hops: value.hops,
    };
    push_packet(out, site.at, unwanted);
    let news = learn_value(&mut value, site);
    resend_on_news(out, kernel, news, value, inward);
    value.served = w;
    value.want = 0;
    keep_inward(table, on, value, inward);
}
