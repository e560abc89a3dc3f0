ghost use Rattle.std.specs.Prelude.{◌≡◌, ℕ, Bool, None, length};
ghost use Rattle.charlotte_calls.specs.Causes.{first_of as first_cause, send_causes};
ghost use Rattle.charlotte_calls.specs.Names.{opposite};
ghost use Rattle.charlotte_calls.specs.declared.calls.ServiceStep.TheVariants as step;
ghost use Rattle.charlotte_calls.specs.declared.names.EndId.{EndId};
ghost use Rattle.charlotte_packets.specs.declared.work.Work.{Work};
ghost use Rattle.end_table.specs.Owned.{owned};
ghost use Rattle.end_table.specs.Table.{entries, HasPlace, IsHere, IsOfEnd};
ghost use Rattle.end_table.specs.declared.entry.Entry.TheVariants.{Here};
ghost use Rattle.kernel_sound.specs.Acts.{acts, acts_on, withdraws, withdraws_posted, AreOfOne};
ghost use Rattle.kernel_event.specs.Places.{IsPlacedFor};
ghost use Rattle.kernel_event.specs.Room.{room_of_call};
ghost use Rattle.kernel_sound.specs.Sound.{IsSound};
ghost use Rattle.kernel_step.specs.Actions.{ends, here};
ghost use Rattle.kernel_step.specs.Calls.{made_end, makes, posts, withdraws_send, starts_send, encloses, ends_each, ends_here, refusal, sees, IsCallWith};
ghost use Rattle.kernel_step.specs.Enclosed.{AreEnclosed, IsReady};
ghost use Rattle.kernel_step.specs.Progress.{progress, means, HasRoom, StaysWithin};
ghost use Rattle.kernel_step.specs.Room.{and_ends, no_room, one_step, room_of_destroy, room_of_end, room_of_receive, room_of_send};

use cancel_core::{post, start_send, withdraw_receive, withdraw_send};
use charlotte_calls::{Bytes, Call, EndId, Ends, LinkId, Pid, ServiceStep, Way};
use charlotte_packets::{Moving, Work};
use end_table::{Holder, Inward, Lent, Table};
use kernel_step::{first_of, push_step};
use move_core::{enclose, settle};

/// What a call does that is not refused; `mine` are the ends that the caller owns, in order, where it exits.
pub fn act(table: &mut Table, made: u32, p: Pid, mine: &[EndId], call: &Call, out: &mut Work)
    requires sound { (n : ℕ) × IsSound table.old.kernel made n (entries table.old) }
    requires granted { (reported : Bool) × (refusal p (entries table.old) made mine.now reported call.now ≡ None) }
    requires mine { IsCallWith p (entries table.old) mine.now call.now }
    requires placed { IsPlacedFor call.now table.old made }
    requires room { HasRoom (and_ends (length mine.now) (room_of_call call.now)) out.old }
    ensures part { progress (entries table.new) out.new ≡ acts p table.old.kernel made mine.now call.now (progress (entries table.old) out.old) }
    ensures within { StaysWithin (and_ends (length mine.now) (room_of_call call.now)) table.old table.new out.old out.new }
{
    match call {
        Call::Make => make(table, made, p, out),
        Call::Destroy { on } => destroy(table, p, *on, out),
        Call::Send { on, bytes, enclose } => { send(table, p, *on, bytes, enclose, out) }
        Call::Receive { on } => receive(table, p, *on, out),
        Call::Cancel { on, way } => cancel(table, p, *on, *way, out),
        Call::Wait => push_step(out, ServiceStep::Wait { p }),
        Call::Print { .. } => {}
        Call::Exit => exit(table, p, mine, out),
    }
}

/// Make: both ends of a new link are the caller's.
#[tactic(auto, unfolding(kernel_step::specs::Calls::makes))]
fn make(table: &mut Table, made: u32, p: Pid, out: &mut Work)
    requires place { HasPlace table.old (made_end table.old.kernel made) }
    requires opposite { HasPlace table.old (opposite (made_end table.old.kernel made)) }
    requires away { IsHere (entries table.old (made_end table.old.kernel made)) → ⊥ }
    requires opposite_away { IsHere (entries table.old (opposite (made_end table.old.kernel made))) → ⊥ }
    requires room { HasRoom one_step out.old }
    ensures part { progress (entries table.new) out.new ≡ makes table.old.kernel made p (progress (entries table.old) out.old) }
    ensures within { StaysWithin one_step table.old table.new out.old out.new }
{
    let kernel = table.kernel();
    let link = LinkId {
        maker: kernel,
        count: made,
    };
    let (a, b) = Moving::pair(link, kernel, kernel);
    push_step(
        out,
        ServiceStep::Make {
            p,
            a: a.end(),
            b: b.end(),
        },
    );
    settle(table, a, Holder::Owner(p));
    settle(table, b, Holder::Owner(p));
}

/// Destroy: the end is destroyed.
fn destroy(table: &mut Table, p: Pid, on: EndId, out: &mut Work)
    requires ready { IsReady (entries table.old) on }
    requires room { HasRoom room_of_destroy out.old }
    ensures part { progress (entries table.new) out.new
        ≡ acts_on (owned p (entries table.old on)) (λ v so_far. ends table.old.kernel v (means (step.Destroy on) so_far)) (progress (entries table.old) out.old) }
    ensures within { StaysWithin room_of_destroy table.old table.new out.old out.new }
{
    if let Some(_living) = table.owned(p, on) {
        push_step(out, ServiceStep::Destroy { on });
        move_core::destroy(table, on, out);
    }
}

/// Receive: a receive is started.
fn receive(table: &mut Table, p: Pid, on: EndId, out: &mut Work)
    requires room { HasRoom room_of_receive out.old }
    ensures part { progress (entries table.new) out.new
        ≡ acts_on (owned p (entries table.old on)) (posts table.old.kernel) (progress (entries table.old) out.old) }
    ensures within { StaysWithin room_of_receive table.old table.new out.old out.new }
{
    if let Some(_living) = table.owned(p, on) {
        post(table, on, out);
    }
}

/// Cancel: what is started this way is withdrawn.
fn cancel(table: &mut Table, p: Pid, on: EndId, way: Way, out: &mut Work)
    requires ready { IsReady (entries table.old) on }
    requires room { HasRoom room_of_receive out.old }
    ensures part { progress (entries table.new) out.new
        ≡ acts_on (owned p (entries table.old on)) (withdraws table.old.kernel way) (progress (entries table.old) out.old) }
    ensures within { StaysWithin room_of_receive table.old table.new out.old out.new }
{
    match way {
        Way::Outward => cancel_send(table, p, on, out),
        Way::Inward => cancel_receive(table, p, on, out),
    }
}

/// Cancel of a send.
fn cancel_send(table: &mut Table, p: Pid, on: EndId, out: &mut Work)
    requires ready { IsReady (entries table.old) on }
    requires room { HasRoom one_step out.old }
    ensures part { progress (entries table.new) out.new
        ≡ acts_on (owned p (entries table.old on)) withdraws_send (progress (entries table.old) out.old) }
    ensures within { StaysWithin one_step table.old table.new out.old out.new }
{
    if let Some(_living) = table.owned(p, on) {
        withdraw_send(table, on, out);
    }
}

/// Cancel of a receive: where one is posted, it begins to be withdrawn.
fn cancel_receive(table: &mut Table, p: Pid, on: EndId, out: &mut Work)
    requires room { HasRoom room_of_receive out.old }
    ensures part { progress (entries table.new) out.new
        ≡ acts_on (owned p (entries table.old on)) (λ v so_far. withdraws_posted table.old.kernel v v.inward so_far) (progress (entries table.old) out.old) }
    ensures within { StaysWithin room_of_receive table.old table.new out.old out.new }
{
    if let Some(living) = table.owned(p, on) {
        if let Inward::Posted { .. } = living.inward() {
            withdraw_receive(table, on, out);
        }
    }
}

/// Send: the ends that it encloses are held by it, and a send is started.
fn send(table: &mut Table, p: Pid, on: EndId, bytes: &Bytes, enclose: &Ends, out: &mut Work)
    requires own { (e : EndId) → IsOfEnd e (entries table.old e) }
    requires granted { first_cause (send_causes (sees p (entries table.old)) on enclose.now) ≡ None }
    requires room { HasRoom room_of_send out.old }
    ensures part { progress (entries table.new) out.new
        ≡ acts_on (owned p (entries table.old on)) (λ v so_far. starts_send table.old.kernel bytes.now enclose.now v (encloses on enclose.now so_far)) (progress (entries table.old) out.old) }
    ensures within { StaysWithin room_of_send table.old table.new out.old out.new }
{
    if let Some(_living) = table.owned(p, on) {
        enclose_each(table, on, enclose.as_slice(), out);
        let message = bytes.copy();
        let ends = enclose.copy();
        start_send(table, on, message, ends, out);
    }
}

/// Each of these ends is held by the send of another end, in order.
fn enclose_each(table: &mut Table, on: EndId, ends: &[EndId], out: &mut Work)
    requires { AreEnclosed (entries table.old) ends.now }
    ensures part { progress (entries table.new) out.new ≡ encloses on ends.now (progress (entries table.old) out.old) }
    ensures same { out.new ≡ out.old }
    ensures kernel { table.new.kernel ≡ table.old.kernel }
{
    match first_of(ends) {
        None => {}
        Some((first, others)) => {
            enclose(table, first, on, out);
            enclose_each(table, on, others, out);
        }
    }
}

/// Exit: each end of the caller is destroyed.
fn exit(table: &mut Table, p: Pid, mine: &[EndId], out: &mut Work)
    requires ends { AreOfOne table.old.kernel (entries table.old) mine.now }
    requires room { HasRoom (and_ends (length mine.now) one_step) out.old }
    ensures part { progress (entries table.new) out.new
        ≡ ends_each table.old.kernel mine.now (means (step.Exit p) (progress (entries table.old) out.old)) }
    ensures within { StaysWithin (and_ends (length mine.now) one_step) table.old table.new out.old out.new }
{
    push_step(out, ServiceStep::Exit { p });
    destroy_each(table, mine, out);
}

/// END of each of these ends, in order.
fn destroy_each(table: &mut Table, ends: &[EndId], out: &mut Work)
    requires ends { AreOfOne table.old.kernel (entries table.old) ends.now }
    requires room { HasRoom (and_ends (length ends.now) no_room) out.old }
    ensures part { progress (entries table.new) out.new
        ≡ ends_each table.old.kernel ends.now (progress (entries table.old) out.old) }
    ensures within { StaysWithin (and_ends (length ends.now) no_room) table.old table.new out.old out.new }
{
    let mut left = ends;
    while let Some((first, others)) = first_of(left) {
        destroy_here(table, first, out);
        left = others;
    }
}

/// END of an end that may be here.
fn destroy_here(table: &mut Table, on: EndId, out: &mut Work)
    requires ready { IsReady (entries table.old) on }
    requires room { HasRoom room_of_end out.old }
    ensures part { progress (entries table.new) out.new
        ≡ ends_here table.old.kernel (here (entries table.old on)) (progress (entries table.old) out.old) }
    ensures within { StaysWithin room_of_end table.old table.new out.old out.new }
{
    if let Lent::Here(_) = table.lend(on) {
        move_core::destroy(table, on, out);
    }
}
