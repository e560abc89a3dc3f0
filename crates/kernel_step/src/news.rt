ghost use Rattle.std.specs.Prelude.{◌≡◌, nat_eq, if◌then◌else◌};
ghost use Rattle.charlotte_calls.specs.declared.names.EndId.{EndId};
ghost use Rattle.end_table.specs.Table.{entries, IfHere, IsHere};
ghost use Rattle.end_table.specs.declared.entry.Entry.{Entry};
ghost use Rattle.kernel_step.specs.Actions.{resends, resends_receive, learns, tells_moved};
ghost use Rattle.kernel_step.specs.Progress.{progress, HasRoom, AddsAtMost, StaysWithin};
ghost use Rattle.kernel_step.specs.Room.{one_packet, room_of_news};

use crate::ends::{keep_inward, learn_value};
use crate::site::Site;
use crate::writers::push_packet;
use charlotte_calls::EndId;
use charlotte_packets::{MovingPicture, What, Work};
use end_table::{Inward, Table};

/// Sends the live packet of a receive again.
fn resend_receive(out: &mut Work, kernel: u8, value: MovingPicture, inward: Inward)
    requires { HasRoom one_packet out.old }
    ensures part { (t : EndId → Entry) → progress t out.new ≡ resends_receive kernel value inward (progress t out.old) }
    ensures room { AddsAtMost one_packet out.old out.new }
{
    let to = value.end.opposite();
    let at = kernel;
    let hops = value.hops;
    match inward {
        Inward::Idle | Inward::Unreported => {}
        Inward::Posted { w } => push_packet(out, value.hint.0, What::Want { to, w, at, hops }),
        Inward::Withdrawing { w } => {
            push_packet(out, value.hint.0, What::Unwant { to, w, at, hops })
        }
    }
}

/// Tells the opposite end that the end has moved.
#[tactic(auto, unfolding(crate::specs::Actions::tells_moved))]
pub fn tell_moved(out: &mut Work, kernel: u8, value: MovingPicture)
    requires { HasRoom one_packet out.old }
    ensures part { (t : EndId → Entry) → progress t out.new ≡ tells_moved kernel value (progress t out.old) }
    ensures room { AddsAtMost one_packet out.old out.new }
{
    let moved = What::Moved {
        to: value.end.opposite(),
        at: kernel,
        hops: value.hops,
    };
    push_packet(out, value.hint.0, moved);
}

/// Tells the opposite end so again, where kernels may hold a forwarding entry of the end.
fn resend_moved(out: &mut Work, kernel: u8, value: MovingPicture)
    requires { HasRoom one_packet out.old }
    ensures part { (t : EndId → Entry) → progress t out.new
        ≡ (if nat_eq value.trail 0 then progress t out.old else tells_moved kernel value (progress t out.old)) }
    ensures room { AddsAtMost one_packet out.old out.new }
{
    if value.trail != 0 {
        tell_moved(out, kernel, value);
    }
}

/// Sends the live packets of an end again where the hint rose: `news` tells whether it did.
#[tactic(auto, unfolding(crate::specs::Actions::resends))]
pub fn resend_on_news(out: &mut Work, kernel: u8, news: bool, value: MovingPicture, inward: Inward)
    requires { HasRoom room_of_news out.old }
    ensures part { (t : EndId → Entry) → progress t out.new
        ≡ (if news then resends kernel value inward (progress t out.old) else progress t out.old) }
    ensures room { AddsAtMost room_of_news out.old out.new }
{
    if news {
        resend_receive(out, kernel, value, inward);
        resend_moved(out, kernel, value);
    }
}

/// An end that is here learns where its opposite is, and nothing else happens to it.
#[tactic(auto, unfolding(crate::specs::Actions::learns, crate::specs::Actions::resends_on_news))]
#[inline(always)]
pub fn learn(table: &mut Table, on: EndId, site: Site, out: &mut Work)
    requires here { IsHere (entries table.old on) }
    requires room { HasRoom room_of_news out.old }
    ensures part { IfHere (entries table.old on) (λ v. progress (entries table.new) out.new
        ≡ learns table.old.kernel site.at site.hops v (progress (entries table.old) out.old)) }
    ensures within { StaysWithin room_of_news table.old table.new out.old out.new }
{
    let kernel = table.kernel();
    let living = table.here(on);
    let mut value = living.value();
    let inward = living.inward();
    let news = learn_value(&mut value, site);
    resend_on_news(out, kernel, news, value, inward);
    keep_inward(table, on, value, inward);
}
