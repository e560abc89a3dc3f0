ghost use Rattle.std.specs.Prelude.{◌≡◌, [], ◌∷◌, None, MatchOption};
ghost use Rattle.charlotte_calls.specs.declared.names.EndId.{EndId};
ghost use Rattle.charlotte_packets.specs.declared.work.Work.{Work};
ghost use Rattle.end_table.specs.Entries.{is_news, learned};
ghost use Rattle.end_table.specs.Message.{message_of, outward_of};
ghost use Rattle.end_table.specs.Table.{entries, KeepsOthers, Puts, IfHere, IsHere, IsHereAnd, IsIdle};
ghost use Rattle.end_table.specs.declared.entry.Entry.TheVariants.{Here};
ghost use Rattle.end_table.specs.declared.entry.Outward.TheVariants.{Waiting};
ghost use Rattle.kernel_step.specs.Actions.{here, held, leaves_here, value_leaving};
ghost use Rattle.kernel_step.specs.Progress.{progress, keeps};

use crate::site::Site;
use charlotte_calls::{Bytes, EndId, Ends};
use charlotte_packets::{Moving, MovingPicture};
use end_table::{Holder, Inward, Sending, Table};

/// Keeps other fields and another receive of an end that is here.
#[inline(always)]
pub fn keep_inward(table: &mut Table, on: EndId, value: MovingPicture, inward: Inward)
    requires here { IsHere (entries table.old on) }
    requires same_end { value.end ≡ on }
    ensures part { IfHere (entries table.old on) (λ v. (out : Work) → progress (entries table.new) out
        ≡ keeps on (Here (record v { value = value; inward = inward })) (progress (entries table.old) out)) }
    ensures puts { IfHere (entries table.old on) (λ v. Puts table.old table.new on (Here (record v { value = value; inward = inward }))) }
    ensures kept { KeepsOthers table.old table.new on }
{
    table.set_inward(on, value, inward);
}

/// Keeps other fields of an end that is here, and another send, which does not wait.
#[inline(always)]
pub fn keep_sending(table: &mut Table, on: EndId, value: MovingPicture, sending: Sending)
    requires here { IsHere (entries table.old on) }
    requires same_end { value.end ≡ on }
    requires no_message { message_of (outward_of sending) ≡ None }
    ensures part { IfHere (entries table.old on) (λ v. (out : Work) → progress (entries table.new) out
        ≡ keeps on (Here (record v { value = value; outward = outward_of sending })) (progress (entries table.old) out)) }
    ensures puts { IfHere (entries table.old on) (λ v. Puts table.old table.new on (Here (record v { value = value; outward = outward_of sending }))) }
    ensures kept { KeepsOthers table.old table.new on }
{
    table.set_sending(on, value, sending);
}

/// Keeps other fields of an end that is here, and the send n, which waits with this message.
pub fn keep_waiting(
    table: &mut Table,
    on: EndId,
    value: MovingPicture,
    n: u32,
    bytes: Bytes,
    enclosed: Ends,
)
    requires here { IsHere (entries table.old on) }
    requires same_end { value.end ≡ on }
    ensures part { IfHere (entries table.old on) (λ v. (out : Work) → progress (entries table.new) out
        ≡ keeps on (Here (record v { value = value; outward = Waiting n bytes enclosed })) (progress (entries table.old) out)) }
    ensures kept { KeepsOthers table.old table.new on }
{
    table.wait(on, value, n, bytes, enclosed);
}

/// LEARN: an end learns where its opposite is. It answers whether that was news.
pub fn learn_value(value: &mut MovingPicture, site: Site) -> bool
    ensures learned_value { value.new ≡ learned site.at site.hops value.old }
    ensures news { result ≡ is_news value.old site.hops }
    ensures end { value.new.end ≡ value.old.end }
{
    let news = value.hint.1 < site.hops;
    if news {
        value.hint = (site.at, site.hops);
    }
    news
}

/// LEAVE of an end that is here and idle: its value. A dead end leaves no entry, and its place is given back.
pub fn leave(table: &mut Table, end: EndId, to: u8) -> Moving
    requires idle { IsHereAnd (entries table.old end) IsIdle }
    ensures value { value_leaving table.old.kernel (here (entries table.old end)) ≡ result ∷ [] }
    ensures part { (out : Work) → progress (entries table.new) out
        ≡ leaves_here to (here (entries table.old end)) (progress (entries table.old) out) }
    ensures kept { KeepsOthers table.old table.new end }
{
    let moving = table.take_out(end, to);
    table.release(end);
    moving
}

/// Another holder of an end that is here and idle.
pub fn hold(table: &mut Table, end: EndId, holder: Holder)
    requires idle { IsHereAnd (entries table.old end) IsIdle }
    ensures part { (out : Work) → progress (entries table.new) out
        ≡ held holder (here (entries table.old end)) (progress (entries table.old) out) }
    ensures kept { KeepsOthers table.old table.new end }
{
    table.set_holder(end, holder);
}

/// The first of these items and the others.
pub fn first_of<T: Copy>(items: &[T]) -> Option<(T, &[T])>
    ensures { MatchOption result (items.now ≡ []) (λ p. items.now ≡ p.0 ∷ p.1.now) }
{
    match items {
        [] => None,
        [first, others @ ..] => Some((*first, others)),
    }
}
