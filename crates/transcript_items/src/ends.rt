//! How is written what is kept of an end.
ghost use Rattle.std.specs.Prelude.{◌≡◌, ◌++◌, OnOk};
ghost use Rattle.end_table.specs.Lent.{lent_entry};
ghost use Rattle.end_table.specs.Message.{outward_of};
ghost use Rattle.transcript_items.specs.Texts.{fields_text, held_text, here_text, holder_text, inward_text, outward_text, place_text};

use crate::texts::fill;
use charlotte_calls::NoMemory;
use charlotte_packets::MovingPicture;
use charlotte_text::push_end;
use end_table::{Holder, Inward, Lent, Living, Sending};
use service_step::Place;

/// Appends what a kernel keeps of an end, behind the name of the end.
pub(crate) fn push_held(out: &mut Vec<u8>, kernel: u8, entry: Lent) -> Result<(), NoMemory>
    ensures { OnOk result (out.new.items ≡ out.old.items ++ held_text kernel (lent_entry entry.entry)) }
{
    let number = u64::from(kernel);
    match entry {
        Lent::Nothing => fill(out, b" at k# no entry", &[number]),
        Lent::Here(living) => {
            fill(out, b" at k# here", &[number])?;
            push_here(out, living)
        }
        Lent::Left { to, .. } => fill(out, b" at k# left to k#", &[number, u64::from(to)]),
        Lent::Destroyed(mark) => {
            fill(out, b" at k# destroyed", &[number])?;
            push_fields(out, &mark.picture())
        }
    }
}

/// Appends an end that is here.
fn push_here(out: &mut Vec<u8>, living: &Living) -> Result<(), NoMemory>
    ensures { OnOk result (out.new.items ≡ out.old.items ++ here_text living.now) }
{
    push_holder(out, living.holder())?;
    push_outward(out, living.outward())?;
    push_inward(out, living.inward())?;
    push_fields(out, &living.value())
}

fn push_holder(out: &mut Vec<u8>, holder: Holder) -> Result<(), NoMemory>
    ensures { OnOk result (out.new.items ≡ out.old.items ++ holder_text holder) }
{
    match holder {
        Holder::Owner(p) => fill(out, b", owner p#", &[u64::from(p.0)]),
        Holder::EnclosedIn(end) => {
            out.extend_from_slice(b", in a message of ")?;
            push_end(out, end)
        }
    }
}

fn push_outward(out: &mut Vec<u8>, outward: &Sending) -> Result<(), NoMemory>
    ensures { OnOk result (out.new.items ≡ out.old.items ++ outward_text (outward_of outward.now)) }
{
    match outward {
        Sending::Idle => push_word(out, b", out idle"),
        Sending::Waiting { n, .. } => fill(out, b", out waiting #", &[u64::from(*n)]),
        Sending::Matched { n } => fill(out, b", out matched #", &[u64::from(*n)]),
        Sending::Unreported => push_word(out, b", out unreported"),
    }
}

fn push_inward(out: &mut Vec<u8>, inward: Inward) -> Result<(), NoMemory>
    ensures { OnOk result (out.new.items ≡ out.old.items ++ inward_text inward) }
{
    match inward {
        Inward::Idle => push_word(out, b", in idle"),
        Inward::Posted { w } => fill(out, b", in posted #", &[u64::from(w)]),
        Inward::Withdrawing { w } => fill(out, b", in withdrawing #", &[u64::from(w)]),
        Inward::Unreported => push_word(out, b", in unreported"),
    }
}

/// Appends the numbers of the value of an end that service steps come of: not where its opposite is, nor where it has been.
fn push_fields(out: &mut Vec<u8>, value: &MovingPicture) -> Result<(), NoMemory>
    ensures { OnOk result (out.new.items ≡ out.old.items ++ fields_text value.now) }
{
    let numbers = [
        u64::from(value.sent),
        u64::from(value.asked),
        u64::from(value.served),
        u64::from(value.want),
        u64::from(value.dead),
    ];
    fill(
        out,
        b", sent #, asked #, served #, want #, dead #",
        &numbers,
    )
}

/// Appends where an end is in the link service, behind the name of the end.
pub(crate) fn push_place(out: &mut Vec<u8>, place: Place) -> Result<(), NoMemory>
    ensures { OnOk result (out.new.items ≡ out.old.items ++ place_text place) }
{
    match place {
        Place::Owned(p) => fill(out, b" in the service: owned by p#", &[u64::from(p.0)]),
        Place::InMessage(on, n) => {
            fill(out, b" in the service: in message # of ", &[u64::from(n)])?;
            push_end(out, on)
        }
        Place::Destroyed => push_word(out, b" in the service: destroyed"),
        Place::Unmade => push_word(out, b" in the service: not made"),
    }
}

/// Appends a word.
fn push_word(out: &mut Vec<u8>, word: &[u8]) -> Result<(), NoMemory>
    ensures { OnOk result (out.new.items ≡ out.old.items ++ word.now) }
{
    out.extend_from_slice(word)?;
    Ok(())
}
