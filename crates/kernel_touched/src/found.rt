ghost use Rattle.std.specs.Prelude.{◌≡◌, ◌<◌, true, false, length, map, IfSome};
ghost use Rattle.charlotte_packets.specs.Packets.{what_picture};
ghost use Rattle.charlotte_calls.specs.declared.names.EndId.{EndId};
ghost use Rattle.charlotte_calls.specs.declared.names.Pid.{Pid};
ghost use Rattle.end_table.specs.Owned.{owned};
ghost use Rattle.end_table.specs.Table.{entries};
ghost use Rattle.end_table.specs.declared.entry.Entry.{Entry};
ghost use Rattle.kernel_process.specs.Active.{Tells};
ghost use Rattle.kernel_process.specs.Closing.{HavePlace};
ghost use Rattle.kernel_process.specs.Parts.{process_state};
ghost use Rattle.kernel_sound.specs.Owners.{owner_of, IsCalmBut};
ghost use Rattle.kernel_sound.specs.Sound.{addressee};
ghost use Rattle.kernel_step.specs.Calls.{is_active};
ghost use Rattle.kernel_touched.specs.Found.{IsFound, is_silent};

use charlotte_calls::{EndId, Pid};
use charlotte_packets::What;
use end_table::{Lent, Table};
use kernel_process::{Processes, owner_in, refresh_owner};

/// The end that a packet is addressed to, as its event finds it.
#[derive(Clone, Copy)]
pub struct Found {
    pub end: EndId,
    /// Whether the packet may change activities and give reports: it is not silent, and the end is here.
    pub heard: bool,
    /// The process that owns the end, where the packet is heard.
    pub owner: Option<Pid>,
}

/// How the event of a packet finds the end that the packet is addressed to. Where the packet is silent it is not looked up.
#[inline(always)]
pub fn find(table: &Table, what: &What) -> Found
    ensures { IsFound (entries table.now) what.now result }
{
    let end = addressee(what);
    if is_silent(what) {
        return Found {
            end,
            heard: false,
            owner: None,
        };
    }
    match table.lend(end) {
        Lent::Here(living) => Found {
            end,
            heard: true,
            owner: owner_in(living.holder()),
        },
        Lent::Nothing | Lent::Left { .. } | Lent::Destroyed(_) => Found {
            end,
            heard: false,
            owner: None,
        },
    }
}

/// Whether a packet of this kind changes no activity, and gives no report.
fn is_silent(what: &What) -> bool
    ensures { result ≡ is_silent (what_picture what.now) }
{
    match what {
        What::Want { .. } | What::Unwant { .. } => true,
        What::Moved { .. } | What::Known { .. } => true,
        What::Forget { .. } | What::GoneSeen { .. } => true,
        What::Unwanted { .. } | What::Parcel { .. } | What::Taken { .. } => false,
        What::Back { .. } | What::Gone { .. } => false,
    }
}

/// The sets of active ends tell again of the end that heard a packet, with the process that owned it; of no other end has an event of
/// a packet changed the activities.
#[inline(always)]
pub fn refresh_if_heard(
    table: &Table,
    processes: &mut Processes,
    heard: bool,
    before: Option<Pid>,
    end: EndId,
)
    requires before { heard ≡ true → IfSome before (λ p. p.0 < length processes.old) }
    requires after { IfSome (owner_of (entries table.now end)) (λ p. p.0 < length processes.old) }
    requires place { heard ≡ true → HavePlace processes.old }
    ensures told { (t : EndId → Entry) → (heard ≡ true → before ≡ owner_of (t end)) → Tells t processes.old → IsCalmBut end t (entries table.now)
        → (heard ≡ false → (p : Pid) (e : EndId) → is_active (owned p (entries table.now e)) ≡ is_active (owned p (t e))) → Tells (entries table.now) processes.new }
    ensures kept { map process_state processes.new ≡ map process_state processes.old }
    ensures length { length processes.new ≡ length processes.old }
{
    if heard {
        refresh_owner(table, processes, before, end);
    }
}

/// The end that a packet is addressed to.
fn addressee(what: &What) -> EndId
    ensures { result ≡ addressee (what_picture what.now) }
{
    match what {
        What::Want { to, .. }
        | What::Unwant { to, .. }
        | What::Unwanted { to, .. }
        | What::Parcel { to, .. }
        | What::Taken { to, .. }
        | What::Back { to, .. }
        | What::Gone { to, .. }
        | What::Moved { to, .. }
        | What::Known { to, .. }
        | What::Forget { to, .. }
        | What::GoneSeen { to } => *to,
    }
}
