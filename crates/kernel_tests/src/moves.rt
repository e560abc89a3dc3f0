//! Each call of `move_core` once. What follows from them is shown by the worked runs of .ci/rows/runs.
ghost use Rattle.std.specs.Prelude.{◌≡◌, true, IfOk, [], ◌∷◌};
ghost use Rattle.charlotte_packets.specs.Moving.{new_end};
ghost use Rattle.end_table.specs.Table.{entries, HasPlace, IsHere};
ghost use Rattle.kernel_tests.specs.declared.samples.TheConstants.{AMPLE};
ghost use Rattle.kernel_step.specs.Enclosed.{IsReady};
ghost use Rattle.kernel_step.specs.Progress.{HasRoom};
ghost use Rattle.kernel_step.specs.Room.{room_of_return};

use crate::samples::{Begin, END, Send, ample, end_a, holds, kept};
use crate::states::{is_idle, is_ready};
use crate::telling::is_told;
use charlotte_calls::{EndId, LinkId, NoMemory, Side};
use charlotte_packets::{Cargo, Work};
use end_table::{Inward, Lent, Table};
use move_core::{
    Route, arrive, destroy, enclose, forget, give_back, gone_seen, known, leave, moved, room, route,
};
use std::alloc::Global;
use std::test::Fail;

const CARRIED: EndId = EndId {
    link: LinkId { maker: 2, count: 1 },
    side: Side::A,
};

/// A call on the end. The carried end comes with the message 4 for the receive 1, or comes back with it.
#[derive(Clone, Copy)]
enum Act {
    Arrive,
    GiveBack,
    Enclose,
    Leave,
    Forget,
    Moved,
    Known,
    Destroy,
    GoneSeen,
}

/// The call, the end that is looked at, what is told of it and of what the call adds, and the way to it.
type Step = (Act, EndId, &'static str, Route);

const IDLE: Begin = (0, Send::Idle, Inward::Idle);

const POSTED: Begin = (0, Send::Idle, Inward::Posted { w: 1 });

const MATCHED: Begin = (0, Send::Matched(4), Inward::Idle);

/// How the end begins, and the calls.
type Row = (Begin, &'static [Step]);

const ROWS: &[Row] = &[
    // The carried end comes with its message, and tells its opposite.
    (
        POSTED,
        &[(
            Act::Arrive,
            CARRIED,
            "Owner(Pid(1)) Idle Idle; to 3: Moved { to: EndId { link: LinkId { maker: 2, count: 1 }, side: B }, at: 0, hops: 0 }; 0 reports, 0 steps",
            Route::Here,
        )],
    ),
    // A message comes back, and its end is the sender's again.
    (
        MATCHED,
        &[(
            Act::GiveBack,
            CARRIED,
            "Owner(Pid(1)) Idle Idle; to 3: Moved { to: EndId { link: LinkId { maker: 2, count: 1 }, side: B }, at: 0, hops: 0 }; 1 reports, 0 steps",
            Route::Here,
        )],
    ),
    // The carried end comes with a message that is not asked for, and goes back with it.
    (
        IDLE,
        &[(
            Act::Arrive,
            CARRIED,
            "left to 3, hops 1; to 3: Back { to: EndId { link: LinkId { maker: 0, count: 7 }, side: B }, n: 4, moving: Short { items: [MovingPicture { end: EndId { link: LinkId { maker: 2, count: 1 }, side: A }, hops: 1, hint: (3, 0), sent: 0, asked: 0, served: 0, want: 0, dead: false, trail: 1 }] } }; 0 reports, 0 steps",
            Route::Forward(3),
        )],
    ),
    // A message comes back that was not sent, and its end is destroyed.
    (
        IDLE,
        &[(
            Act::GiveBack,
            CARRIED,
            "destroyed; to 3: Gone { to: EndId { link: LinkId { maker: 2, count: 1 }, side: B }, at: 0 }; 0 reports, 0 steps",
            Route::Stale,
        )],
    ),
    // An end is enclosed.
    (
        IDLE,
        &[(
            Act::Enclose,
            END,
            "EnclosedIn(EndId { link: LinkId { maker: 2, count: 1 }, side: A }) Idle Idle; 0 reports, 0 steps",
            Route::Here,
        )],
    ),
    // An end leaves, and is forgotten.
    (
        IDLE,
        &[
            (
                Act::Leave,
                END,
                "left to 3, hops 1; 0 reports, 0 steps",
                Route::Forward(3),
            ),
            (
                Act::Forget,
                END,
                "nothing; 0 reports, 0 steps",
                Route::Stale,
            ),
        ],
    ),
    // The opposite end has moved to kernel 2.
    (
        IDLE,
        &[(
            Act::Moved,
            END,
            "Owner(Pid(1)) Idle Idle; to 2: Known { to: EndId { link: LinkId { maker: 0, count: 7 }, side: B }, hops: 1 }; 0 reports, 0 steps",
            Route::Here,
        )],
    ),
    // An end that has not moved hears that its move is known.
    (
        IDLE,
        &[(
            Act::Known,
            END,
            "Owner(Pid(1)) Idle Idle; 0 reports, 0 steps",
            Route::Here,
        )],
    ),
    // An end is destroyed, and this is known.
    (
        IDLE,
        &[
            (
                Act::Destroy,
                END,
                "destroyed; to 3: Gone { to: EndId { link: LinkId { maker: 0, count: 7 }, side: B }, at: 0 }; 0 reports, 0 steps",
                Route::Stale,
            ),
            (
                Act::GoneSeen,
                END,
                "nothing; 0 reports, 0 steps",
                Route::Stale,
            ),
        ],
    ),
];

/// A cargo with the value of the carried end.
fn carried() -> Cargo
    ensures { result ≡ new_end CARRIED 3 ∷ [] }
{
    let mut moving = Cargo::empty();
    moving.add(end_a(CARRIED.link));
    moving
}

/// Whether the carried end has no entry, after it got a place.
fn is_expected(table: &mut Table) -> Result<bool, NoMemory>
    ensures place { IfOk result (λ b. HasPlace table.new CARRIED) }
    ensures away { IfOk result (λ b. b ≡ true → IsHere (entries table.new CARRIED) → ⊥) }
{
    table.reserve(CARRIED)?;
    Ok(matches!(table.lend(CARRIED), Lent::Nothing))
}

/// Makes a call. Whether the end is ready for it.
fn perform(table: &mut Table, act: Act, out: &mut Work) -> bool
    requires { HasRoom AMPLE out.old }
{
    match act {
        Act::Arrive | Act::GiveBack => match is_expected(table) {
            Ok(true) => perform_carried(table, act, out),
            _ => return false,
        },
        Act::Enclose if is_idle(table) => enclose(table, END, CARRIED, out),
        Act::Leave if is_idle(table) => {
            leave(table, END, 3).destroy();
        }
        Act::Forget => forget(table, END, 1, out),
        Act::Moved => moved(table, END, 2, 1, out),
        Act::Known => known(table, END, 0, out),
        Act::Destroy if is_ready(table) => destroy(table, END, out),
        Act::GoneSeen => gone_seen(table, END, out),
        _ => return false,
    }
    true
}

fn perform_carried(table: &mut Table, act: Act, out: &mut Work)
    requires place { HasPlace table.old CARRIED }
    requires away { IsHere (entries table.old CARRIED) → ⊥ }
    requires room { HasRoom room_of_return out.old }
{
    match act {
        Act::Arrive => arrive(table, END, 4, 1, 3, carried(), out),
        _ => give_back(table, END, 4, carried(), out),
    }
}

/// Makes a call. Whether this is told of the end and of what the call adds.
fn performed(alloc: Global, table: &mut Table, (act, end): (Act, EndId), want: &str) -> bool {
    let Ok(mut out) = ample(alloc) else {
        return false;
    };
    perform(table, act, &mut out) && is_told(alloc, table, end, &out, want)
}

fn gives(alloc: Global, table: &mut Table, (act, end, want, way): Step) -> bool {
    performed(alloc, table, (act, end), want) && route(table, end) == way
}

/// Makes the calls of a row in order.
fn row_gives(alloc: Global, (begin, steps): Row) -> Result<(), Fail> {
    let mut table = kept(alloc, begin)?;
    for step in steps {
        holds(gives(alloc, &mut table, *step), step.2)?;
    }
    Ok(())
}

/// The room of an action on an end without a message.
fn room_is_ample(alloc: Global) -> bool {
    let Ok(table) = kept(alloc, IDLE) else {
        return false;
    };
    room(&table, END).packets == 9
}

#[test]
fn each_call_of_move_core(rt: HostRuntime) -> Result<(), Fail> {
    for row in ROWS {
        row_gives(rt.alloc(), *row)?;
    }
    holds(room_is_ample(rt.alloc()), "the room of an action")
}
