//! Rows of calls on one end, and the ends of a process.

use crate::acts::{Act, perform, settle, told};
use crate::samples::{END, OWNER, end_a, end_b, holds};
use charlotte_calls::{LinkId, Pid};
use end_table::{Entry, Table};
use std::alloc::Global;
use std::test::Fail;

/// A call, whether it answers true, and what is told of the end behind it.
type Row = (Act, bool, &'static str);

/// Nothing, then a place, here, left and home again; then it is left once more, and retired up to its hops.
const COMES_AND_GOES: &[Row] = &[
    (Act::Reserve, true, "nothing"),
    (
        Act::Install(OWNER),
        true,
        "Owner(Pid(1)) Idle Idle ((3, 0), 0, 0, 0)",
    ),
    (
        Act::Travel(3, Pid(5)),
        true,
        "Owner(Pid(5)) Idle Idle ((3, 0), 1, 2, 0)",
    ),
    (Act::Leave(4), true, "left to 4, hops 2"),
    (Act::Retire(1), false, "left to 4, hops 2"),
    (Act::Retire(2), true, "nothing"),
];

/// A destroyed end keeps its mark until it is erased, and a dead one leaves nothing.
const IS_DESTROYED: &[Row] = &[
    (
        Act::Install(OWNER),
        true,
        "Owner(Pid(1)) Idle Idle ((3, 0), 0, 0, 0)",
    ),
    (Act::End, false, "destroyed, hint (3, 0)"),
    (Act::HintMark(5, 2), true, "destroyed, hint (5, 2)"),
    (Act::Erase, true, "nothing"),
    (
        Act::Install(OWNER),
        true,
        "Owner(Pid(1)) Idle Idle ((3, 0), 0, 0, 0)",
    ),
    (
        Act::SetDead,
        true,
        "Owner(Pid(1)) Idle Unreported ((3, 0), 0, 0, 0)",
    ),
    (Act::End, true, "nothing"),
    (Act::Release, true, "nothing"),
];

/// What is set is lent, and a hint is taken where it is news.
const IS_SET: &[Row] = &[
    (
        Act::Install(OWNER),
        true,
        "Owner(Pid(1)) Idle Idle ((3, 0), 0, 0, 0)",
    ),
    (
        Act::Hint(6, 2),
        true,
        "Owner(Pid(1)) Idle Idle ((6, 2), 0, 0, 0)",
    ),
    (
        Act::Hint(7, 2),
        false,
        "Owner(Pid(1)) Idle Idle ((6, 2), 0, 0, 0)",
    ),
    (
        Act::SetInward(1),
        true,
        "Owner(Pid(1)) Idle Posted { w: 1 } ((6, 2), 0, 0, 1)",
    ),
    (
        Act::SetHolder(Pid(9)),
        true,
        "Owner(Pid(9)) Idle Posted { w: 1 } ((6, 2), 0, 0, 1)",
    ),
    (
        Act::Change(3),
        true,
        "Owner(Pid(1)) Matched { n: 3 } Idle ((6, 2), 0, 0, 1)",
    ),
    (
        Act::Wait(4),
        true,
        "Owner(Pid(1)) Waiting { n: 4, bytes: Short { items: [4, 0, 0, 0] }, enclosed: Short { items: [] } } Idle ((6, 2), 0, 0, 1)",
    ),
    (
        Act::Wait(5),
        true,
        "Owner(Pid(1)) Waiting { n: 5, bytes: Short { items: [5, 0, 0, 0] }, enclosed: Short { items: [] } } Idle ((6, 2), 0, 0, 1)",
    ),
    (
        Act::Change(6),
        true,
        "Owner(Pid(1)) Matched { n: 6 } Idle ((6, 2), 0, 0, 1)",
    ),
    (
        Act::Wait(7),
        true,
        "Owner(Pid(1)) Waiting { n: 7, bytes: Short { items: [7, 0, 0, 0] }, enclosed: Short { items: [] } } Idle ((6, 2), 0, 0, 1)",
    ),
];

/// Makes the call of a row. Whether it is answered so, and what is told behind it is this.
fn gives(alloc: Global, table: &mut Table, (act, answer, want): Row) -> bool {
    let Some(answered) = perform(table, act) else {
        return false;
    };
    let Ok(text) = told(alloc, table) else {
        return false;
    };
    answered == answer && text.as_str() == want
}

/// Makes the calls of these rows in order.
fn performed(alloc: Global, rows: &[Row]) -> Result<(), Fail> {
    let mut table = Table::start(alloc, 1);
    for row in rows {
        holds(gives(alloc, &mut table, *row), row.2)?;
    }
    Ok(())
}

#[test]
fn each_call_on_an_end(rt: HostRuntime) -> Result<(), Fail> {
    performed(rt.alloc(), COMES_AND_GOES)?;
    performed(rt.alloc(), IS_DESTROYED)?;
    performed(rt.alloc(), IS_SET)
}

/// The end is its owner's, and the table's entry shows this too.
fn is_owned(table: &Table) -> bool {
    let shown = match table.look(END) {
        Entry::Here(view) => view.value.end == END,
        _ => false,
    };
    shown && table.owned(OWNER, END).is_some() && table.owned(Pid(2), END).is_none()
}

#[test]
fn an_end_is_its_owners(rt: HostRuntime) -> Result<(), Fail> {
    let mut table = Table::start(rt.alloc(), 1);
    let is_settled = settle(&mut table, end_a(END.link), OWNER);
    holds(
        is_settled && table.kernel() == 1 && is_owned(&table),
        "an end that is owned",
    )
}

/// The ends of process 1 below, in order, as they are printed for debugging.
const IN_ORDER: &str = "[\
    EndId { link: LinkId { maker: 1, count: 9 }, side: B }, \
    EndId { link: LinkId { maker: 2, count: 1 }, side: B }, \
    EndId { link: LinkId { maker: 2, count: 7 }, side: A }, \
    EndId { link: LinkId { maker: 2, count: 7 }, side: B }]";

/// Ends b of links, and who owns them.
const SETTLED: &[(u8, u32, Pid)] = &[(2, 7, OWNER), (2, 3, Pid(5)), (1, 9, OWNER), (2, 1, OWNER)];

/// Settles these ends, and end a of a link. Whether each could be.
fn settle_each(table: &mut Table) -> bool {
    for (maker, count, p) in SETTLED {
        if !settle(table, end_b(*maker, *count), *p) {
            return false;
        }
    }
    settle(table, end_a(LinkId { maker: 2, count: 7 }), OWNER)
}

/// Whether the ends of process 1 are printed so.
fn owns(alloc: Global, table: &Table, want: &str) -> bool {
    let Ok(ends) = table.owned_by(OWNER) else {
        return false;
    };
    let Ok(text) = format!(in alloc; "{:?}", ends.as_slice()) else {
        return false;
    };
    text.as_str() == want
}

#[test]
fn the_ends_of_a_process_are_in_order(rt: HostRuntime) -> Result<(), Fail> {
    let mut table = Table::start(rt.alloc(), 1);
    let are_settled = settle_each(&mut table);
    holds(are_settled && owns(rt.alloc(), &table, IN_ORDER), IN_ORDER)
}
