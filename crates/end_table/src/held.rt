ghost use Rattle.std.specs.Prelude.{◌≡◌};
ghost use Rattle.end_table.specs.Held.{by_of, receive_of};
ghost use Rattle.end_table.specs.declared.entry.Inward.TheVariants.{Idle};

use crate::{Holder, Inward};
use charlotte_calls::{EndId, LinkId, Pid, Side};
use std::marker::Model;

/// Who holds an end, without a name: a process, or an end of this side.
#[derive(Clone, Copy)]
enum By {
    Owner,
    A,
    B,
}

/// A receive without its number.
#[derive(Clone, Copy)]
enum Receive {
    Idle,
    Posted,
    Withdrawing,
    Unreported,
}

/// Both of these in one byte.
#[derive(Clone, Copy)]
enum State {
    OwnerIdle,
    OwnerPosted,
    OwnerWithdrawing,
    OwnerUnreported,
    AIdle,
    APosted,
    AWithdrawing,
    AUnreported,
    BIdle,
    BPosted,
    BWithdrawing,
    BUnreported,
}

impl State {
    fn of(by: By, receive: Receive) -> State
        ensures by { by_of result ≡ by }
        ensures receive { receive_of result ≡ receive }
    {
        match (by, receive) {
            (By::Owner, Receive::Idle) => State::OwnerIdle,
            (By::Owner, Receive::Posted) => State::OwnerPosted,
            (By::Owner, Receive::Withdrawing) => State::OwnerWithdrawing,
            (By::Owner, Receive::Unreported) => State::OwnerUnreported,
            (By::A, Receive::Idle) => State::AIdle,
            (By::A, Receive::Posted) => State::APosted,
            (By::A, Receive::Withdrawing) => State::AWithdrawing,
            (By::A, Receive::Unreported) => State::AUnreported,
            (By::B, Receive::Idle) => State::BIdle,
            (By::B, Receive::Posted) => State::BPosted,
            (By::B, Receive::Withdrawing) => State::BWithdrawing,
            (By::B, Receive::Unreported) => State::BUnreported,
        }
    }

    #[inline(always)]
    fn by(self) -> By
        ensures { result ≡ by_of self }
    {
        match self {
            State::OwnerIdle
            | State::OwnerPosted
            | State::OwnerWithdrawing
            | State::OwnerUnreported => By::Owner,
            State::AIdle | State::APosted | State::AWithdrawing | State::AUnreported => By::A,
            State::BIdle | State::BPosted | State::BWithdrawing | State::BUnreported => By::B,
        }
    }

    #[inline(always)]
    fn receive(self) -> Receive
        ensures { result ≡ receive_of self }
    {
        match self {
            State::OwnerIdle | State::AIdle | State::BIdle => Receive::Idle,
            State::OwnerPosted | State::APosted | State::BPosted => Receive::Posted,
            State::OwnerWithdrawing | State::AWithdrawing | State::BWithdrawing =>
                Receive::Withdrawing,
            State::OwnerUnreported | State::AUnreported | State::BUnreported => Receive::Unreported,
        }
    }
}

/// Holder and receive of an end, in twelve bytes. Contracts see both.
#[derive(Drop)]
pub(crate) struct Held {
    /// The number of the receive, where it has one.
    w: u32,
    /// Count and maker of the link of the end that holds it, where one does.
    count: u32,
    /// The process that owns it, where one does.
    owner: Pid,
    maker: u8,
    state: State,
}

impl Model for Held {
    ghost use Rattle.end_table.specs.Held.{HeldView, by_of, receive_of, holder_by, inward_by};

    ghost Value = { HeldView };

    ghost view = { λ h. record { holder = holder_by (by_of h.state) h.owner h.maker h.count; inward = inward_by (receive_of h.state) h.w } };
}

impl Held {
    /// With this holder, and an idle receive.
    #[inline(always)]
    pub(crate) fn idle(holder: Holder) -> Held
        ensures holder { result.holder ≡ holder }
        ensures inward { result.inward ≡ Idle }
    {
        let mut held = Held {
            w: 0,
            count: 0,
            owner: Pid(0),
            maker: 0,
            state: State::OwnerIdle,
        };
        held.set_holder(holder);
        held
    }

    /// Who holds the end.
    #[inline(always)]
    pub(crate) fn holder(&self) -> Holder
        ensures { result ≡ self.now.holder }
    {
        let link = LinkId {
            maker: self.maker,
            count: self.count,
        };
        match self.state.by() {
            By::Owner => Holder::Owner(self.owner),
            By::A => Holder::EnclosedIn(EndId {
                link,
                side: Side::A,
            }),
            By::B => Holder::EnclosedIn(EndId {
                link,
                side: Side::B,
            }),
        }
    }

    /// The receive.
    #[inline(always)]
    pub(crate) fn inward(&self) -> Inward
        ensures { result ≡ self.now.inward }
    {
        match self.state.receive() {
            Receive::Idle => Inward::Idle,
            Receive::Posted => Inward::Posted { w: self.w },
            Receive::Withdrawing => Inward::Withdrawing { w: self.w },
            Receive::Unreported => Inward::Unreported,
        }
    }

    /// Sets who holds the end.
    #[inline(always)]
    pub(crate) fn set_holder(&mut self, holder: Holder)
        ensures { self.new ≡ record self.old { holder = holder } }
    {
        let receive = self.state.receive();
        match holder {
            Holder::Owner(owner) => {
                self.owner = owner;
                self.state = State::of(By::Owner, receive);
            }
            Holder::EnclosedIn(EndId { link, side }) => {
                self.maker = link.maker;
                self.count = link.count;
                self.state = match side {
                    Side::A => State::of(By::A, receive),
                    Side::B => State::of(By::B, receive),
                };
            }
        }
    }

    /// Sets the receive.
    #[inline(always)]
    pub(crate) fn set_inward(&mut self, inward: Inward)
        ensures { self.new ≡ record self.old { inward = inward } }
    {
        let by = self.state.by();
        match inward {
            Inward::Idle => self.state = State::of(by, Receive::Idle),
            Inward::Posted { w } => {
                self.w = w;
                self.state = State::of(by, Receive::Posted);
            }
            Inward::Withdrawing { w } => {
                self.w = w;
                self.state = State::of(by, Receive::Withdrawing);
            }
            Inward::Unreported => self.state = State::of(by, Receive::Unreported),
        }
    }
}
