//! The links of one maker, by number. One that was not made has two ends that are unmade.
ghost use Rattle.std.specs.Prelude.{◌≡◌, ◌<◌, [], OnOk, OnErr, length, option_copied, unwrap_or};
ghost use Rattle.service_step.specs.Ends.{fresh, matched_message, unmade};
ghost use Rattle.service_step.specs.declared.state.Place.TheVariants.{Owned};
ghost use Rattle.service_links.specs.declared.kept.Change.TheVariants.{Sends};
ghost use Rattle.service_links.specs.declared.kept.Stage.TheVariants.{Taken};
ghost use Rattle.service_links.specs.Kept.{KeepsMade, after, where_made};
ghost use Rattle.service_links.specs.Links.{end_on, turns_end, turns_side, link_at, puts_link, no_link};

use crate::kept::{Change, KeptEnd};
use crate::letter::Letter;
use charlotte_calls::{NoMemory, Pid, Side};
use service_step::Place;
use std::alloc::Global;
use std::marker::Model;

/// Both ends of a link. Contracts see them as a pair.
#[derive(Drop)]
struct Link {
    a: KeptEnd,
    b: KeptEnd,
}

impl Model for Link {
    ghost use Rattle.service_step.specs.declared.state.End.{End};

    ghost Value = { End × End };

    ghost view = { λ l. (l.a, l.b) };
}

impl Link {
    /// A link that was not made.
    fn unmade() -> Link
        ensures { result ≡ no_link }
    {
        Link {
            a: KeptEnd::fresh(Place::Unmade),
            b: KeptEnd::fresh(Place::Unmade),
        }
    }

    /// A new link, whose ends are owned by these processes.
    fn fresh(owners: (Pid, Pid)) -> Link
        ensures { result ≡ (fresh (Owned owners.0), fresh (Owned owners.1)) }
    {
        Link {
            a: KeptEnd::fresh(Place::Owned(owners.0)),
            b: KeptEnd::fresh(Place::Owned(owners.1)),
        }
    }

    /// The end on a side, lent.
    #[inline(always)]
    fn look(&self, side: Side) -> &KeptEnd
        ensures { result.now ≡ end_on side self.now }
    {
        match side {
            Side::A => &self.a,
            Side::B => &self.b,
        }
    }

    /// A change happens to the end on a side.
    #[inline(always)]
    fn change(&mut self, side: Side, change: Change)
        requires { KeepsMade change }
        ensures { self.new ≡ turns_side side (where_made (after change)) self.old }
    {
        match side {
            Side::A => self.a.change(change),
            Side::B => self.b.change(change),
        }
    }

    /// The Matched message of the end on a side is taken.
    #[inline(always)]
    fn take_letter(&mut self, side: Side) -> Option<Letter>
        ensures end { self.new ≡ turns_side side (where_made (after (Sends Taken))) self.old }
        ensures letter { result ≡ matched_message (end_on side self.old).outward }
    {
        match side {
            Side::A => self.a.take_letter(),
            Side::B => self.b.take_letter(),
        }
    }
}

/// The links of one maker. Contracts see the ends of each, by its number.
#[derive(Drop)]
pub(crate) struct Row {
    links: Vec<Link>,
}

impl Model for Row {
    ghost use Rattle.std.specs.Prelude.{List};
    ghost use Rattle.service_step.specs.declared.state.End.{End};

    ghost Value = { List (End × End) };

    ghost view = { λ r. r.links.items };
}

impl Row {
    /// No link is made.
    pub(crate) fn empty(alloc: Global) -> Row
        ensures { result ≡ [] }
    {
        Row {
            links: Vec::new(alloc),
        }
    }

    /// The end on a side of a link, lent, where the row is so long.
    #[inline(always)]
    pub(crate) fn look(&self, number: u32, side: Side) -> Option<&KeptEnd>
        ensures { unwrap_or (option_copied result) unmade ≡ end_on side (link_at self.now number) }
    {
        match self.links.get(number as usize) {
            Some(link) => Some(link.look(side)),
            None => None,
        }
    }

    /// A change happens to the end on a side of a link, where that link was made.
    #[inline(always)]
    pub(crate) fn change(&mut self, number: u32, side: Side, change: Change)
        requires { KeepsMade change }
        ensures { self.new ≡ turns_end number side (where_made (after change)) self.old }
    {
        match self.links.get_mut(number as usize) {
            Some(link) => link.change(side, change),
            None => lets_go(change),
        }
    }

    /// The Matched message of the end on a side of a link is taken, where there is one.
    #[inline(always)]
    pub(crate) fn take_letter(&mut self, number: u32, side: Side) -> Option<Letter>
        ensures end { self.new ≡ turns_end number side (where_made (after (Sends Taken))) self.old }
        ensures letter { result ≡ matched_message (end_on side (link_at self.old number)).outward }
    {
        match self.links.get_mut(number as usize) {
            Some(link) => link.take_letter(side),
            None => None,
        }
    }

    /// A link is made, whose ends are owned by these processes. After want of memory no link was made.
    pub(crate) fn add(&mut self, number: u32, owners: (Pid, Pid)) -> Result<(), NoMemory>
        ensures ok { OnOk result (link_at self.new ≡ puts_link number (fresh (Owned owners.0), fresh (Owned owners.1)) (link_at self.old)) }
        ensures err { OnErr result (link_at self.new ≡ link_at self.old) }
    {
        let index = number as usize;
        self.reach(index)?;
        self.links[index] = Link::fresh(owners);
        Ok(())
    }

    /// The row becomes longer than this, by links that were not made. After want of memory it may be longer too.
    fn reach(&mut self, index: usize) -> Result<(), NoMemory>
        ensures same { link_at self.new ≡ link_at self.old }
        ensures long { OnOk result (index < length self.new) }
    {
        while self.links.len() <= index {
            self.links.push(Link::unmade())?;
        }
        Ok(())
    }
}

/// Nothing happens.
#[inline(always)]
fn lets_go(_change: Change) {}
