ghost use Rattle.std.specs.Prelude.{◌≡◌, ◌<◌, OnOk, OnErr, length, option_copied, unwrap_or};
ghost use Rattle.charlotte_calls.specs.declared.names.Side.TheVariants.{A, B};
ghost use Rattle.service_step.specs.Ends.{matched_message, put, puts, fresh, turns_outward, unmade};
ghost use Rattle.service_step.specs.declared.state.Outward.TheVariants.{Taken};
ghost use Rattle.service_step.specs.declared.state.Place.TheVariants.{Owned};
ghost use Rattle.service_links.specs.Kept.{KeepsMade, after, where_made};
ghost use Rattle.service_links.specs.Links.{end_on, ends_of, link_at, row_of, turns_kept};
ghost use Rattle.service_links.specs.declared.kept.Change.TheVariants.{Sends};
ghost use Rattle.service_links.specs.declared.kept.Stage.TheVariants as Stage;

use crate::kept::{Change, KeptEnd};
use crate::letter::Letter;
use crate::row::Row;
use charlotte_calls::{EndId, LinkId, NoMemory, Pid};
use service_step::Place;
use std::alloc::Global;
use std::marker::Model;

/// The ends of all links. Contracts see what each end is. A look-up goes by the maker and the number of the link.
#[derive(Drop)]
pub struct Links {
    /// By maker.
    rows: Vec<Row>,
    /// What is lent for an end of no made link.
    no_end: KeptEnd,
}

impl Model for Links {
    ghost use Rattle.std.specs.Prelude.{◌≡◌, List};
    ghost use Rattle.service_step.specs.declared.state.End.{End};
    ghost use Rattle.service_step.specs.Ends.{unmade};

    ghost Value = { List (List (End × End)) };

    ghost view = { λ t. t.rows.items };

    ghost invariant = { λ t. t.no_end ≡ unmade };
}

impl Links {
    /// No link is made.
    pub fn empty(alloc: Global) -> Links
        ensures { ends_of result ≡ λ _. unmade }
    {
        Links {
            rows: Vec::new(alloc),
            no_end: KeptEnd::fresh(Place::Unmade),
        }
    }

    /// What an end is, lent. An end of no made link is `Unmade`, and idle.
    #[inline(always)]
    pub fn look(&self, e: EndId) -> &KeptEnd
        ensures { result.now ≡ ends_of self.now e }
    {
        match self.find(e) {
            Some(end) => end,
            None => &self.no_end,
        }
    }

    /// The end that is kept, lent.
    #[inline(always)]
    #[tactic(auto, unfolding(crate::specs::Links::ends_of))]
    fn find(&self, e: EndId) -> Option<&KeptEnd>
        ensures { unwrap_or (option_copied result) unmade ≡ ends_of self.now e }
    {
        match self.rows.get(usize::from(e.link.maker)) {
            Some(row) => row.look(e.link.count, e.side),
            None => None,
        }
    }

    /// A change happens to an end, where its link was made.
    #[inline(always)]
    #[tactic(auto, using(crate::proofs::Changed::ends_of_puts))]
    pub(crate) fn change(&mut self, e: EndId, change: Change)
        requires { KeepsMade change }
        ensures { ends_of self.new ≡ puts e (after change (ends_of self.old e)) (ends_of self.old) }
    {
        self.change_kept(e, change);
    }

    /// The Matched message of an end is taken, where there is one.
    #[inline(always)]
    #[tactic(auto, using(crate::proofs::Changed::ends_of_puts), unfolding(service_step::specs::Ends::turns_outward))]
    pub(crate) fn take_letter(&mut self, e: EndId) -> Option<Letter>
        ensures end { ends_of self.new ≡ turns_outward Taken e (ends_of self.old) }
        ensures letter { result ≡ matched_message (ends_of self.old e).outward }
    {
        self.take_kept(e)
    }

    #[inline(always)]
    fn change_kept(&mut self, e: EndId, change: Change)
        requires { KeepsMade change }
        ensures { self.new ≡ turns_kept e (where_made (after change)) self.old }
    {
        match self.rows.get_mut(usize::from(e.link.maker)) {
            Some(row) => row.change(e.link.count, e.side, change),
            None => lets_go(change),
        }
    }

    #[inline(always)]
    fn take_kept(&mut self, e: EndId) -> Option<Letter>
        ensures end { self.new ≡ turns_kept e (where_made (after (Sends Stage.Taken))) self.old }
        ensures letter { result ≡ matched_message (end_on e.side (link_at (row_of self.old e.link.maker) e.link.count)).outward }
    {
        match self.rows.get_mut(usize::from(e.link.maker)) {
            Some(row) => row.take_letter(e.link.count, e.side),
            None => None,
        }
    }

    /// A link is made, whose ends are owned by these processes. After want of memory no link was made.
    pub fn add(&mut self, link: LinkId, owners: (Pid, Pid)) -> Result<(), NoMemory>
        ensures ok { OnOk result (ends_of self.new ≡ put (put (ends_of self.old) (record { link = link; side = A }) (fresh (Owned owners.0))) (record { link = link; side = B }) (fresh (Owned owners.1))) }
        ensures err { OnErr result (ends_of self.new ≡ ends_of self.old) }
    {
        let maker = usize::from(link.maker);
        self.reach(maker)?;
        self.rows[maker].add(link.count, owners)?;
        Ok(())
    }

    /// There is a row of this maker. After want of memory there may be one too.
    fn reach(&mut self, maker: usize) -> Result<(), NoMemory>
        ensures same { ends_of self.new ≡ ends_of self.old }
        ensures there { OnOk result (maker < length self.new) }
    {
        let alloc = *self.rows.allocator();
        while self.rows.len() <= maker {
            self.rows.push(Row::empty(alloc))?;
        }
        Ok(())
    }
}

/// Nothing happens.
#[inline(always)]
fn lets_go(_change: Change) {}
