//! What the steps do with the ends: each writer makes of them what its word makes of them.
ghost use Rattle.std.specs.Prelude.{◌≡◌, IsTrue};
ghost use Rattle.service_step.specs.Ends.{carried_by, is_made, matched_message, puts, places, destroys, destroys_owned, destroys_each, starts_send, turns_inward, turns_outward, idles, withdraws_send, matches, matched_outward, takes, notices, returns, to_owner};
ghost use Rattle.service_step.specs.declared.state.Outward.TheVariants.{Unreported};
ghost use Rattle.service_step.specs.declared.state.Place.TheVariants.{Owned};
ghost use Rattle.service_links.specs.Kept.{outward_of};
ghost use Rattle.service_links.specs.Links.{ends_of};

use crate::kept::{Change, Stage};
use crate::{Letter, Links};
use charlotte_calls::{EndId, Pid, Way};
use service_step::{Inward, Place};

impl Links {
    /// An end comes to a place.
    #[inline(always)]
    fn place(&mut self, at: Place, e: EndId)
        requires { IsTrue (is_made at) }
        ensures { ends_of self.new ≡ puts e (record (ends_of self.old e) { place = at }) (ends_of self.old) }
    {
        self.change(e, Change::Comes(at));
    }

    /// These ends come to a place, in their order.
    #[tactic(auto, unfolding(service_step::specs::Ends::places))]
    fn place_each(&mut self, at: Place, ends: &[EndId])
        requires { IsTrue (is_made at) }
        ensures { ends_of self.new ≡ places at ends.now (ends_of self.old) }
    {
        if let [first, others @ ..] = ends {
            self.place(at, *first);
            self.place_each(at, others);
        }
    }

    /// An end is destroyed. A Waiting message is dropped, and each end that it carries is destroyed.
    #[tactic(auto, unfolding(service_step::specs::Ends::destroys))]
    pub fn destroy(&mut self, e: EndId)
        ensures { ends_of self.new ≡ destroys e (ends_of self.old) }
    {
        let carried = self.look(e).waiting_ends();
        self.change(e, Change::Dies);
        self.place_each(Place::Destroyed, carried.as_slice());
    }

    /// An end is destroyed where a process owns it.
    #[tactic(auto, unfolding(service_step::specs::Ends::destroys_owned))]
    fn destroy_owned(&mut self, p: Pid, e: EndId)
        ensures { ends_of self.new ≡ destroys_owned p e (ends_of self.old) }
    {
        if self.look(e).is_owned_by(p) {
            self.destroy(e);
        }
    }

    /// Each of these ends that a process owns is destroyed, in their order.
    #[tactic(auto, using(crate::proofs::Changed::destroys_each_more), unfolding(service_step::specs::Ends::destroys_each))]
    pub fn destroy_each(&mut self, p: Pid, mine: &[EndId])
        ensures { ends_of self.new ≡ destroys_each p mine.now (ends_of self.old) }
    {
        for e in mine {
            self.destroy_owned(p, *e);
        }
    }

    /// A send is started: its message waits, and the ends that it carries, which are given besides, are in it.
    #[tactic(auto, unfolding(service_step::specs::Ends::starts_send))]
    #[inline(always)]
    pub fn start_send(&mut self, e: EndId, n: u32, letter: Letter, carried: &[EndId])
        requires { letter.carried ≡ carried.now }
        ensures { ends_of self.new ≡ starts_send e n letter (ends_of self.old) }
    {
        self.change(e, Change::Starts(n, letter));
        self.place_each(Place::InMessage(e, n), carried);
    }

    /// The receive of an end comes so far.
    #[inline(always)]
    #[tactic(auto, unfolding(service_step::specs::Ends::turns_inward))]
    pub fn turn_inward(&mut self, to: Inward, e: EndId)
        ensures { ends_of self.new ≡ turns_inward to e (ends_of self.old) }
    {
        self.change(e, Change::Receives(to));
    }

    /// The send of an end comes so far.
    #[inline(always)]
    #[tactic(auto, unfolding(service_step::specs::Ends::turns_outward))]
    fn turn_outward(&mut self, to: Stage, e: EndId)
        ensures { ends_of self.new ≡ turns_outward (outward_of to) e (ends_of self.old) }
    {
        self.change(e, Change::Sends(to));
    }

    /// The send of an end is over.
    #[inline(always)]
    pub fn finish_send(&mut self, e: EndId)
        ensures { ends_of self.new ≡ turns_outward Unreported e (ends_of self.old) }
    {
        self.turn_outward(Stage::Unreported, e);
    }

    /// The send of an end is matched.
    #[inline(always)]
    #[tactic(auto, unfolding(service_step::specs::Ends::turns_outward))]
    fn match_outward(&mut self, e: EndId)
        ensures { ends_of self.new ≡ turns_outward (matched_outward (ends_of self.old e).outward) e (ends_of self.old) }
    {
        self.change(e, Change::Matches);
    }

    /// The activity of a way is idle again.
    #[inline(always)]
    #[tactic(auto, unfolding(service_step::specs::Ends::idles))]
    pub fn idle(&mut self, way: Way, e: EndId)
        ensures { ends_of self.new ≡ idles way e (ends_of self.old) }
    {
        match way {
            Way::Outward => self.turn_outward(Stage::Idle, e),
            Way::Inward => self.turn_inward(Inward::Idle, e),
        }
    }

    /// A send that waits never happened: each end that its message carries is the process's again.
    #[tactic(auto, unfolding(service_step::specs::Ends::withdraws_send))]
    pub fn withdraw_send(&mut self, p: Pid, e: EndId)
        ensures { ends_of self.new ≡ withdraws_send p e (ends_of self.old) }
    {
        let carried = self.look(e).waiting_ends();
        self.turn_outward(Stage::Idle, e);
        self.place_each(Place::Owned(p), carried.as_slice());
    }

    /// The send of an end and the receive of its opposite come together.
    #[inline(always)]
    #[tactic(auto, unfolding(service_step::specs::Ends::matches))]
    pub fn match_send(&mut self, e: EndId, n: u32)
        ensures { ends_of self.new ≡ matches e n (ends_of self.old) }
    {
        self.match_outward(e);
        self.turn_inward(Inward::Matched(n), e.opposite());
    }

    /// A Matched message is taken at the opposite end, and given: each end that it carries is the process's.
    #[inline(always)]
    #[tactic(auto, unfolding(service_step::specs::Ends::takes))]
    pub fn take_message(&mut self, e: EndId, p: Pid) -> Option<Letter>
        ensures ends { ends_of self.new ≡ takes e p (ends_of self.old) }
        ensures message { result ≡ matched_message (ends_of self.old e).outward }
    {
        let letter = self.take_letter(e);
        self.turn_inward(Inward::Unreported, e.opposite());
        self.place_carried(p, &letter);
        letter
    }

    /// Each end that a message carries, where there is one, is the process's.
    #[inline(always)]
    fn place_carried(&mut self, p: Pid, letter: &Option<Letter>)
        ensures { ends_of self.new ≡ places (Owned p) (carried_by letter.now) (ends_of self.old) }
    {
        match letter {
            Some(letter) => self.place_each(Place::Owned(p), letter.enclosed()),
            None => self.place_each(Place::Owned(p), &[]),
        }
    }

    /// These ends go to an owner, where there is one.
    fn to_owner(&mut self, to: Option<Pid>, ends: &[EndId])
        ensures { ends_of self.new ≡ to_owner to ends.now (ends_of self.old) }
    {
        if let Some(p) = to {
            self.place_each(Place::Owned(p), ends);
        }
    }

    /// The death of its link is noticed at an end.
    #[tactic(auto, unfolding(service_step::specs::Ends::notices))]
    pub fn notice(&mut self, e: EndId)
        ensures { ends_of self.new ≡ notices e (ends_of self.old) }
    {
        let end = self.look(e);
        let to = end.owner();
        let carried = end.waiting_ends();
        self.change(e, Change::Notices);
        self.to_owner(to, carried.as_slice());
    }

    /// A Matched message comes back.
    #[tactic(auto, unfolding(service_step::specs::Ends::returns))]
    pub fn return_message(&mut self, e: EndId)
        ensures { ends_of self.new ≡ returns e (ends_of self.old) }
    {
        let end = self.look(e);
        let carried = end.matched_ends();
        if end.place().is_destroyed() {
            self.turn_outward(Stage::Idle, e);
            self.place_each(Place::Destroyed, carried.as_slice());
            return;
        }
        let to = end.owner();
        self.change(e, Change::Returns);
        self.to_owner(to, carried.as_slice());
    }
}
