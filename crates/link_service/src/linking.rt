//! A new link.
ghost use Rattle.std.specs.Prelude.{◌≡◌, ◌+◌, ◌<◌, IsTrue, Some, OnOk, OnErr, length, slice_get, slice_set};
ghost use Rattle.service_processes.specs.Known.{known_of};
ghost use Rattle.service_processes.specs.Processes.{HasProcess};
ghost use Rattle.charlotte_calls.specs.Causes.{link_limit};
ghost use Rattle.charlotte_calls.specs.declared.names.Side.TheVariants.{A, B};
ghost use Rattle.service_step.specs.Ends.{put, fresh};
ghost use Rattle.service_step.specs.declared.state.Place.TheVariants.{Owned};
ghost use Rattle.link_service.specs.Service.{state_of, adds_link};

use crate::service::Service;
use charlotte_calls::{EndId, LinkId, NoMemory, Pid, Side};

impl Service {
    /// A kernel makes its next link, whose ends are these processes'.
    pub(crate) fn add_link(&mut self, link: LinkId, owners: (Pid, Pid)) -> Result<(), NoMemory>
        requires first { HasProcess self.old.processes owners.0 }
        requires second { HasProcess self.old.processes owners.1 }
        requires next { slice_get self.old.made link.maker ≡ Some link.count }
        requires room { link.count < link_limit }
        ensures ok { OnOk result (state_of self.new ≡ adds_link link owners (state_of self.old)) }
        ensures err { OnErr result (state_of self.new ≡ state_of self.old) }
        ensures count { length self.new.processes ≡ length self.old.processes }
    {
        let a = EndId {
            link,
            side: Side::A,
        };
        self.hold_both((a, owners.0), (a.opposite(), owners.1))?;
        self.add_ends(link, owners)?;
        self.count_link(link);
        Ok(())
    }

    /// Each of two ends is noted to be a process's.
    #[tactic(auto, unfolding(crate::specs::Service::state_of))]
    fn hold_both(&mut self, a: (EndId, Pid), b: (EndId, Pid)) -> Result<(), NoMemory>
        requires first { HasProcess self.old.processes a.1 }
        requires second { HasProcess self.old.processes b.1 }
        ensures same { state_of self.new ≡ state_of self.old }
        ensures made { self.new.made ≡ self.old.made }
        ensures count { length self.new.processes ≡ length self.old.processes }
        ensures first { OnOk result (IsTrue ((known_of self.new.processes).held a.1.0 a.0)) }
        ensures second { OnOk result (IsTrue ((known_of self.new.processes).held b.1.0 b.0)) }
    {
        self.processes.hold(a.1, a.0)?;
        self.processes.hold(b.1, b.0)?;
        Ok(())
    }

    /// The ends of a link are the processes' that are known to have them.
    #[tactic(auto, unfolding(crate::specs::Service::state_of))]
    fn add_ends(&mut self, link: LinkId, owners: (Pid, Pid)) -> Result<(), NoMemory>
        requires first { IsTrue ((known_of self.old.processes).held owners.0.0 (record { link = link; side = A })) }
        requires second { IsTrue ((known_of self.old.processes).held owners.1.0 (record { link = link; side = B })) }
        ensures ok { OnOk result (state_of self.new ≡ record (state_of self.old) { ends = put (put (state_of self.old).ends (record { link = link; side = A }) (fresh (Owned owners.0))) (record { link = link; side = B }) (fresh (Owned owners.1)) }) }
        ensures err { OnErr result (state_of self.new ≡ state_of self.old) }
        ensures made { self.new.made ≡ self.old.made }
        ensures processes { self.new.processes ≡ self.old.processes }
    {
        self.links.add(link, owners)?;
        Ok(())
    }

    /// The maker of a link has made one more.
    #[tactic(auto, unfolding(crate::specs::Service::state_of))]
    fn count_link(&mut self, link: LinkId)
        requires next { slice_get self.old.made link.maker ≡ Some link.count }
        requires room { link.count < link_limit }
        ensures counted { state_of self.new ≡ record (state_of self.old) { made = slice_set (state_of self.old).made link.maker (link.count + 1) } }
        ensures processes { self.new.processes ≡ self.old.processes }
    {
        self.made[usize::from(link.maker)] = link.count + 1;
    }
}
