//! What a process does with the actions of its threads.

ghost use Rattle.std.specs.Prelude.{◌≡◌, ◌==◌, ◌||◌, suc, [], Ok, IfOk, OnOk, option_map, slice_get};
ghost use Rattle.std.specs.List.{list_any};
ghost use Rattle.charlotte_calls.specs.EndEq.{same_link};
ghost use Rattle.machine_values.specs.Told.{values_of};
ghost use Rattle.machine_thread.specs.Told.{action_of};
ghost use Rattle.lynx_meaning.specs.Courses.{Bind, Destroy, Unbind};
ghost use Rattle.lynx_meaning.specs.Courses as actions;
ghost use Rattle.lynx_meaning.specs.Needs.{types_of};
ghost use Rattle.lynx_meaning.specs.Values.{Link};
ghost use Rattle.end_protocol.specs.Asking.{accepts_too, binds, connected, unbinds};
ghost use Rattle.process_run.specs.Actions.{acts, asking, link_fault, served};
ghost use Rattle.process_run.specs.Ends.{ends_at, held_at, lets_go, links_in};
ghost use Rattle.process_sound.specs.Machine.{Fits};
ghost use Rattle.lynx_rt.specs.Changes.{busy_so, changes, dead_fault, fault_on, named, op_of};
ghost use Rattle.lynx_rt.specs.Kept.{IsProcess};
ghost use Rattle.lynx_rt.specs.May.{MayAct, MayBlock, MayDestroyIt};

use crate::process::Running;
use charlotte_calls::{EndId, Items, NoMemory};
use end_protocol::{Accept, Binding, Connect};
use lynx_interp::{Action, LinkRef, Value};
use lynx_tree::TypeName;
use process_ends::{links_in, pack};
use typing_rules::Exception;

impl Running {
    /// A thread asks for this, which is no call itself.
    pub(crate) fn act(&mut self, thread: u8, action: Action) -> Result<(), NoMemory>
        requires process { IsProcess self.old }
        requires may { MayAct thread (action_of action) self.old }
        ensures acted { OnOk result (self.new ≡ (acts thread (action_of action) self.old).state) }
        ensures process { OnOk result (IsProcess self.new) }
    {
        match action {
            Action::Destroy(LinkRef(number)) => self.destroy_for(thread, number),
            Action::Bind(LinkRef(number), entry) => self.bind(thread, number, entry),
            Action::Unbind(LinkRef(number), entry) => self.unbind(thread, number, entry),
            Action::Connect(LinkRef(number), op, values) => self.connect(
                thread, number, op, &values,
            ),
            Action::Accept(LinkRef(number), op) => self.accept(thread, number, op),
            Action::Reply(values) => self.reply(thread, &values),
            Action::Close => self.close(thread),
            Action::StopAll => {
                self.over = true;
                Ok(())
            }
            Action::New | Action::Write(_) => self.does(thread),
        }
    }

    /// A thread destroys the end.
    fn destroy_for(&mut self, thread: u8, number: u32) -> Result<(), NoMemory>
        requires process { IsProcess self.old }
        requires may { MayDestroyIt thread number self.old }
        ensures acted { OnOk result (self.new ≡ (acts thread (Destroy (Link number)) self.old).state) }
        ensures process { OnOk result (IsProcess self.new) }
    {
        let Some(_) = self.held_end(number) else {
            return self.raise(thread, Exception::NoLink);
        };
        self.destroy(number)?;
        self.does(thread)
    }

    /// What is raised where the end is not held, or is dead.
    pub(crate) fn dead_fault(&self, number: u32) -> Option<Exception>
        ensures { result ≡ dead_fault (held_at number self.now) }
    {
        match self.places.kept(number) {
            None => Some(Exception::NoLink),
            Some(kept) if kept.dead => Some(Exception::DeadLink),
            Some(_) => None,
        }
    }

    /// The signature of the operation that an entry serves.
    fn served(&self, entry: u16) -> Result<Option<Items<u8>>, NoMemory>
        ensures { IfOk result (λ found. found ≡ served self.now.code entry) }
    {
        match self.served_op(entry) {
            Some(op) => self.signature(op),
            None => Ok(None),
        }
    }

    /// The operation that an entry serves, by its number.
    fn served_op(&self, entry: u16) -> Option<u32>
        ensures { result ≡ op_of (slice_get self.now.code.parts (suc entry)) }
    {
        match self.machine.code().parts.get(usize::from(entry) + 1) {
            Some(part) => part.op,
            None => None,
        }
    }

    /// The signature of an operation.
    fn signature(&self, op: u32) -> Result<Option<Items<u8>>, NoMemory>
        ensures { IfOk result (λ found. found ≡ slice_get self.now.code.signatures op) }
    {
        let Some(op) = self.machine.code().ops.get(op as usize) else {
            return Ok(None);
        };
        Ok(Some(Items::of(Vec::from_slice(self.alloc, &op.signature)?)))
    }

    /// The types of the results of an operation.
    fn results(&self, op: u32) -> Result<Items<TypeName>, NoMemory>
        ensures { IfOk result (λ types. types ≡ types_of (λ o. o.results) (slice_get self.now.code.types.ops op)) }
    {
        let results = match self.machine.code().ops.get(op as usize) {
            Some(op) => Vec::from_slice(self.alloc, &op.results)?,
            None => Vec::new(self.alloc),
        };
        Ok(Items::of(results))
    }

    fn bind(&mut self, thread: u8, number: u32, entry: u16) -> Result<(), NoMemory>
        requires process { IsProcess self.old }
        requires fits { Fits thread (Ok []) self.old }
        ensures acted { OnOk result (self.new ≡ (acts thread (Bind (Link number) entry) self.old).state) }
        ensures process { OnOk result (IsProcess self.new) }
    {
        let Some(signature) = self.served(entry)? else {
            return self.does(thread);
        };
        if let Some(exception) = self.dead_fault(number) {
            return self.raise(thread, exception);
        }
        self.bind_on(number, Binding { entry, signature })?;
        self.does(thread)
    }

    /// An entry is bound to the end, if it is held.
    fn bind_on(&mut self, number: u32, binding: Binding) -> Result<(), NoMemory>
        ensures { OnOk result (self.new ≡ changes number (binds binding) self.old) }
    {
        let Some(mut kept) = self.take(number) else {
            return Ok(());
        };
        kept.bind(binding)?;
        self.keep(number, kept)?;
        Ok(())
    }

    fn unbind(&mut self, thread: u8, number: u32, entry: u16) -> Result<(), NoMemory>
        requires process { IsProcess self.old }
        requires fits { Fits thread (Ok []) self.old }
        ensures acted { OnOk result (self.new ≡ (acts thread (Unbind (Link number) entry) self.old).state) }
        ensures process { OnOk result (IsProcess self.new) }
    {
        let Some(_) = self.served(entry)? else {
            return self.does(thread);
        };
        let Some(_) = self.held_end(number) else {
            return self.raise(thread, Exception::NoLink);
        };
        self.unbind_from(number, entry)?;
        self.does(thread)
    }

    /// An entry is bound to the end no longer.
    fn unbind_from(&mut self, number: u32, entry: u16) -> Result<(), NoMemory>
        ensures { OnOk result (self.new ≡ changes number (unbinds entry) self.old) }
    {
        let Some(mut kept) = self.take(number) else {
            return Ok(());
        };
        kept.unbind(entry);
        self.keep(number, kept)?;
        Ok(())
    }

    fn accept(&mut self, thread: u8, number: u32, op: u32) -> Result<(), NoMemory>
        requires process { IsProcess self.old }
        requires may { MayBlock thread op self.old }
        ensures acted { OnOk result (self.new ≡ (acts thread (actions.Accept (Link number) op) self.old).state) }
        ensures process { OnOk result (IsProcess self.new) }
    {
        let Some(signature) = self.signature(op)? else {
            unreachable!();
        };
        if let Some(exception) = self.dead_fault(number) {
            return self.raise(thread, exception);
        }
        self.accept_on(number, Accept { thread, signature })
    }

    /// A thread accepts on the end, if it is held.
    fn accept_on(&mut self, number: u32, accept: Accept) -> Result<(), NoMemory>
        ensures { OnOk result (self.new ≡ changes number (accepts_too accept) self.old) }
    {
        let Some(mut kept) = self.take(number) else {
            return Ok(());
        };
        kept.accept(accept)?;
        self.keep(number, kept)?;
        Ok(())
    }

    fn connect(
        &mut self,
        thread: u8,
        number: u32,
        op: u32,
        values: &[Value],
    ) -> Result<(), NoMemory>
        requires process { IsProcess self.old }
        requires may { MayBlock thread op self.old }
        ensures acted { OnOk result (self.new ≡ (acts thread (actions.Connect (Link number) op (values_of values.now)) self.old).state) }
        ensures process { OnOk result (IsProcess self.new) }
    {
        let Some(signature) = self.signature(op)? else {
            unreachable!();
        };
        if let Some(exception) = self.dead_fault(number) {
            return self.raise(thread, exception);
        }
        let links = links_in(self.alloc, values)?;
        if let Some(exception) = self.link_fault(number, &links) {
            return self.raise(thread, exception);
        }
        let connect = self.request_of(thread, op, signature, values, &links)?;
        self.issue(number, connect)
    }

    /// The request of a connect, with these links among its values, whose ends are held no longer.
    fn request_of(
        &mut self,
        thread: u8,
        op: u32,
        signature: Items<u8>,
        values: &[Value],
        links: &[u32],
    ) -> Result<Connect, NoMemory>
        requires { links.now ≡ links_in (values_of values.now) }
        ensures made { IfOk result (λ c. c ≡ asking thread op signature (values_of values.now) self.old) }
        ensures gone { OnOk result (self.new ≡ lets_go (links_in (values_of values.now)) self.old) }
    {
        Ok(Connect {
            thread,
            number: 0,
            signature,
            values: pack(self.alloc, values)?,
            results: self.results(op)?,
            ends: self.send_away(links)?,
        })
    }

    /// A request is issued on the end, if it is held.
    fn issue(&mut self, number: u32, connect: Connect) -> Result<(), NoMemory>
        ensures { OnOk result (self.new ≡ changes number (connected self.old.version connect) self.old) }
    {
        let (alloc, version) = (self.alloc, self.version);
        let Some(mut kept) = self.take(number) else {
            return Ok(());
        };
        kept.connect(alloc, version, connect)?;
        self.keep(number, kept)?;
        Ok(())
    }

    /// The end of a number, if the process holds it.
    pub(crate) fn held_end(&self, number: u32) -> Option<EndId>
        ensures { result ≡ option_map (λ h. h.end) (held_at number self.now) }
    {
        if self.places.kept(number).is_none() {
            return None;
        }
        self.places.end(number)
    }

    /// The ends of these numbers that the process holds.
    fn ends_of(&self, links: &[u32]) -> Result<Items<EndId>, NoMemory>
        ensures { IfOk result (λ ends. ends ≡ ends_at links.now self.now) }
    {
        let mut ends = Vec::with_capacity(self.alloc, links.len())?;
        for number in links {
            if let Some(end) = self.held_end(*number) {
                ends.push(end)?;
            }
        }
        Ok(Items::of(ends))
    }

    /// The ends of these numbers, which are held no longer.
    pub(crate) fn send_away(&mut self, links: &[u32]) -> Result<Items<EndId>, NoMemory>
        ensures ends { IfOk result (λ ends. ends ≡ ends_at links.now self.old) }
        ensures gone { OnOk result (self.new ≡ lets_go links.now self.old) }
    {
        let ends = self.ends_of(links)?;
        self.places.let_go_all(links);
        Ok(ends)
    }

    /// What is raised for the first of these links that may not go in a message on the end.
    pub(crate) fn link_fault(&self, on: u32, links: &[u32]) -> Option<Exception>
        ensures { result ≡ fault_on (held_at on self.now) links.now self.now }
    {
        let Some(end) = self.held_end(on) else {
            return None;
        };
        for place in 0..links.len() {
            if let Some(exception) = self.fault_of(end, &links[..place], links[place]) {
                return Some(exception);
            }
        }
        None
    }

    /// What is raised for a link that may not go on the end, behind these.
    fn fault_of(&self, on: EndId, before: &[u32], number: u32) -> Option<Exception>
        ensures { result ≡ link_fault (named on) before.now (held_at number self.now) }
    {
        let Some(end) = self.held_end(number) else {
            return Some(Exception::NoLink);
        };
        if self.is_kept_back(on, before, number, end) {
            return Some(Exception::BusyLink);
        }
        None
    }

    /// Whether the end of this number may not go on the other one, behind these.
    fn is_kept_back(&self, on: EndId, before: &[u32], number: u32, end: EndId) -> bool
        ensures { result ≡ (list_any (λ n. n == number) before.now || same_link end on || busy_so (held_at number self.now)) }
    {
        names(before, number) || is_same_link(end, on) || self.is_busy(number)
    }

    fn is_busy(&self, number: u32) -> bool
        ensures { result ≡ busy_so (held_at number self.now) }
    {
        match self.places.kept(number) {
            Some(kept) => kept.is_busy(),
            None => false,
        }
    }
}

fn names(links: &[u32], number: u32) -> bool
    ensures { result ≡ list_any (λ n. n == number) links.now }
{
    links.iter().any(|link| *link == number)
}

fn is_same_link(a: EndId, b: EndId) -> bool
    ensures { result ≡ same_link a b }
{
    a.link.maker == b.link.maker && a.link.count == b.link.count
}
