//! Lines that say which process acted.
ghost use Rattle.std.specs.Prelude.{◌≡◌};
ghost use Rattle.charlotte_text.specs.Reading.{Puts};
ghost use Rattle.history_text.specs.Forms.{makes, make_of, refuse_of, destroy_of, receive_of, cancel_of, send_of, wait_of, exit_of, act_of, deed_of, process_line_of};
ghost use Rattle.history_text.specs.Lines.{Tells};

use crate::draft::Draft;
use crate::ends::before_last;
use crate::meaning::{Act, Meaning};
use crate::name::Name;
use crate::stage::Scope;
use crate::words::{Words, is_this};
use charlotte_calls::{EndId, LinkId, Pid, ServiceStep, Side};
use charlotte_text::Fault;

/// Puts the step by which a process makes a link.
fn put_make(p: Pid, link: LinkId, act: &mut Act)
    ensures { act.new ≡ makes p link }
{
    let a = EndId {
        link,
        side: Side::A,
    };
    act.owner = None;
    act.step = ServiceStep::Make {
        p,
        a,
        b: a.opposite(),
    };
}

#[tactic(auto, unfolding(crate::specs::Forms::wait_of))]
fn wait(p: Pid, words: Words<'_>, act: &mut Act) -> Result<(), Fault>
    ensures { Puts result act.new (wait_of p words.entry) }
{
    words.finish()?;
    act.owner = None;
    act.step = ServiceStep::Wait { p };
    Ok(())
}

#[tactic(auto, unfolding(crate::specs::Forms::exit_of))]
fn exit(p: Pid, words: Words<'_>, act: &mut Act) -> Result<(), Fault>
    ensures { Puts result act.new (exit_of p words.entry) }
{
    words.finish()?;
    act.owner = None;
    act.step = ServiceStep::Exit { p };
    Ok(())
}

impl Draft {
    /// A process and a colon, and what it did.
    #[tactic(auto, unfolding(crate::specs::Forms::process_line_of))]
    pub(crate) fn process_line(
        &self,
        word: &[u8],
        mut words: Words<'_>,
        act: &mut Act,
    ) -> Result<Meaning, Fault>
        ensures { Tells result act.new (process_line_of self.now word.now words.entry) }
    {
        let name = before_last(b':', word)?;
        let p = self.process(name)?;
        let verb = words.next()?;
        self.deed(p, verb, words, act)
    }

    /// What a process did.
    #[tactic(auto, unfolding(crate::specs::Forms::deed_of))]
    fn deed(&self, p: Pid, verb: &[u8], words: Words<'_>, act: &mut Act) -> Result<Meaning, Fault>
        ensures { Tells result act.new (deed_of self.now p verb.now words.entry) }
    {
        if is_this(verb, b"make") {
            let (name, link) = self.make(p, words)?;
            put_make(p, link, act);
            return Ok(Meaning::Make(name, link));
        }
        self.act(p, verb, words, act)?;
        Ok(Meaning::Step)
    }

    #[tactic(auto, unfolding(crate::specs::Forms::act_of))]
    fn act(&self, p: Pid, verb: &[u8], words: Words<'_>, act: &mut Act) -> Result<(), Fault>
        ensures { Puts result act.new (act_of self.now p verb.now words.entry) }
    {
        if is_this(verb, b"send") {
            self.send(p, words, act)
        } else if is_this(verb, b"receive") {
            self.receive(p, words, act)
        } else if is_this(verb, b"wait") {
            wait(p, words, act)
        } else if is_this(verb, b"report") {
            self.report(p, words, act)
        } else if is_this(verb, b"cancel") {
            self.cancel(p, words, act)
        } else if is_this(verb, b"destroy") {
            self.destroy(p, words, act)
        } else if is_this(verb, b"refuse") {
            self.refuse(p, words, act)
        } else if is_this(verb, b"exit") {
            exit(p, words, act)
        } else {
            Err(Fault::Form)
        }
    }

    #[tactic(auto, unfolding(crate::specs::Forms::make_of))]
    fn make(&self, p: Pid, mut words: Words<'_>) -> Result<(Name, LinkId), Fault>
        ensures { result ≡ make_of self.now p words.entry }
    {
        let word = words.next()?;
        let name = self.new_link(word)?;
        words.finish()?;
        match self.next_link(p) {
            Some(link) => Ok((name, link)),
            None => Err(Fault::Form),
        }
    }

    #[tactic(auto, unfolding(crate::specs::Forms::refuse_of))]
    fn refuse(&self, p: Pid, mut words: Words<'_>, act: &mut Act) -> Result<(), Fault>
        ensures { Puts result act.new (refuse_of self.now p words.entry) }
    {
        let cause = words.cause()?;
        let call = self.call(words)?;
        act.owner = None;
        act.step = ServiceStep::Refuse { p, call, cause };
        Ok(())
    }

    #[tactic(auto, unfolding(crate::specs::Forms::destroy_of))]
    fn destroy(&self, p: Pid, words: Words<'_>, act: &mut Act) -> Result<(), Fault>
        ensures { Puts result act.new (destroy_of self.now p words.entry) }
    {
        let on = self.only_end(Scope::Step, words)?;
        act.owner = Some((p, on));
        act.step = ServiceStep::Destroy { on };
        Ok(())
    }

    #[tactic(auto, unfolding(crate::specs::Forms::receive_of))]
    fn receive(&self, p: Pid, words: Words<'_>, act: &mut Act) -> Result<(), Fault>
        ensures { Puts result act.new (receive_of self.now p words.entry) }
    {
        let on = self.only_end(Scope::Step, words)?;
        act.owner = Some((p, on));
        act.step = ServiceStep::Receive { on };
        Ok(())
    }

    #[tactic(auto, unfolding(crate::specs::Forms::cancel_of))]
    fn cancel(&self, p: Pid, words: Words<'_>, act: &mut Act) -> Result<(), Fault>
        ensures { Puts result act.new (cancel_of self.now p words.entry) }
    {
        let (on, way) = self.end_way(Scope::Step, words)?;
        act.owner = Some((p, on));
        act.step = ServiceStep::Cancel { on, way };
        Ok(())
    }

    #[tactic(auto, unfolding(crate::specs::Forms::send_of, crate::specs::Forms::content_of))]
    fn send(&self, p: Pid, mut words: Words<'_>, act: &mut Act) -> Result<(), Fault>
        ensures { Puts result act.new (send_of self.now p words.entry) }
    {
        let on = self.end(Scope::Step, &mut words)?;
        let n = words.number()?;
        let bytes = words.text()?;
        let enclose = self.ends(Scope::Step, words)?;
        act.owner = Some((p, on));
        act.step = ServiceStep::Send {
            on,
            n,
            bytes,
            enclose,
        };
        Ok(())
    }
}
