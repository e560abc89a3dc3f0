//! Reports: how an activity was over.
ghost use Rattle.charlotte_text.specs.Reading.{Puts};
ghost use Rattle.charlotte_calls.specs.declared.names.Outcome.TheVariants.{Done, Destroyed};
ghost use Rattle.charlotte_calls.specs.declared.names.Way.TheVariants.{Inward, Outward};
ghost use Rattle.history_text.specs.Forms.{bare_of, result_of, report_of};

use crate::draft::Draft;
use crate::meaning::Act;
use crate::stage::Scope;
use crate::words::Words;
use charlotte_calls::{Bytes, EndId, Ends, Outcome, Pid, Report, ServiceStep, Way};
use charlotte_text::Fault;

/// An activity that is over, and whose it was.
#[derive(Clone, Copy)]
struct Over {
    p: Pid,
    on: EndId,
    way: Way,
    outcome: Outcome,
}

impl Draft {
    /// All words that are left, a report.
    #[tactic(auto, unfolding(crate::specs::Forms::report_of))]
    pub(crate) fn report(&self, p: Pid, mut words: Words<'_>, act: &mut Act) -> Result<(), Fault>
        ensures { Puts result act.new (report_of self.now p words.entry) }
    {
        let on = self.end(Scope::Step, &mut words)?;
        let way = words.way()?;
        let outcome = words.outcome()?;
        let over = Over {
            p,
            on,
            way,
            outcome,
        };
        self.result(over, words, act)
    }

    #[tactic(auto, unfolding(crate::specs::Forms::result_of))]
    fn result(&self, over: Over, words: Words<'_>, act: &mut Act) -> Result<(), Fault>
        ensures { Puts result act.new (result_of self.now over.p over.on over.way over.outcome words.entry) }
    {
        match (over.way, over.outcome) {
            (Way::Outward, Outcome::Destroyed) => self.returned(over.p, over.on, words, act),
            (Way::Inward, Outcome::Done) => self.received(over.p, over.on, words, act),
            (Way::Outward, Outcome::Done) | (Way::Inward, Outcome::Destroyed) => bare(
                over, words, act,
            ),
        }
    }

    /// A send that was destroyed, with the ends that came back.
    #[tactic(auto, unfolding(crate::specs::Forms::result_of))]
    fn returned(&self, p: Pid, on: EndId, words: Words<'_>, act: &mut Act) -> Result<(), Fault>
        ensures { Puts result act.new (result_of self.now p on Outward Destroyed words.entry) }
    {
        let enclosed = self.ends(Scope::Step, words)?;
        let bytes = Bytes::from_slice(&[]).ok_or(Fault::Long)?;
        act.owner = None;
        act.step = ServiceStep::Report {
            p,
            report: Report {
                on,
                way: Way::Outward,
                outcome: Outcome::Destroyed,
                bytes,
                enclosed,
            },
        };
        Ok(())
    }

    /// A receive, with what was received.
    #[tactic(auto, unfolding(crate::specs::Forms::result_of, crate::specs::Forms::content_of))]
    fn received(&self, p: Pid, on: EndId, mut words: Words<'_>, act: &mut Act) -> Result<(), Fault>
        ensures { Puts result act.new (result_of self.now p on Inward Done words.entry) }
    {
        let bytes = words.text()?;
        let enclosed = self.ends(Scope::Step, words)?;
        act.owner = None;
        act.step = ServiceStep::Report {
            p,
            report: Report {
                on,
                way: Way::Inward,
                outcome: Outcome::Done,
                bytes,
                enclosed,
            },
        };
        Ok(())
    }
}

/// A send or a receive of which the line shows no more.
fn bare(over: Over, words: Words<'_>, act: &mut Act) -> Result<(), Fault>
    ensures { Puts result act.new (bare_of over.p over.on over.way over.outcome words.entry) }
{
    words.finish()?;
    let bytes = Bytes::from_slice(&[]).ok_or(Fault::Long)?;
    let enclosed = Ends::from_slice(&[]).ok_or(Fault::Form)?;
    act.owner = None;
    act.step = ServiceStep::Report {
        p: over.p,
        report: Report {
            on: over.on,
            way: over.way,
            outcome: over.outcome,
            bytes,
            enclosed,
        },
    };
    Ok(())
}
