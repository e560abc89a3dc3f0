//! Lines of steps that no process makes.
ghost use Rattle.charlotte_text.specs.Reading.{Puts};
ghost use Rattle.history_text.specs.Forms.{match_of, complete_of, withdraw_of, free_of, take_of, notice_of, back_of};

use crate::draft::Draft;
use crate::meaning::Act;
use crate::stage::Scope;
use crate::words::Words;
use charlotte_calls::ServiceStep;
use charlotte_text::Fault;

impl Draft {
    #[tactic(auto, unfolding(crate::specs::Forms::match_of))]
    pub(crate) fn match_line(&self, words: Words<'_>, act: &mut Act) -> Result<(), Fault>
        ensures { Puts result act.new (match_of self.now words.entry) }
    {
        let (on, n) = self.end_number(words)?;
        act.owner = None;
        act.step = ServiceStep::Match { on, n };
        Ok(())
    }

    #[tactic(auto, unfolding(crate::specs::Forms::complete_of))]
    pub(crate) fn complete(&self, words: Words<'_>, act: &mut Act) -> Result<(), Fault>
        ensures { Puts result act.new (complete_of self.now words.entry) }
    {
        let (on, n) = self.end_number(words)?;
        act.owner = None;
        act.step = ServiceStep::Complete { on, n };
        Ok(())
    }

    #[tactic(auto, unfolding(crate::specs::Forms::withdraw_of))]
    pub(crate) fn withdraw(&self, words: Words<'_>, act: &mut Act) -> Result<(), Fault>
        ensures { Puts result act.new (withdraw_of self.now words.entry) }
    {
        let on = self.only_end(Scope::Step, words)?;
        act.owner = None;
        act.step = ServiceStep::Withdraw { on };
        Ok(())
    }

    #[tactic(auto, unfolding(crate::specs::Forms::free_of))]
    pub(crate) fn free(&self, words: Words<'_>, act: &mut Act) -> Result<(), Fault>
        ensures { Puts result act.new (free_of self.now words.entry) }
    {
        let on = self.only_end(Scope::Step, words)?;
        act.owner = None;
        act.step = ServiceStep::Free { on };
        Ok(())
    }

    #[tactic(auto, unfolding(crate::specs::Forms::take_of))]
    pub(crate) fn take(&self, mut words: Words<'_>, act: &mut Act) -> Result<(), Fault>
        ensures { Puts result act.new (take_of self.now words.entry) }
    {
        let on = self.end(Scope::Step, &mut words)?;
        let n = words.number()?;
        words.this(b"by")?;
        let name = words.next()?;
        let p = self.process(name)?;
        let late = words.suffix(b"late")?;
        act.owner = None;
        act.step = ServiceStep::Take { on, n, p, late };
        Ok(())
    }

    #[tactic(auto, unfolding(crate::specs::Forms::notice_of))]
    pub(crate) fn notice(&self, mut words: Words<'_>, act: &mut Act) -> Result<(), Fault>
        ensures { Puts result act.new (notice_of self.now words.entry) }
    {
        let on = self.end(Scope::Step, &mut words)?;
        let dead = words.suffix(b"dead")?;
        act.owner = None;
        act.step = ServiceStep::Notice { on, dead };
        Ok(())
    }

    #[tactic(auto, unfolding(crate::specs::Forms::back_of))]
    pub(crate) fn back(&self, mut words: Words<'_>, act: &mut Act) -> Result<(), Fault>
        ensures { Puts result act.new (back_of self.now words.entry) }
    {
        let on = self.end(Scope::Step, &mut words)?;
        let n = words.number()?;
        let dead = words.suffix(b"dead")?;
        act.owner = None;
        act.step = ServiceStep::Back { on, n, dead };
        Ok(())
    }
}
