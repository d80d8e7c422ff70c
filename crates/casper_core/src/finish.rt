ghost use Rattle.std.specs.Prelude.{◌≡◌, IsTrue};
ghost use Rattle.casper_words.specs.Count.{FaultCountRose};
ghost use Rattle.casper_space.specs.declared.answer.Answer.TheVariants as said;
ghost use Rattle.casper_model.specs.declared.event.Event.TheVariants as event;
ghost use Rattle.casper_core.specs.Leaving.{Adds, IsLeftBefore};
ghost use Rattle.casper_core.specs.Loading.{OnlyReads, KeepsVault};
ghost use Rattle.casper_core.specs.Shaped.{StepsInShape};
ghost use Rattle.casper_core.specs.Sound.{IsSound};
ghost use Rattle.casper_core.specs.WritingOut.{ended_of};
ghost use Rattle.casper_core.specs.Stepping.{Steps};

use crate::Core;
use crate::answers::{answer_of_finish, answer_of_settled};
use casper_disk::Vault;
use casper_model::Outcome;
use casper_space::Answer;
use casper_trail::Mark;
use casper_words::Who;

impl<V: Vault> Core<V> {
    /// The write-out of a lead, where it is the unfinished one, is finished as it ended. It takes no memory.
    pub(crate) fn finish(&mut self, lead: Who) -> Answer
        ensures step { IsTrue V.tells → Steps (event.Finish lead) result self.old self.new }
        ensures shape { StepsInShape (event.Finish lead) result self.old self.new }
        ensures failed { result ≡ said.Disk
            → FaultCountRose (V.faults self.old.vault) (V.faults self.new.vault) }
        ensures calls { self.new.calls ≡ self.old.calls }
        ensures vault { self.new.vault ≡ self.old.vault }
        ensures reads { OnlyReads V.tells V.size V.image V.version V.room V.doubt V.images_now
            V.moment V.images_since V.faults V.leads_to self.old.vault self.new.vault }
        ensures sound { IsSound self.new }
    {
        let _mark: Option<Mark> = None;
        let Some(outcome) = self.ended(lead) else {
            return Answer::NoJob;
        };
        let done = self.hub.finish(lead, outcome);
        self.unfinished = None;
        answer_of_finish(done)
    }

    /// A write-out in doubt is settled by the vault, and its association is stable. It takes no memory.
    pub(crate) fn settle(&mut self) -> Answer
        ensures step { IsTrue V.tells → Steps event.Settle result self.old self.new }
        ensures shape { StepsInShape event.Settle result self.old self.new }
        ensures failed { result ≡ said.Disk
            → FaultCountRose (V.faults self.old.vault) (V.faults self.new.vault) }
        ensures calls { self.new.calls ≡ self.old.calls }
        ensures images { IsTrue V.tells → Adds V.moment V.images_since self.old.vault self.new.vault
            (IsLeftBefore self.old) }
        ensures vault { KeepsVault V.size V.faults V.leads_to self.old.vault self.new.vault }
        ensures sound { IsSound self.new }
    {
        let _mark: Option<Mark> = None;
        if self.hub.doubtful().is_none() {
            return Answer::Nothing;
        }
        if self.vault.settle().is_err() {
            return Answer::Disk;
        }
        answer_of_settled(self.hub.settled())
    }

    /// How the write-out of a lead ended, where it is the unfinished one.
    fn ended(&self, lead: Who) -> Option<Outcome>
        ensures ended { result ≡ ended_of lead self.now.unfinished }
        ensures sound { IsSound self.now }
    {
        match &self.unfinished {
            Some(one) if one.lead == lead => Some(one.outcome),
            _ => None,
        }
    }
}
