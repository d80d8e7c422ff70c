ghost use Rattle.std.specs.Prelude.{◌≡◌, IsTrue};
ghost use Rattle.casper_words.specs.Count.{FaultCountRose};
ghost use Rattle.casper_space.specs.declared.answer.Answer.TheVariants as said;
ghost use Rattle.casper_core.specs.Loading.{OnlyReads};
ghost use Rattle.casper_core.specs.Shaped.{StepsInShape};
ghost use Rattle.casper_core.specs.Sound.{IsSound};
ghost use Rattle.casper_core.specs.Stepping.{Steps};
ghost use Rattle.casper_model.specs.declared.event.Event.TheVariants as event;

use crate::Core;
use crate::answers::answer_of_vanish;
use casper_disk::Vault;
use casper_space::Answer;
use casper_trail::Mark;
use casper_words::Who;

impl<V: Vault> Core<V> {
    /// A client vanishes: its association is rolled back, or its loss is noted, and it has no cache any more. It takes no memory.
    pub(crate) fn vanish(&mut self, who: Who) -> Answer
        ensures step { IsTrue V.tells → Steps (event.Vanish who) result self.old self.new }
        ensures shape { StepsInShape (event.Vanish who) result self.old self.new }
        ensures failed { result ≡ said.Disk
            → FaultCountRose (V.faults self.old.vault) (V.faults self.new.vault) }
        ensures calls { self.new.calls ≡ self.old.calls }
        ensures vault { OnlyReads V.tells V.size V.image V.version V.room V.doubt V.images_now
            V.moment V.images_since V.faults V.leads_to self.old.vault self.new.vault }
        ensures sound { IsSound self.new }
    {
        let _mark: Option<Mark> = None;
        let place = who.number() as usize;
        let Some(cache) = &mut self.caches[place] else {
            return Answer::Absent;
        };
        let loss = self.hub.vanish(who, cache);
        self.caches[place] = None;
        answer_of_vanish(loss)
    }
}
