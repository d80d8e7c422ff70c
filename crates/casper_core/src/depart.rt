ghost use Rattle.std.specs.Prelude.{◌≡◌, IsTrue, IfOk, OnErr};
ghost use Rattle.casper_words.specs.Count.{FaultCountRose};
ghost use Rattle.casper_space.specs.declared.answer.Answer.TheVariants as said;
ghost use Rattle.casper_model.specs.State.{State};
ghost use Rattle.casper_core.specs.Loading.{OnlyReads};
ghost use Rattle.casper_core.specs.Shaped.{StepsInShape};
ghost use Rattle.casper_core.specs.Sound.{IsSound};
ghost use Rattle.casper_core.specs.Represents.{Represents};
ghost use Rattle.casper_core.specs.Stepping.{Steps, IsUnchanged};
ghost use Rattle.casper_model.specs.declared.event.Event.TheVariants as event;

use crate::Core;
use crate::answers::answer_of_depart;
use casper_disk::Vault;
use casper_model::Served;
use casper_space::Answer;
use casper_trail::Mark;
use casper_words::{Memory, Who};

impl<V: Vault> Core<V> {
    /// A client departs: it has no cache any more. One that had fallen is told so, and stays.
    pub(crate) fn depart(&mut self, who: Who) -> Result<Answer, Memory>
        ensures step { IsTrue V.tells
            → IfOk result (λ answer. Steps (event.Depart who) answer self.old self.new) }
        ensures shape { IfOk result
            (λ answer. StepsInShape (event.Depart who) answer self.old self.new) }
        ensures failed { IfOk result (λ answer. answer ≡ said.Disk
            → FaultCountRose (V.faults self.old.vault) (V.faults self.new.vault)) }
        ensures memory { OnErr result (IsUnchanged self.old self.new) }
        ensures stands { IsTrue V.tells
            → OnErr result ((state : State) → Represents state self.old
            → Represents state self.new) }
        ensures calls { self.new.calls ≡ self.old.calls }
        ensures vault { OnlyReads V.tells V.size V.image V.version V.room V.doubt V.images_now
            V.moment V.images_since V.faults V.leads_to self.old.vault self.new.vault }
        ensures sound { IsSound self.new }
    {
        let _mark: Option<Mark> = None;
        let place = who.number() as usize;
        let Some(cache) = &mut self.caches[place] else {
            return Ok(Answer::Absent);
        };
        let reply = self.hub.depart(who, cache)?;
        if let Served::Ok = reply {
            self.caches[place] = None;
            return Ok(Answer::Left);
        }
        Ok(answer_of_depart(reply))
    }
}
