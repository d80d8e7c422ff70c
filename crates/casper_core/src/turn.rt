ghost use Rattle.std.specs.Prelude.{◌≡◌, IsTrue, IfOk, OnErr};
ghost use Rattle.casper_words.specs.Count.{FaultCountRose};
ghost use Rattle.casper_space.specs.declared.answer.Answer.TheVariants as said;
ghost use Rattle.casper_model.specs.State.{State};
ghost use Rattle.casper_core.specs.Loading.{OnlyReads};
ghost use Rattle.casper_core.specs.Shaped.{StepsInShape};
ghost use Rattle.casper_core.specs.Sound.{IsSound};
ghost use Rattle.casper_core.specs.Represents.{Represents};
ghost use Rattle.casper_core.specs.Stepping.{Steps, IsUnchanged};
ghost use Rattle.casper_core.specs.ClientTurns.{IsTurnOf};

use crate::Core;
use crate::acts::act;
use casper_disk::Vault;
use casper_model::Event;
use casper_space::Answer;
use casper_trail::Mark;
use casper_words::{Memory, Who};

impl<V: Vault> Core<V> {
    /// A turn of a client in which it keeps its cache: a read, a write, an acquire, a serve, a stabilise, or that another
    /// declares it lost.
    pub(crate) fn turn(&mut self, who: Who, event: &Event) -> Result<Answer, Memory>
        requires turn { IsTurnOf who event.now }
        ensures step { IsTrue V.tells
            → IfOk result (λ answer. Steps event.now answer self.old self.new) }
        ensures shape { IfOk result (λ answer. StepsInShape event.now answer self.old self.new) }
        ensures failed { IfOk result (λ answer. answer ≡ said.Disk
            → FaultCountRose (V.faults self.old.vault) (V.faults self.new.vault)) }
        ensures memory { OnErr result (IsUnchanged self.old self.new) }
        ensures stands { IsTrue V.tells
            → OnErr result ((state : State) → Represents state self.old
            → Represents state self.new) }
        ensures calls { self.new.calls ≡ self.old.calls }
        ensures vault { OnlyReads V.tells V.size V.image V.version V.room V.doubt V.images_now
            V.moment V.images_since V.faults V.leads_to self.old.vault self.new.vault }
        ensures sound { IsSound self.new }
    {
        let _mark: Option<Mark> = None;
        let Some(cache) = &mut self.caches[who.number() as usize] else {
            return Ok(Answer::Absent);
        };
        act(
            self.alloc,
            &mut self.hub,
            &mut self.vault,
            who,
            cache,
            event,
        )
    }
}
