ghost use Rattle.std.specs.Prelude.{◌≡◌, IsTrue, IfOk, OnErr, ◌≤◌};
ghost use Rattle.casper_words.specs.Count.{FaultCountRose};
ghost use Rattle.casper_space.specs.declared.answer.Answer.TheVariants as said;
ghost use Rattle.casper_model.specs.Growth.{StepAdds};
ghost use Rattle.casper_model.specs.State.{State};
ghost use Rattle.casper_core.specs.Decided.{AnswersByTheHub};
ghost use Rattle.casper_core.specs.Leaving.{Adds, IsLeftBefore, IsLeftDuring, IfWriting};
ghost use Rattle.casper_core.specs.Loading.{OnlyReads, KeepsVault};
ghost use Rattle.casper_core.specs.Shaped.{StepsInShape};
ghost use Rattle.casper_core.specs.Sound.{IsSound};
ghost use Rattle.casper_core.specs.Represents.{Represents};
ghost use Rattle.casper_core.specs.Stepping.{IsBuilt, IsReadOnly, IfWrittenOut, Steps, IsUnchanged, is_fault, completes, counted, HasLegalTrail};
ghost use Rattle.casper_core.specs.UnheldPages.{UnheldPagesAreRight};

use crate::Core;
use casper_disk::Vault;
use casper_model::Event;
use casper_space::Answer;
use casper_trail::Mark;
use casper_words::Memory;

/// Why a step was not made.
#[derive(Clone, Copy, Debug, PartialEq, Eq)]
pub enum StepFault {
    /// There was too little memory.
    Memory,
}

impl From<Memory> for StepFault {
    fn from(_memory: Memory) -> StepFault {
        StepFault::Memory
    }
}

/// Whether an event came to a completed call, by its answer.
fn is_call_made(event: &Event, answer: &Answer) -> bool
    ensures { result ≡ completes event.now answer.now }
{
    match (event, answer) {
        (Event::Read(_, _, _), Answer::Value(_)) => true,
        (Event::Write(_, _, _, _), Answer::Ok) => true,
        _ => false,
    }
}

impl<V: Vault> Core<V> {
    /// Answers an event, whose calls are not counted yet.
    fn carry_out(&mut self, event: &Event) -> Result<Answer, Memory>
        requires built { IsBuilt event.now }
        ensures step { IsTrue V.tells
            → IfOk result (λ answer. Steps event.now answer self.old self.new) }
        ensures shape { IfOk result (λ answer. StepsInShape event.now answer self.old self.new) }
        ensures failed { IfOk result (λ answer. answer ≡ said.Disk
            → FaultCountRose (V.faults self.old.vault) (V.faults self.new.vault)) }
        ensures doubt { IfOk result (λ answer. IfWrittenOut event.now (answer ≡ said.Doubt
            → FaultCountRose (V.faults self.old.vault) (V.faults self.new.vault))) }
        ensures memory { OnErr result (IsUnchanged self.old self.new) }
        ensures stands { IsTrue V.tells
            → OnErr result ((state : State) → Represents state self.old
            → Represents state self.new) }
        ensures calls { self.new.calls ≡ self.old.calls }
        ensures images { IsTrue V.tells → IfWriting event.now
            (Adds V.moment V.images_since self.old.vault self.new.vault
            (IsLeftDuring event.now self.old)) }
        ensures images_stand { IsTrue V.tells → OnErr result (IfWriting event.now
            (Adds V.moment V.images_since self.old.vault self.new.vault (IsLeftBefore self.old))) }
        ensures reads { IsReadOnly event.now → OnlyReads V.tells V.size V.image V.version V.room
            V.doubt V.images_now V.moment V.images_since V.faults V.leads_to self.old.vault
            self.new.vault }
        ensures vault { KeepsVault V.size V.faults V.leads_to self.old.vault self.new.vault }
        ensures sound { IsSound self.new }
    {
        let _mark: Option<Mark> = None;
        match event {
            Event::Join(who) => self.join(*who),
            Event::Read(who, _, _) => self.turn(*who, event),
            Event::Write(who, _, _, _) => self.turn(*who, event),
            Event::Acquire(who, _) => self.turn(*who, event),
            Event::Serve(who) => self.turn(*who, event),
            Event::Stabilise(who) => self.turn(*who, event),
            Event::Depart(who) => self.depart(*who),
            Event::Vanish(who) => Ok(self.vanish(*who)),
            Event::Lose(who) => self.turn(*who, event),
            Event::WriteOut(lead) => self.write_out(*lead),
            Event::Finish(lead) => Ok(self.finish(*lead)),
            Event::Settle => Ok(self.settle()),
            _ => unreachable!(),
        }
    }

    /// Answers one event. After Memory nothing of the state has changed, but the server may have got frames of pages of the image. Only
    /// a write-out and a settle write to the vault, and only their answers and that to a load tell of a fault.
    pub fn step(&mut self, event: &Event) -> Result<Answer, StepFault>
        requires built { IsBuilt event.now }
        ensures step { IsTrue V.tells
            → IfOk result (λ answer. Steps event.now answer self.old self.new) }
        ensures shape { IfOk result (λ answer. StepsInShape event.now answer self.old self.new) }
        ensures decided { IfOk result (λ answer. AnswersByTheHub self.old.hub event.now answer) }
        ensures fault { IfOk result (λ answer. IsTrue (is_fault answer)
            → FaultCountRose (V.faults self.old.vault) (V.faults self.new.vault)) }
        ensures never_falls { V.faults self.old.vault ≤ V.faults self.new.vault }
        ensures memory { OnErr result (IsUnchanged self.old self.new) }
        ensures stands { IsTrue V.tells
            → OnErr result ((state : State) → Represents state self.old
            → Represents state self.new) }
        ensures calls { IfOk result (λ answer. self.new.calls
            ≡ counted (completes event.now answer) self.old.calls) }
        ensures adds { IsTrue V.tells
            → IfOk result (λ answer. (state : State) → Represents state self.old
            → StepAdds state event.now self.new.hub.trail) }
        ensures legal { (state : State) → Represents state self.new → HasLegalTrail state self.new }
        ensures unheld { (state : State) → Represents state self.new
            → UnheldPagesAreRight state self.new }
        ensures images { IsTrue V.tells → Adds V.moment V.images_since self.old.vault self.new.vault
            (IsLeftDuring event.now self.old) }
        ensures images_stand { IsTrue V.tells → OnErr result
            (Adds V.moment V.images_since self.old.vault self.new.vault (IsLeftBefore self.old)) }
        ensures reads { IsReadOnly event.now → OnlyReads V.tells V.size V.image V.version V.room
            V.doubt V.images_now V.moment V.images_since V.faults V.leads_to self.old.vault
            self.new.vault }
        ensures vault { KeepsVault V.size V.faults V.leads_to self.old.vault self.new.vault }
        ensures sound { IsSound self.new }
    {
        let _mark: Option<Mark> = None;
        // What is true of every core is so before the step: by it the answer is known from the hub.
        let _calls = self.calls();
        let answer = self.carry_out(event)?;
        if !is_call_made(event, &answer) {
            return Ok(answer);
        }
        self.calls = self.calls.saturating_add(1);
        Ok(answer)
    }
}
