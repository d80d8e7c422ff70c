ghost use Rattle.std.specs.Prelude.{◌≡◌, ◌+◌, ◌-◌, ◌^◌, ◌++◌, ◌≤◌, List, IsTrue, OnOk, length, min};
ghost use Rattle.casper_space.specs.declared.answer.Answer.{Answer as AnAnswer};
ghost use Rattle.casper_model.specs.State.{State};
ghost use Rattle.casper_core.specs.Leaving.{Adds, IsLeftByRun};
ghost use Rattle.casper_core.specs.Loading.{OnlyReads, KeepsVault};
ghost use Rattle.casper_core.specs.Shaped.{RunsInShape};
ghost use Rattle.casper_core.specs.Sound.{IsSound};
ghost use Rattle.casper_core.specs.Represents.{Represents};
ghost use Rattle.casper_core.specs.Stepping.{AreBuilt, AreReadOnly, Runs, HasLegalTrail, RoseBy, completed_in, failures_in};
ghost use Rattle.casper_core.specs.UnheldPages.{UnheldPagesAreRight};

use crate::{Core, StepFault};
use casper_disk::Vault;
use casper_model::Event;
use casper_space::Answers;
use casper_trail::Mark;

impl<V: Vault> Core<V> {
    /// Answers these events one after another. The room of an answer is taken before each step. After Memory the answers and the
    /// state are those of the steps that were made.
    pub fn replay(&mut self, events: &[Event], answers: &mut Answers) -> Result<(), StepFault>
        requires built { AreBuilt events.now }
        ensures run { (said : List AnAnswer) × (answers.new.items ≡ answers.old.items ++ said)
            × (length said ≤ length events.now)
            × OnOk result (length said ≡ length events.now)
            × (IsTrue V.tells → Runs events.now said self.old self.new)
            × RunsInShape events.now said self.old self.new
            × RoseBy (failures_in said) (V.faults self.old.vault) (V.faults self.new.vault)
            × (self.new.calls ≡ min (self.old.calls + completed_in events.now said) (2 ^ 64 - 1))
            × (IsTrue V.tells → Adds V.moment V.images_since self.old.vault self.new.vault
            (IsLeftByRun events.now said self.old)) }
        ensures never_falls { V.faults self.old.vault ≤ V.faults self.new.vault }
        ensures legal { (state : State) → Represents state self.new → HasLegalTrail state self.new }
        ensures unheld { (state : State) → Represents state self.new
            → UnheldPagesAreRight state self.new }
        ensures reads { AreReadOnly events.now → OnlyReads V.tells V.size V.image V.version V.room
            V.doubt V.images_now V.moment V.images_since V.faults V.leads_to self.old.vault
            self.new.vault }
        ensures vault { KeepsVault V.size V.faults V.leads_to self.old.vault self.new.vault }
        ensures sound { IsSound self.new }
    {
        let _mark: Option<Mark> = None;
        // What is true of every core holds also where there is no event.
        let _calls = self.calls();
        for event in events {
            answers.reserve(1)?;
            let answer = self.step(event)?;
            // There is room, so the answer is not given back.
            let _ = answers.push(answer);
        }
        Ok(())
    }
}

#[cfg(test)]
mod tests {
    use super::*;
    use casper_disk::MemVault;
    use casper_space::Answer;
    use casper_words::{Crew, Page, Right, Want, Wants, Who};
    use std::process::Abort;
    use std::test::Fail;

    /// The client of a number.
    fn client(rt: &impl Abort, number: u32) -> Who {
        Who::new(number).expect(rt, "a client")
    }

    /// A want to write page 5.
    fn to_write(rt: &impl Abort) -> Wants {
        let want = Want {
            page: Page(5),
            right: Right::Write,
        };
        Wants::new(&[want]).expect(rt, "wants")
    }

    #[test]
    fn replays_a_recall(rt: HostRuntime) -> Result<(), Fail> {
        let vault = MemVault::new(rt.alloc(), 8)?;
        let made = Core::new(rt.alloc(), vault, 10_000, 8);
        let mut core = made.map_err(|refused| refused.1)?;
        let one = client(&rt, 1);
        let two = client(&rt, 2);
        let events = [
            Event::Join(one),
            Event::Join(two),
            Event::Write(one, Page(5), 0, 17),
            Event::Read(two, Page(5), 0),
            Event::Serve(one),
            Event::Read(two, Page(5), 0),
        ];
        let expected = [
            Answer::Joined,
            Answer::Joined,
            Answer::Ok,
            Answer::Pending(Crew::none().with(one)),
            Answer::Ok,
            Answer::Value(17),
        ];
        let mut answers = Answers::new(rt.alloc());
        assert_eq!(rt; core.replay(&events, &mut answers), Ok(()));
        assert_eq!(rt; answers.as_slice(), expected.as_slice());
        assert_eq!(rt; core.calls(), 2);
        Ok(())
    }

    #[test]
    fn recalls_a_page_and_departs(rt: HostRuntime) -> Result<(), Fail> {
        let vault = MemVault::new(rt.alloc(), 8)?;
        let made = Core::new(rt.alloc(), vault, 10_000, 8);
        let mut core = made.map_err(|refused| refused.1)?;
        let one = client(&rt, 1);
        let two = client(&rt, 2);
        let rows = [
            (Event::Join(one), Answer::Joined),
            (Event::Join(two), Answer::Joined),
            (Event::Acquire(one, to_write(&rt)), Answer::Granted),
            (
                Event::Acquire(two, to_write(&rt)),
                Answer::Pending(Crew::none().with(one)),
            ),
            (Event::Serve(one), Answer::Ok),
            (Event::Acquire(two, to_write(&rt)), Answer::Granted),
            (Event::Depart(two), Answer::Left),
            (Event::Read(one, Page(5), 0), Answer::Value(0)),
        ];
        for (event, answer) in rows {
            assert_eq!(rt; core.step(&event), Ok(answer));
        }
        assert_eq!(rt; core.calls(), 1);
        Ok(())
    }

    #[test]
    fn fills_the_trail(rt: HostRuntime) -> Result<(), Fail> {
        let vault = MemVault::new(rt.alloc(), 8)?;
        let made = Core::new(rt.alloc(), vault, 3, 8);
        let mut core = made.map_err(|refused| refused.1)?;
        let one = client(&rt, 1);
        let rows = [
            (Event::Join(one), Answer::Joined),
            (Event::Write(one, Page(0), 0, 7), Answer::Ok),
            (Event::Read(one, Page(0), 0), Answer::Value(7)),
            (Event::Read(one, Page(0), 0), Answer::TrailFull(3)),
            (Event::Join(client(&rt, 2)), Answer::TrailFull(3)),
        ];
        for (event, answer) in rows {
            assert_eq!(rt; core.step(&event), Ok(answer));
        }
        assert_eq!(rt; core.calls(), 2);
        Ok(())
    }

    #[test]
    fn gives_up_the_page_used_longest_ago(rt: HostRuntime) -> Result<(), Fail> {
        let vault = MemVault::new(rt.alloc(), 9)?;
        let made = Core::new(rt.alloc(), vault, 10_000, 8);
        let mut core = made.map_err(|refused| refused.1)?;
        let one = client(&rt, 1);
        let two = client(&rt, 2);
        assert_eq!(rt; core.step(&Event::Join(one)), Ok(Answer::Joined));
        assert_eq!(rt; core.step(&Event::Join(two)), Ok(Answer::Joined));
        for page in 0..9 {
            assert_eq!(rt;
                core.step(&Event::Read(one, Page(page), 0)),
                Ok(Answer::Value(0))
            );
        }
        let rows = [
            (Event::Write(two, Page(0), 0, 5), Answer::Ok),
            (
                Event::Write(two, Page(1), 0, 5),
                Answer::Pending(Crew::none().with(one)),
            ),
        ];
        for (event, answer) in rows {
            assert_eq!(rt; core.step(&event), Ok(answer));
        }
        assert_eq!(rt; core.calls(), 10);
        Ok(())
    }
}
