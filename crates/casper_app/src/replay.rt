ghost use Rattle.std.specs.Prelude.{◌≡◌, ◌∷◌, ◌++◌, [], ◌+◌, ◌<◌, ◌≤◌, Err, IfOk, IfErr, OnErr, OnOk, IsTrue};
ghost use Rattle.casper_words.specs.Count.{FaultCountRose};
ghost use Rattle.casper_app.specs.Carrying.{MakesStep, MakesNone, MayBeAsked};
ghost use Rattle.casper_app.specs.Opening.{IsNoRefusal, IsWhy};
ghost use Rattle.casper_app.specs.Outlet.{keeps, kept_of};

use crate::schedule::Asked;
use crate::sessions::Sessions;
use crate::{Cause, Outlet};
use casper_disk::Vault;
use casper_reopen::Reopen;
use casper_space::{Answer, Answers};
use casper_trail::{Mark, Trail};
use casper_words::Memory;
use std::alloc::Global;

/// A replay: the sessions, what becomes of their answers, and those that are kept.
#[derive(Drop)]
pub(crate) struct Replay<V: Vault> {
    pub(crate) sessions: Sessions<V>,
    pub(crate) outlet: Outlet,
    pub(crate) answers: Answers,
}

impl<V: Vault + Reopen> Replay<V> {
    /// The replay before any answer.
    pub(crate) fn new(alloc: Global, sessions: Sessions<V>, outlet: Outlet) -> Replay<V>
        ensures sessions { result.sessions ≡ sessions }
        ensures outlet { result.outlet ≡ outlet }
        ensures answers { result.answers.items ≡ [] }
    {
        Replay {
            sessions,
            outlet,
            answers: Answers::new(alloc),
        }
    }

    /// Answers what was asked for, and keeps the answer where answers are kept. Where there is none nothing has changed.
    pub(crate) fn answer(&mut self, asked: &Asked) -> Result<Answer, Cause>
        requires built { MayBeAsked asked.now }
        requires limit { self.old.sessions.entries ≤ 4194304 }
        ensures step { IfOk result (λ answer. MakesStep V.tells V.faults V.moment V.images_since
            asked.now answer self.old.sessions self.new.sessions) }
        ensures kept { IfOk result (λ answer. self.new.answers.items
            ≡ self.old.answers.items ++ kept_of self.old.outlet (answer ∷ [])) }
        ensures outlet { self.new.outlet ≡ self.old.outlet }
        ensures none { OnErr result
            (MakesNone V.tells V.faults V.moment V.images_since self.old.sessions
            self.new.sessions) }
        ensures same { OnErr result (self.new.answers.items ≡ self.old.answers.items) }
        ensures why { IfErr result (IsWhy asked.now) }
        ensures unrefused { IsTrue V.tells → IfErr result IsNoRefusal }
        ensures disk { result ≡ Err Cause.Disk → FaultCountRose
            (V.faults self.old.sessions.core.vault) (V.faults self.new.sessions.core.vault) }
    {
        let _mark: Option<Mark> = None;
        // What is true of every core is so before the answer, and where there is none.
        let _calls = self.sessions.core.calls();
        self.make_room()?;
        let answer = match asked {
            Asked::Event(event) => self.sessions.carry_out(event)?,
            Asked::Reopen => self.sessions.reopen()?,
        };
        self.keep(&answer);
        Ok(answer)
    }

    /// Makes room for an answer that is kept.
    fn make_room(&mut self) -> Result<(), Memory>
        ensures room { OnOk result (IsTrue (keeps self.new.outlet) → 0 < self.new.answers.room) }
        ensures sessions { self.new.sessions ≡ self.old.sessions }
        ensures outlet { self.new.outlet ≡ self.old.outlet }
        ensures answers { self.new.answers.items ≡ self.old.answers.items }
    {
        if self.outlet.keeps() {
            self.answers.reserve(1)?;
        }
        Ok(())
    }

    /// Keeps an answer, where answers are kept and there is room.
    fn keep(&mut self, answer: &Answer)
        requires { IsTrue (keeps self.old.outlet) → 0 < self.old.answers.room }
        ensures sessions { self.new.sessions ≡ self.old.sessions }
        ensures outlet { self.new.outlet ≡ self.old.outlet }
        ensures kept { self.new.answers.items
            ≡ self.old.answers.items ++ kept_of self.old.outlet (answer.now ∷ []) }
    {
        if self.outlet.keeps() {
            let _ = self.answers.push(*answer);
        }
    }

    /// The answers that were kept, the trail and the vault. It takes no memory.
    pub(crate) fn into_parts(self) -> (Answers, Trail, V)
        ensures answers { result.0 ≡ self.answers }
        ensures trail { result.1.items ≡ self.sessions.core.hub.trail }
        ensures vault { result.2 ≡ self.sessions.core.vault }
    {
        let Replay {
            sessions,
            answers,
            ..
        } = self;
        let (trail, vault) = sessions.into_parts();
        (answers, trail, vault)
    }
}
