ghost use Rattle.std.specs.Prelude.{◌≡◌, ◌≤◌, IfOk, IfErr, IsErrOf, IsTrue, OnErr};
ghost use Rattle.casper_words.specs.Count.{FaultCountRose};
ghost use Rattle.casper_core.specs.Stepping.{IsBuilt};
ghost use Rattle.casper_reopen.specs.Reopening.{IsOfTheOutside};
ghost use Rattle.casper_app.specs.Carrying.{MakesStep, MakesNone, summary_in};

use crate::past::Past;
use crate::schedule::Asked;
use casper_core::{Core, StepFault};
use casper_disk::Vault;
use casper_model::Event;
use casper_reopen::Reopen;
use casper_report::Summary;
use casper_root::OpenFault;
use casper_space::Answer;
use casper_trail::{Mark, Trail};
use casper_words::Memory;

/// Sessions, one after another: the core of the one that goes on, how many entries a trail takes, and what those that ended came to.
#[derive(Drop)]
pub(crate) struct Sessions<V: Vault> {
    pub(crate) core: Core<V>,
    pub(crate) entries: u32,
    pub(crate) past: Past,
}

impl<V: Vault + Reopen> Sessions<V> {
    /// Carries an event out, and answers it. Where memory is short nothing changes.
    pub(crate) fn carry_out(&mut self, event: &Event) -> Result<Answer, Memory>
        requires { IsBuilt event.now }
        ensures step { IfOk result (λ answer. MakesStep V.tells V.faults V.moment V.images_since
            (Asked.Event event.now) answer self.old self.new) }
        ensures none { OnErr result
            (MakesNone V.tells V.faults V.moment V.images_since self.old self.new) }
        ensures entries { self.new.entries ≡ self.old.entries }
    {
        let _mark: Option<Mark> = None;
        match self.core.step(event) {
            Ok(answer) => Ok(answer),
            Err(StepFault::Memory) => Err(Memory),
        }
    }

    /// Opens the store again and begins a new session: nobody is there, and the trail is empty. After a fault nothing has changed.
    pub(crate) fn reopen(&mut self) -> Result<Answer, OpenFault>
        requires { self.old.entries ≤ 4194304 }
        ensures step { IfOk result (λ answer. MakesStep V.tells V.faults V.moment V.images_since
            Asked.Reopen answer self.old self.new) }
        ensures none { OnErr result
            (MakesNone V.tells V.faults V.moment V.images_since self.old self.new) }
        ensures outside { IsTrue V.tells → IfErr result IsOfTheOutside }
        ensures counted { IsErrOf result OpenFault.Disk
            → FaultCountRose (V.faults self.old.core.vault) (V.faults self.new.core.vault) }
        ensures entries { self.new.entries ≡ self.old.entries }
    {
        let _mark: Option<Mark> = None;
        // What is true of every core is so before the store is opened again.
        let _calls = self.core.calls();
        let past = self.past.with(self.core.hub().trail());
        self.core.reopen(self.entries)?;
        self.past = past;
        Ok(Answer::Reopened(self.core.version()))
    }

    /// What the last line tells after so many lines.
    pub(crate) fn summary(&self, lines: u32) -> Summary
        ensures { result ≡ summary_in lines self.now }
    {
        let _mark: Option<Mark> = None;
        let all = self.past.with(self.core.hub().trail());
        Summary {
            lines,
            calls: self.core.calls(),
            commits: all.commits,
            rollbacks: all.rollbacks,
            version: self.core.version(),
        }
    }

    /// The trail and the vault. It takes no memory.
    pub(crate) fn into_parts(self) -> (Trail, V)
        ensures trail { result.0.items ≡ self.core.hub.trail }
        ensures vault { result.1 ≡ self.core.vault }
    {
        let Sessions { core, .. } = self;
        let (hub, vault) = core.into_parts();
        (hub.into_trail(), vault)
    }
}
