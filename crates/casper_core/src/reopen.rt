ghost use Rattle.std.specs.Prelude.{◌≡◌, ◌≤◌, [], IsTrue, IsErrOf, IfErr, OnOk, OnErr};
ghost use Rattle.casper_words.specs.Count.{FaultCountRose};
ghost use Rattle.casper_disk.specs.Disk.{Took};
ghost use Rattle.casper_disk.specs.Vault.{IsOldOrNewImage, changes_in, version_settled};
ghost use Rattle.casper_model.specs.State.{State, start};
ghost use Rattle.casper_reopen.specs.Reopening.{IsOfTheOutside};
ghost use Rattle.casper_sessions.specs.Chain.{IsFound};
ghost use Rattle.casper_core.specs.CoreView.{told_by};
ghost use Rattle.casper_core.specs.Loading.{KeepsVault};
ghost use Rattle.casper_core.specs.Represents.{Represents};
ghost use Rattle.casper_core.specs.Shaped.{RepresentsButWords};
ghost use Rattle.casper_core.specs.Sound.{IsSound};

use crate::Core;
use crate::state::no_caches;
use casper_disk::Vault;
use casper_hub::Hub;
use casper_reopen::Reopen;
use casper_root::OpenFault;
use casper_trail::Mark;

impl<V: Vault + Reopen> Core<V> {
    /// Begins a new session over the vault, which is opened again: nobody is there, no write-out is unfinished, and the trail is empty
    /// and takes at most so many entries. The size of caches stays, and completed calls are counted on. Memory is taken before the
    /// vault is opened. After a fault the session goes on as it was.
    pub fn reopen(&mut self, limit: u32) -> Result<(), OpenFault>
        requires limit { limit ≤ 4194304 }
        ensures stands { IsTrue V.tells → OnOk result
            (Represents (start self.new.told self.new.size limit self.new.capacity) self.new) }
        ensures shape { OnOk result
            (RepresentsButWords (start self.new.told self.new.size limit self.new.capacity)
            self.new) }
        ensures found { IsTrue V.tells → OnOk result (IsFound self.old.told self.new.told) }
        ensures trail { OnOk result (self.new.hub.trail ≡ []) }
        ensures told { self.new.told
            ≡ told_by V.image V.version V.room V.doubt self.new.vault }
        ensures size { self.new.size ≡ self.old.size }
        ensures capacity { self.new.capacity ≡ self.old.capacity }
        ensures calls { self.new.calls ≡ self.old.calls }
        ensures outside { IsTrue V.tells → IfErr result IsOfTheOutside }
        ensures counted { IsErrOf result OpenFault.Disk
            → FaultCountRose (V.faults self.old.vault) (V.faults self.new.vault) }
        ensures same_hub { OnErr result (self.new.hub ≡ self.old.hub) }
        ensures same_caches { OnErr result (self.new.caches ≡ self.old.caches) }
        ensures same_write_out { OnErr result (self.new.unfinished ≡ self.old.unfinished) }
        ensures same_told { IsTrue V.tells → OnErr result (self.new.told ≡ self.old.told) }
        ensures stays { IsTrue V.tells → OnErr result ((state : State) → Represents state self.old
            → Represents state self.new) }
        ensures stays_in_shape { OnErr result ((state : State) → RepresentsButWords state self.old
            → RepresentsButWords state self.new) }
        ensures images { IsTrue V.tells →
            Took (V.moment self.old.vault) (V.moment self.new.vault) (V.images_since self.old.vault)
            (V.images_since self.new.vault)
            (IsOldOrNewImage (V.image self.old.vault) (V.version self.old.vault)
            (changes_in (V.doubt self.old.vault))
            (version_settled (V.doubt self.old.vault) (V.version self.old.vault))) }
        ensures vault { KeepsVault V.size V.faults V.leads_to self.old.vault self.new.vault }
        ensures sound { IsSound self.new }
    {
        let _mark: Option<Mark> = None;
        // What is true of every core is so before the vault is opened.
        let _calls = self.calls();
        let hub = Hub::new(self.alloc, self.vault.pages(), limit)?;
        let caches = no_caches(self.alloc)?;
        self.vault.reopen(self.alloc)?;
        self.hub = hub;
        self.caches = caches;
        self.unfinished = None;
        Ok(())
    }
}

#[cfg(test)]
mod tests {
    use super::*;
    use casper_disk::MemVault;
    use casper_model::Event;
    use casper_space::Answer;
    use casper_words::{Page, Who};
    use std::process::Abort;
    use std::test::Fail;

    /// Client 1.
    fn one(rt: &impl Abort) -> Who {
        Who::new(1).expect(rt, "a client")
    }

    #[test]
    fn begins_over_what_is_stable(rt: HostRuntime) -> Result<(), Fail> {
        let vault = MemVault::new(rt.alloc(), 8)?;
        let made = Core::new(rt.alloc(), vault, 10_000, 8);
        let mut core = made.map_err(|refused| refused.1)?;
        let one = one(&rt);
        let rows = [
            (Event::Join(one), Answer::Joined),
            (Event::Write(one, Page(5), 0, 17), Answer::Ok),
            (Event::Stabilise(one), Answer::Sealed(1)),
            (Event::WriteOut(one), Answer::Written(2)),
            (Event::Finish(one), Answer::Commit(2)),
            (Event::Write(one, Page(5), 0, 18), Answer::Ok),
        ];
        for (event, answer) in rows {
            assert_eq!(rt; core.step(&event), Ok(answer));
        }
        assert_eq!(rt; core.reopen(10_000), Ok(()));
        let rows = [
            (Event::Read(one, Page(5), 0), Answer::Absent),
            (Event::Join(one), Answer::Joined),
            (Event::Read(one, Page(5), 0), Answer::Value(17)),
        ];
        for (event, answer) in rows {
            assert_eq!(rt; core.step(&event), Ok(answer));
        }
        assert_eq!(rt; (core.calls(), core.version()), (3, 2));
        Ok(())
    }
}
