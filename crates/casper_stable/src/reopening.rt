ghost use Rattle.std.specs.Prelude.{◌≡◌, ◌≤◌, None, Ok, IsTrue, IsErrOf, IfErr, OnOk, OnErr};
ghost use Rattle.casper_words.specs.Count.{FaultCountRose};
ghost use Rattle.casper_disk.specs.Disk.{Took};
ghost use Rattle.casper_disk.specs.Vault.{IsOldOrNewImage, changes_in, version_settled};
ghost use Rattle.casper_map.specs.Mapped.{page_count};
ghost use Rattle.casper_reopen.specs.Reopening.{IsOfTheOutside};
ghost use Rattle.casper_stable.specs.Kept.{doubt_of, image_of};
ghost use Rattle.casper_stable.specs.Leaves.{Leaves};
ghost use Rattle.casper_stable.specs.Opened.{shown};
ghost use Rattle.casper_stable.specs.Opens.{opens};
ghost use Rattle.casper_stable.specs.Sound.{IsHeld, IsKept};

use crate::Stable;
use crate::opening::read_settled;
use crate::store::Store;
use casper_commit::Standing;
use casper_disk::Disk;
use casper_reopen::Reopen;
use casper_root::{Header, OpenFault};
use std::alloc::Global;

impl<D: Disk> Store<D> {
    /// Takes what an opening of its disk finds, in place of what it has; a doubt is gone. Where the disk tells other sizes than the
    /// store has, it is refused as one of bad size. After a fault it has what it had.
    pub(crate) fn reopen(&mut self, alloc: Global) -> Result<(), OpenFault>
        ensures header { self.new.header ≡ self.old.header }
        ensures found { IsTrue D.tells → OnOk result (opens (D.content self.old.disk)
            ≡ Ok (shown D.content self.new)) }
        ensures sure { OnOk result (self.new.doubt ≡ None) }
        ensures outside { IsTrue D.tells → IfErr result IsOfTheOutside }
        ensures same { OnErr result (self.new ≡ record self.old { disk = self.new.disk }) }
        ensures content { IsTrue D.tells → D.content self.new.disk ≡ D.content self.old.disk }
        ensures version { IsTrue D.tells → self.old.body.seq ≤ self.new.body.seq }
        ensures size { page_count self.new.held ≡ page_count self.old.held }
        ensures images { IsTrue D.tells
            → Took (D.moment self.old.disk) (D.moment self.new.disk)
            (λ past. Leaves (D.images_since self.old.disk past))
            (λ past. Leaves (D.images_since self.new.disk past))
            (IsOldOrNewImage (image_of D.content self.old) self.old.body.seq
            (changes_in (doubt_of D.content self.old))
            (version_settled (doubt_of D.content self.old) self.old.body.seq)) }
        ensures kept { IsKept D.size self.new × IsHeld D.tells D.content D.loose self.new }
        ensures leads { D.leads_to self.old.disk self.new.disk }
        ensures counted { IsErrOf result OpenFault.Disk
            → FaultCountRose (D.faults self.old.disk) (D.faults self.new.disk) }
        ensures never_falls { D.faults self.old.disk ≤ D.faults self.new.disk }
    {
        let found = read_settled(alloc, &mut self.disk)?;
        let Header { pages, frames } = found.roots.header;
        if pages != self.header.pages || frames != self.header.frames {
            return Err(OpenFault::BadSize { pages, frames });
        }
        self.standing = Standing {
            slot: found.roots.slot,
            spare_closed: found.roots.spare_closed,
        };
        self.body = found.roots.body;
        self.map = found.map;
        self.block = found.block;
        self.doubt = None;
        Ok(())
    }
}

impl<D: Disk> Reopen for Stable<D> {
    fn reopen(&mut self, alloc: Global) -> Result<(), OpenFault> {
        self.store.reopen(alloc)
    }
}
