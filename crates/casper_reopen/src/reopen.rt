ghost use Rattle.std.specs.Prelude.{◌≡◌, ◌≤◌, None, is_some, IsTrue, IsErrOf, IfErr, OnOk, OnErr};
ghost use Rattle.casper_words.specs.Count.{FaultCountRose};
ghost use Rattle.casper_disk.specs.Disk.{Took};
ghost use Rattle.casper_disk.specs.Vault.{IsOldOrNewImage, changes_in, version_settled};
ghost use Rattle.casper_reopen.specs.Reopening.{IsOfTheOutside, saved_by};

use casper_disk::Vault;
use casper_root::OpenFault;
use std::alloc::Global;

/// A vault that can be opened again where it stands, as a program does that begins anew after a stop.
pub trait Reopen: Vault {
    /// Opens the vault again. It then has what a stop before the call might have left, and nothing is in doubt. It has as many pages
    /// as before; where the outside has another number, it is refused. After a fault the vault has what it had.
    ///
    /// A vault that tells what a stop leaves opens to it, so its faults are want of memory and those of the disk alone.
    fn reopen(&mut self, alloc: Global) -> Result<(), OpenFault>
        ensures found { IsTrue Self.tells
            → OnOk result (Self.images_now self.old (saved_by Self.image Self.version self.new)) }
        ensures sure { OnOk result (Self.doubt self.new ≡ None) }
        ensures size { Self.size self.new ≡ Self.size self.old }
        ensures outside { IsTrue Self.tells → IfErr result IsOfTheOutside }
        ensures same_version { OnErr result (Self.version self.new ≡ Self.version self.old) }
        ensures same_image { IsTrue Self.tells
            → OnErr result (Self.image self.new ≡ Self.image self.old) }
        ensures same_room { OnErr result (Self.room self.new ≡ Self.room self.old) }
        ensures same_doubt { IsTrue Self.tells
            → OnErr result (Self.doubt self.new ≡ Self.doubt self.old) }
        ensures doubtful { OnErr result
            (is_some (Self.doubt self.new) ≡ is_some (Self.doubt self.old)) }
        ensures counted { IsErrOf result OpenFault.Disk
            → FaultCountRose (Self.faults self.old) (Self.faults self.new) }
        ensures never_falls { Self.faults self.old ≤ Self.faults self.new }
        ensures images { IsTrue Self.tells →
            Took (Self.moment self.old) (Self.moment self.new) (Self.images_since self.old)
            (Self.images_since self.new)
            (IsOldOrNewImage (Self.image self.old) (Self.version self.old)
            (changes_in (Self.doubt self.old))
            (version_settled (Self.doubt self.old) (Self.version self.old))) }
        ensures leads { Self.leads_to self.old self.new };
}
