ghost use Rattle.std.specs.Prelude.{◌≡◌, ◌<◌, ◌≤◌, length, replicate, IsTrue, OnOk, OnErr};
ghost use Rattle.casper_disk.specs.Disk.{KeepsImages};
ghost use Rattle.casper_disk.specs.Vault.{page_at};
ghost use Rattle.casper_map.specs.Mapped.{page_count};
ghost use Rattle.casper_words.specs.Count.{FaultCountRose};
ghost use Rattle.casper_stable.specs.Kept.{image_of};
ghost use Rattle.casper_stable.specs.Sound.{IsKept, IsHeld};

use crate::store::Store;
use casper_disk::{Disk, DiskFault};
use casper_words::{Frame, Page};

/// Makes each word of a frame zero.
fn clear(into: &mut Frame)
    ensures { into.new ≡ replicate 512 0 }
{
    for word in 0..Frame::WORDS {
        into.set(word, 0);
    }
}

impl<D: Disk> Store<D> {
    /// Reads a page: the block of its frame, or nothing where it has none.
    pub(crate) fn read_page(&mut self, page: Page, into: &mut Frame) -> Result<(), DiskFault>
        requires { page < page_count self.old.held }
        ensures page { IsTrue D.tells → OnOk result (into.new
            ≡ page_at (image_of D.content self.old) page) }
        ensures same { self.new ≡ record self.old { disk = self.new.disk } }
        ensures content { IsTrue D.tells → D.content self.new.disk ≡ D.content self.old.disk }
        ensures images { IsTrue D.tells
            → KeepsImages (D.moment self.old.disk) (D.moment self.new.disk)
            (D.images_since self.old.disk) (D.images_since self.new.disk) }
        ensures kept { IsKept D.size self.new × IsHeld D.tells D.content D.loose self.new }
        ensures leads { D.leads_to self.old.disk self.new.disk }
        ensures counted { OnErr result
            (FaultCountRose (D.faults self.old.disk) (D.faults self.new.disk)) }
        ensures never_falls { D.faults self.old.disk ≤ D.faults self.new.disk }
    {
        match self.map.frame_of(page) {
            None => {
                clear(into);
                Ok(())
            }
            Some(frame) => {
                self.disk.read(5 + frame, &mut self.block)?;
                into.from_block(&self.block);
                Ok(())
            }
        }
    }
}
