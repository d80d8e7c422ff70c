ghost use Rattle.std.specs.Prelude.{◌≡◌, ◌≢◌, ◌↔◌, ℕ, ◌≤◌, List, [], true, replicate, IsTrue, IsFalse, IsErrOf, IfOk, OnOk, OnErr};
ghost use Rattle.std.proofs.Common.{refl};
ghost use Rattle.casper_words.specs.Count.{FaultCountRose};
ghost use Rattle.casper_disk.specs.Disk.{none_loose};
ghost use Rattle.casper_disk.specs.Handed.{faults_since, faults_with};
ghost use Rattle.casper_disk.specs.MemDisk.{held_loose, fresh_disk};
ghost use Rattle.casper_disk.specs.Place.{Out, Standing, is_standing, is_there};
ghost use Rattle.casper_disk.specs.Slots.{place_in, handed_in, fails_open, fails_make, after_ask};

use crate::handed::faults_since;
use crate::slots::Slots;
use crate::{MemDisk, Shelf, ShelfFault};
use casper_words::Memory;
use std::alloc::Global;
use std::marker::Model;

/// A shelf in memory, which tells what stands under each name. The opens and makes that are to fail are given by their numbers,
/// counted from 1 over both.
#[derive(Drop)]
pub struct MemShelf {
    slots: Slots,
    calls: u32,
    fails: Vec<u64>,
    asked: u64,
    faults: u64,
}

impl Model for MemShelf {
    ghost use Rattle.casper_disk.specs.Slots.{Shelved};

    ghost Value = { Shelved };

    ghost view = { λ own. record {
      slots = own.slots;
      calls = own.calls;
      fails = own.fails.items;
      asked = own.asked;
      faults = own.faults;
    } };
}

impl MemShelf {
    /// A shelf with no name. Each disk that it makes has room for `calls` writes and syncs.
    pub fn new(alloc: Global, calls: u32, fails: &[u64]) -> Result<MemShelf, Memory>
        ensures { IfOk result (λ shelf. shelf
            ≡ record { slots = []; calls = calls; fails = fails.now; asked = 0; faults = 0 }) }
    {
        let fails = Vec::from_slice(alloc, fails)?;
        Ok(MemShelf {
            slots: Slots::new(alloc),
            calls,
            fails,
            asked: 0,
            faults: 0,
        })
    }
}

impl Shelf for MemShelf {
    type Disk = MemDisk;

    ghost tells = { true };

    ghost place = { λ shelf. place_in shelf.slots };

    ghost handed = { λ shelf. handed_in shelf.slots };

    ghost faults = { λ shelf. shelf.faults };

    /// Fails exactly where a disk stands under the name and this call is one of those that are to fail.
    fn open(&mut self, _alloc: Global, name: &[u8]) -> Result<MemDisk, ShelfFault>
        ensures nosuch { IsErrOf result ShelfFault.NoSuch
            ↔ IsFalse (is_standing (place_in self.old.slots name.now)) }
        ensures failed { IsErrOf result ShelfFault.Failed ↔ IsTrue (fails_open self.old name.now) }
        ensures stood { IfOk result (λ disk. place_in self.old.slots name.now ≡ Standing disk) }
        ensures out { OnOk result (place_in self.new.slots name.now ≡ Out) }
        ensures others { (other : List ℕ) → other ≢ name.now
            → place_in self.new.slots other ≡ place_in self.old.slots other }
        ensures kept { OnErr result (place_in self.new.slots name.now
            ≡ place_in self.old.slots name.now) }
        ensures handed { IfOk result (λ disk. handed_in self.new.slots name.now
            ≡ disk.plan.faults) }
        ensures handed_before { OnErr result (handed_in self.new.slots name.now
            ≡ handed_in self.old.slots name.now) }
        ensures others_handed { (other : List ℕ) → other ≢ name.now
            → handed_in self.new.slots other ≡ handed_in self.old.slots other }
        ensures after { self.new
            ≡ record
            (after_ask (fails_open self.old name.now) self.old) { slots = self.new.slots } }
        ensures new_alone { IsErrOf result ShelfFault.Exists → ⊥ }
        ensures no_memory { IsErrOf result ShelfFault.Memory → ⊥ }
        ensures counted { IsErrOf result ShelfFault.Failed
            → FaultCountRose self.old.faults self.new.faults }
        ensures never_falls { self.old.faults ≤ self.new.faults }
    {
        self.asked = self.asked.saturating_add(1);
        if !self.slots.has_standing(name) {
            return Err(ShelfFault::NoSuch);
        }
        if self.fails.contains(&self.asked) {
            self.faults = self.faults.saturating_add(1);
            return Err(ShelfFault::Failed);
        }
        self.slots.take(name).ok_or(ShelfFault::NoSuch)
    }

    /// Fails exactly where the name is not there and this call is one of those that are to fail.
    fn make(&mut self, alloc: Global, name: &[u8], blocks: u32) -> Result<MemDisk, ShelfFault>
        ensures exists { IsErrOf result ShelfFault.Exists
            ↔ IsTrue (is_there (place_in self.old.slots name.now)) }
        ensures failed { IsErrOf result ShelfFault.Failed ↔ IsTrue (fails_make self.old name.now) }
        ensures made { IfOk result (λ disk. disk
            ≡ fresh_disk (replicate blocks (replicate 4096 0)) self.old.calls) }
        ensures zero { IfOk result (λ disk. disk.content ≡ replicate blocks (replicate 4096 0)) }
        ensures settled { IfOk result (λ disk. held_loose disk ≡ none_loose) }
        ensures out { OnOk result (place_in self.new.slots name.now ≡ Out) }
        ensures others { (other : List ℕ) → other ≢ name.now
            → place_in self.new.slots other ≡ place_in self.old.slots other }
        ensures kept { OnErr result (place_in self.new.slots name.now
            ≡ place_in self.old.slots name.now) }
        ensures handed { IfOk result (λ disk. handed_in self.new.slots name.now
            ≡ disk.plan.faults) }
        ensures handed_before { OnErr result (handed_in self.new.slots name.now
            ≡ handed_in self.old.slots name.now) }
        ensures others_handed { (other : List ℕ) → other ≢ name.now
            → handed_in self.new.slots other ≡ handed_in self.old.slots other }
        ensures after { self.new
            ≡ record
            (after_ask (fails_make self.old name.now) self.old) { slots = self.new.slots } }
        ensures old_alone { IsErrOf result ShelfFault.NoSuch → ⊥ }
        ensures counted { IsErrOf result ShelfFault.Failed
            → FaultCountRose self.old.faults self.new.faults }
        ensures never_falls { self.old.faults ≤ self.new.faults }
    {
        self.asked = self.asked.saturating_add(1);
        if self.slots.has(name) {
            return Err(ShelfFault::Exists);
        }
        if self.fails.contains(&self.asked) {
            self.faults = self.faults.saturating_add(1);
            return Err(ShelfFault::Failed);
        }
        let disk = MemDisk::new(alloc, blocks, self.calls)?;
        self.slots.add(alloc, name)?;
        Ok(disk)
    }

    fn close(&mut self, name: &[u8], disk: MemDisk)
        requires { place_in self.old.slots name.now ≡ Out }
        ensures stands { place_in self.new.slots name.now ≡ Standing disk }
        ensures others { (other : List ℕ) → other ≢ name.now
            → place_in self.new.slots other ≡ place_in self.old.slots other }
        ensures others_handed { (other : List ℕ) → other ≢ name.now
            → handed_in self.new.slots other ≡ handed_in self.old.slots other }
        ensures after { self.new
            ≡ record self.old { slots = self.new.slots; faults = self.new.faults } }
        ensures faults { self.new.faults
            ≡ faults_with self.old.faults
            (faults_since (handed_in self.old.slots name.now) disk.plan.faults) }
        ensures counted { FaultCountRose (handed_in self.old.slots name.now) disk.plan.faults
            → FaultCountRose self.old.faults self.new.faults }
        ensures never_falls { self.old.faults ≤ self.new.faults }
    {
        let faults = faults_since(self.slots.handed(name), disk.faults());
        self.faults = self.faults.saturating_add(faults);
        self.slots.put(name, disk);
    }

    ghost disks_tell = { λ told. refl };
}

#[cfg(test)]
mod tests {
    use super::*;
    use crate::Disk;
    use casper_words::Block;
    use std::test::Fail;

    /// What an opening answers, whose disk is dropped.
    fn refusal(alloc: Global, shelf: &mut MemShelf, name: &[u8]) -> Option<ShelfFault> {
        shelf.open(alloc, name).err()
    }

    /// Makes a disk of two blocks, writes this byte at the start of the second, and closes it.
    fn make(alloc: Global, shelf: &mut MemShelf, name: &[u8], byte: u8) -> Result<(), Fail> {
        let mut block = Block::zero(alloc)?;
        block.put(0, &[byte]);
        let Ok(mut disk) = shelf.make(alloc, name, 2) else {
            return Err("make")?;
        };
        disk.write(1, &block)?;
        shelf.close(name, disk);
        Ok(())
    }

    /// The byte at the start of the second block of what is opened.
    fn byte_of(alloc: Global, shelf: &mut MemShelf, name: &[u8]) -> Result<u8, Fail> {
        let mut block = Block::zero(alloc)?;
        let Ok(mut disk) = shelf.open(alloc, name) else {
            return Err("open")?;
        };
        if disk.blocks() < 2 {
            return Err("short")?;
        }
        disk.read(1, &mut block)?;
        Ok(block.bytes()[0])
    }

    #[test]
    fn opens_what_was_closed(rt: HostRuntime) -> Result<(), Fail> {
        let alloc = rt.alloc();
        let mut shelf = MemShelf::new(alloc, 1, &[])?;
        make(alloc, &mut shelf, b"a", 7)?;
        assert_eq!(rt; byte_of(alloc, &mut shelf, b"a")?, 7);
        Ok(())
    }

    /// The second call that comes to the listed ones is to fail.
    #[test]
    fn refuses_by_names_and_then_by_the_list(rt: HostRuntime) -> Result<(), Fail> {
        let alloc = rt.alloc();
        let mut shelf = MemShelf::new(alloc, 1, &[3])?;
        make(alloc, &mut shelf, b"a", 7)?;
        let missing = refusal(alloc, &mut shelf, b"b");
        let failed = refusal(alloc, &mut shelf, b"a");
        let exists = shelf.make(alloc, b"a", 2).err();
        let want = [ShelfFault::NoSuch, ShelfFault::Failed, ShelfFault::Exists];
        assert_eq!(rt; [missing, failed, exists], want.map(Some));
        Ok(())
    }
}
