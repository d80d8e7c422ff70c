ghost use Rattle.std.specs.Prelude.{◌≡◌, ◌≢◌, ℕ, ◌<◌, List, [], true, false, length, slice_index_or, IsFalse, IfSome, OnSome, IfNone, OnOk, OnErr};
ghost use Rattle.casper_disk.specs.Place.{Missing, Out, Standing, is_standing, is_there};
ghost use Rattle.casper_disk.specs.Slots.{place_in, handed_in, is_named_at};

use crate::MemDisk;
use crate::slot::Slot;
use casper_words::Memory;
use std::alloc::Global;
use std::marker::Model;

/// The names of a shelf in memory.
#[derive(Drop)]
pub(crate) struct Slots {
    slots: Vec<Slot>,
}

impl Model for Slots {
    ghost use Rattle.std.specs.Prelude.{List};
    ghost use Rattle.casper_disk.specs.Slots.{Stored};

    ghost Value = { List Stored };

    ghost view = { λ own. own.slots.items };
}

/// The place of the first slot with the name.
fn find(slots: &Vec<Slot>, name: &[u8]) -> Option<usize>
    ensures within { IfSome result (λ at. at < length slots.now.items) }
    ensures named { IfSome result (λ at. is_named_at slots.now.items name.now at ≡ true) }
    ensures first { IfSome result (λ at. (before : ℕ) → before < at
        → is_named_at slots.now.items name.now before ≡ false) }
    ensures none { IfNone result ((at : ℕ) → at < length slots.now.items
        → is_named_at slots.now.items name.now at ≡ false) }
{
    for (at, slot) in slots.iter().enumerate() {
        if slot.is_named(name) {
            return Some(at);
        }
    }
    None
}

impl Slots {
    /// No name.
    pub(crate) fn new(alloc: Global) -> Slots
        ensures { result ≡ [] }
    {
        Slots {
            slots: Vec::new(alloc),
        }
    }

    /// Whether the name is there.
    pub(crate) fn has(&self, name: &[u8]) -> bool
        ensures { result ≡ is_there (place_in self.now name.now) }
    {
        match find(&self.slots, name) {
            Some(_at) => true,
            None => false,
        }
    }

    /// Whether a disk stands under the name.
    pub(crate) fn has_standing(&self, name: &[u8]) -> bool
        ensures { result ≡ is_standing (place_in self.now name.now) }
    {
        match find(&self.slots, name) {
            Some(at) => {
                let slot = &self.slots[at];
                slot.is_standing()
            }
            None => false,
        }
    }

    /// How many faults the disk of the name had when it was last handed out.
    pub(crate) fn handed(&self, name: &[u8]) -> u64
        ensures { result ≡ handed_in self.now name.now }
    {
        match find(&self.slots, name) {
            Some(at) => {
                let slot = &self.slots[at];
                slot.handed()
            }
            None => 0,
        }
    }

    /// Takes out the disk that stands under the name.
    pub(crate) fn take(&mut self, name: &[u8]) -> Option<MemDisk>
        ensures stood { IfSome result (λ disk. place_in self.old name.now ≡ Standing disk) }
        ensures none { IfNone result (IsFalse (is_standing (place_in self.old name.now))) }
        ensures out { OnSome result (place_in self.new name.now ≡ Out) }
        ensures others { (other : List ℕ) → other ≢ name.now
            → place_in self.new other ≡ place_in self.old other }
        ensures handed { IfSome result (λ disk. handed_in self.new name.now ≡ disk.plan.faults) }
        ensures others_handed { (other : List ℕ) → other ≢ name.now
            → handed_in self.new other ≡ handed_in self.old other }
    {
        match find(&self.slots, name) {
            Some(at) => {
                let slot = &mut self.slots[at];
                slot.take()
            }
            None => None,
        }
    }

    /// Puts the disk of a name back that is out.
    pub(crate) fn put(&mut self, name: &[u8], disk: MemDisk)
        requires { place_in self.old name.now ≡ Out }
        ensures stands { place_in self.new name.now ≡ Standing disk }
        ensures others { (other : List ℕ) → other ≢ name.now
            → place_in self.new other ≡ place_in self.old other }
        ensures handed { (other : List ℕ) → handed_in self.new other ≡ handed_in self.old other }
    {
        if let Some(at) = find(&self.slots, name) {
            let slot = &mut self.slots[at];
            slot.put(disk);
        }
    }

    /// Adds a name whose disk is out. After Memory nothing has changed.
    pub(crate) fn add(&mut self, alloc: Global, name: &[u8]) -> Result<(), Memory>
        requires { place_in self.old name.now ≡ Missing }
        ensures out { OnOk result (place_in self.new name.now ≡ Out) }
        ensures others { (other : List ℕ) → other ≢ name.now
            → place_in self.new other ≡ place_in self.old other }
        ensures handed { OnOk result (handed_in self.new name.now ≡ 0) }
        ensures others_handed { (other : List ℕ) → other ≢ name.now
            → handed_in self.new other ≡ handed_in self.old other }
        ensures err { OnErr result (self.new ≡ self.old) }
    {
        let slot = Slot::out(alloc, name)?;
        self.slots.push(slot)?;
        Ok(())
    }
}
