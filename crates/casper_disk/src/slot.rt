ghost use Rattle.std.specs.Prelude.{◌≡◌, None, Some, is_some, IfOk, IfSome};
ghost use Rattle.std.specs.Str.{bytes_eq};

use crate::MemDisk;
use casper_words::Memory;
use std::alloc::Global;
use std::marker::Model;

/// A name of a shelf in memory, with its disk where that is not out, and the faults that its disk had when it was last handed out.
#[derive(Drop)]
pub(crate) struct Slot {
    name: Vec<u8>,
    disk: Option<MemDisk>,
    handed: u64,
}

impl Model for Slot {
    ghost use Rattle.casper_disk.specs.Slots.{Stored};

    ghost Value = { Stored };

    ghost view = { λ own. record { name = own.name.items; disk = own.disk; handed = own.handed } };
}

impl Slot {
    /// A name whose disk is out, handed out with no fault.
    pub(crate) fn out(alloc: Global, name: &[u8]) -> Result<Slot, Memory>
        ensures { IfOk result (λ slot. slot ≡ record { name = name.now; disk = None; handed = 0 }) }
    {
        let name = Vec::from_slice(alloc, name)?;
        Ok(Slot {
            name,
            disk: None,
            handed: 0,
        })
    }

    pub(crate) fn is_named(&self, name: &[u8]) -> bool
        ensures { result ≡ bytes_eq self.now.name name.now }
    {
        self.name.as_slice() == name
    }

    pub(crate) fn is_standing(&self) -> bool
        ensures { result ≡ is_some self.now.disk }
    {
        self.disk.is_some()
    }

    /// How many faults the disk had when it was last handed out.
    pub(crate) fn handed(&self) -> u64
        ensures { result ≡ self.now.handed }
    {
        self.handed
    }

    /// Takes the disk out.
    pub(crate) fn take(&mut self) -> Option<MemDisk>
        ensures disk { result ≡ self.old.disk }
        ensures name { self.new.name ≡ self.old.name }
        ensures out { self.new.disk ≡ None }
        ensures handed { IfSome result (λ disk. self.new.handed ≡ disk.plan.faults) }
    {
        if let Some(disk) = &self.disk {
            self.handed = disk.faults();
        }
        self.disk.take()
    }

    /// Puts a disk in.
    pub(crate) fn put(&mut self, disk: MemDisk)
        ensures { self.new
            ≡ record { name = self.old.name; disk = Some disk; handed = self.old.handed } }
    {
        self.disk = Some(disk);
    }
}
