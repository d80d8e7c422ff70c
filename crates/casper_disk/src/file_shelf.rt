ghost use Rattle.std.specs.Prelude.{◌≡◌, ◌≤◌, ℕ, Bool, false, IfOk};
ghost use Rattle.casper_words.specs.Count.{FaultCountRose};
ghost use Rattle.casper_disk.specs.Disk.{untold};
ghost use Rattle.casper_disk.specs.Place.{Missing};

use crate::handed::faults_since;
use crate::host_file::{open_folder, take_over, write_zeros};
use crate::{FileDisk, Shelf, ShelfFault};
use std::alloc::Global;
use std::fs::{self, File, OpenOptions};
use std::io::{self, ErrorKind};
use std::marker::Model;
use std::rt::Files;

/// A shelf over the files of the system, by their paths. It tells nothing of them. A file that another process, or another disk of
/// this one, has open is not handed out: that is a failed call. Contracts see the count of the calls that failed.
#[derive(Drop)]
pub struct FileShelf<R> {
    rt: R,
    faults: u64,
}

impl<R> Model for FileShelf<R> {
    ghost use Rattle.std.specs.Prelude.{ℕ};

    ghost Value = { ℕ };

    ghost view = { λ own. own.faults };
}

/// A name as a path.
fn path_of(name: &[u8]) -> io::Result<&str> {
    match str::from_utf8(name) {
        Ok(path) => Ok(path),
        Err(_error) => Err(ErrorKind::InvalidInput.into()),
    }
}

/// The disk over the file at a path, which no other process has. What earlier processes wrote is settled first.
fn open_file<R: Files<File = File>>(rt: &R, name: &[u8]) -> io::Result<FileDisk>
    ensures { IfOk result (λ disk. disk.faults ≡ 0) }
{
    let path = path_of(name)?;
    let file = OpenOptions::new().read(true).write(true).open(rt, path)?;
    let file = take_over(file)?;
    file.sync_all()?;
    FileDisk::new(file)
}

/// A disk of zero blocks over a file that was just made at a path.
fn fill_file<R: Files<File = File>>(
    rt: &R,
    path: &str,
    file: File,
    blocks: u32,
) -> io::Result<FileDisk>
    ensures { IfOk result (λ disk. disk.faults ≡ 0) }
{
    let file = take_over(file)?;
    write_zeros(&file, blocks)?;
    file.sync_all()?;
    open_folder(rt, path)?.sync_all()?;
    FileDisk::new(file)
}

impl<R: Files<File = File>> FileShelf<R> {
    /// A shelf over the files that the handle reaches, none of whose calls has failed.
    pub fn new(rt: R) -> FileShelf<R>
        ensures { result ≡ 0 }
    {
        FileShelf { rt, faults: 0 }
    }

    /// Removes a file, and counts a fault where that fails.
    fn remove(&mut self, path: &str)
        ensures { self.old ≤ self.new }
    {
        if fs::remove_file(&self.rt, path).is_err() {
            self.faults = self.faults.saturating_add(1);
        }
    }

    /// Counts a fault, and gives its answer.
    fn fault(&mut self) -> ShelfFault
        ensures failed { result ≡ ShelfFault.Failed }
        ensures counted { FaultCountRose self.old self.new }
        ensures never_falls { self.old ≤ self.new }
    {
        self.faults = self.faults.saturating_add(1);
        ShelfFault::Failed
    }
}

impl<R: Files<File = File>> Shelf for FileShelf<R> {
    type Disk = FileDisk;

    ghost tells = { false };

    ghost place = { λ _ _. Missing };

    ghost handed = { λ _ _. 0 };

    ghost faults = { λ faults. faults };

    fn open(&mut self, _alloc: Global, name: &[u8]) -> Result<FileDisk, ShelfFault> {
        match open_file(&self.rt, name) {
            Ok(disk) => Ok(disk),
            Err(error) if error.kind() == ErrorKind::NotFound => Err(ShelfFault::NoSuch),
            Err(_error) => Err(self.fault()),
        }
    }

    /// Writes the zeros, so that a full device is met here. A file whose making fails after its creation is removed again. Where
    /// that fails too, the name stays, and this counts as a second fault.
    fn make(&mut self, _alloc: Global, name: &[u8], blocks: u32) -> Result<FileDisk, ShelfFault> {
        let Ok(path) = path_of(name) else {
            return Err(self.fault());
        };
        let file = match File::create_new(&self.rt, path) {
            Ok(file) => file,
            Err(error) if error.kind() == ErrorKind::AlreadyExists => {
                return Err(ShelfFault::Exists);
            }
            Err(_error) => return Err(self.fault()),
        };
        match fill_file(&self.rt, path, file, blocks) {
            Ok(disk) => Ok(disk),
            Err(_error) => {
                self.remove(path);
                Err(self.fault())
            }
        }
    }

    fn close(&mut self, _name: &[u8], disk: FileDisk) {
        self.faults = self.faults.saturating_add(faults_since(0, disk.faults()));
    }

    ghost disks_tell = { λ told. absurd (untold told) };
}

#[cfg(test)]
mod tests {
    use super::*;
    use crate::Disk;
    use casper_words::Block;
    use std::test::Fail;

    /// Makes a file of two blocks, and writes this byte at the end of the second. What an opening answers before it is closed.
    fn make<R: Files<File = File>>(
        alloc: Global,
        shelf: &mut FileShelf<R>,
        name: &[u8],
        byte: u8,
    ) -> Result<Option<ShelfFault>, Fail> {
        let mut block = Block::zero(alloc)?;
        block.put(4095, &[byte]);
        let Ok(mut disk) = shelf.make(alloc, name, 2) else {
            return Err("make")?;
        };
        if disk.blocks() != 2 {
            return Err("blocks")?;
        }
        disk.write(1, &block)?;
        disk.sync()?;
        let taken = shelf.open(alloc, name).err();
        shelf.close(name, disk);
        Ok(taken)
    }

    /// The byte at the end of a block of the file.
    fn byte_of<R: Files<File = File>>(
        alloc: Global,
        shelf: &mut FileShelf<R>,
        name: &[u8],
        at: u32,
    ) -> Result<u8, Fail> {
        let mut block = Block::zero(alloc)?;
        let Ok(mut disk) = shelf.open(alloc, name) else {
            return Err("open")?;
        };
        if at >= disk.blocks() {
            return Err("blocks")?;
        }
        disk.read(at, &mut block)?;
        Ok(block.bytes()[4095])
    }

    #[test]
    fn keeps_files(rt: HostRuntime) -> Result<(), Fail> {
        let path = "casper_disk_shelf_test";
        let name = path.as_bytes();
        let alloc = rt.alloc();
        let _old = fs::remove_file(&rt, path);
        let mut shelf = FileShelf::new(rt.clone()?);
        let taken = make(alloc, &mut shelf, name, 7)?;
        let first = byte_of(alloc, &mut shelf, name, 0)?;
        let second = byte_of(alloc, &mut shelf, name, 1)?;
        fs::remove_file(&rt, path)?;
        assert_eq!(rt; (taken, first, second), (Some(ShelfFault::Failed), 0, 7));
        Ok(())
    }

    /// What a making and an opening answer, where the file is there or not.
    fn answers<R: Files<File = File>>(
        alloc: Global,
        shelf: &mut FileShelf<R>,
        name: &[u8],
    ) -> [Option<ShelfFault>; 2] {
        let made = shelf.make(alloc, name, 1).err();
        [made, shelf.open(alloc, name).err()]
    }

    #[test]
    fn knows_what_is_there(rt: HostRuntime) -> Result<(), Fail> {
        let path = "casper_disk_names_test";
        let name = path.as_bytes();
        let _old = fs::remove_file(&rt, path);
        let mut shelf = FileShelf::new(rt.clone()?);
        let missing = shelf.open(rt.alloc(), name).err();
        let _made = answers(rt.alloc(), &mut shelf, name);
        let there = answers(rt.alloc(), &mut shelf, name);
        fs::remove_file(&rt, path)?;
        let want = (Some(ShelfFault::NoSuch), [Some(ShelfFault::Exists), None]);
        assert_eq!(rt; (missing, there), want);
        Ok(())
    }
}
