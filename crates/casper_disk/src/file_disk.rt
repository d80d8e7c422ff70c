ghost use Rattle.std.specs.Prelude.{◌≡◌, ◌*◌, ◌≤◌, ℕ, Bool, false, List, [], ⊤, is_ok, IfOk, OnErr};
ghost use Rattle.casper_words.specs.Count.{FaultCountRose};
ghost use Rattle.casper_disk.specs.Disk.{none_loose, untold};
ghost use Rattle.casper_disk.specs.LeadsTo.{FiledLeadsTo, filed_itself, filed_on};

use crate::{Disk, DiskFault};
use casper_words::Block;
use std::fs::{File, OpenFile};
use std::io;
use std::marker::Model;
use std::os::unix::fs::FileExt;

/// A disk over a file of the system. It has as many blocks as the file had whole ones when it was opened. It tells
/// nothing of them. A read or a write that the system cuts short goes on after what was done, and one that a signal interrupts is
/// tried again. Contracts see the number of blocks and the count of the calls that failed.
#[derive(Drop)]
pub struct FileDisk<F = File> {
    file: F,
    blocks: u32,
    faults: u64,
}

impl<F> Model for FileDisk<F> {
    ghost use Rattle.casper_disk.specs.File.{Filed};

    ghost Value = { Filed };

    ghost view = { λ own. record { size = own.blocks; faults = own.faults } };
}

impl FileDisk<File> {
    /// A disk over the file, none of whose calls has failed. Of a file of more than 2^32 - 1 blocks it has the first ones.
    pub fn new(file: File) -> io::Result<FileDisk<File>>
        ensures { IfOk result (λ disk. disk.faults ≡ 0) }
    {
        let whole = file.metadata()?.len() / u64::from(Block::BYTES);
        let blocks = u32::try_from(whole).unwrap_or(u32::MAX);
        Ok(FileDisk::over(file, blocks))
    }
}

impl<F> FileDisk<F> {
    /// A disk of as many blocks over the file, none of whose calls has failed.
    pub(crate) fn over(file: F, blocks: u32) -> FileDisk<F>
        ensures size { result.size ≡ blocks }
        ensures faults { result.faults ≡ 0 }
    {
        FileDisk {
            file,
            blocks,
            faults: 0,
        }
    }

    /// How many calls failed.
    pub fn faults(&self) -> u64
        ensures { result ≡ self.now.faults }
    {
        self.faults
    }

    /// Hands the answer of the system on, and counts it where it is a fault.
    fn note(&mut self, answer: io::Result<()>) -> Result<(), DiskFault>
        ensures same { is_ok result ≡ is_ok answer }
        ensures size { self.new.size ≡ self.old.size }
        ensures counted { OnErr result (FaultCountRose self.old.faults self.new.faults) }
        ensures never_falls { self.old.faults ≤ self.new.faults }
    {
        match answer {
            Ok(()) => Ok(()),
            Err(_error) => {
                self.faults = self.faults.saturating_add(1);
                Err(DiskFault::Failed)
            }
        }
    }
}

/// The byte of the file at which a block begins.
pub(crate) fn offset(at: u32) -> u64
    ensures { result ≡ at * 4096 }
{
    u64::from(at) * u64::from(Block::BYTES)
}

impl<F: FileExt + OpenFile> Disk for FileDisk<F> {
    ghost tells = { false };

    ghost size = { λ disk. disk.size };

    ghost content = { λ _. [] };

    ghost loose = { λ _. none_loose };

    ghost images_now = { λ _ _. ⊤ };

    ghost moment = { λ _. 0 };

    ghost images_since = { λ _ _ _. ⊤ };

    ghost faults = { λ disk. disk.faults };

    ghost leads_to = { FiledLeadsTo };

    fn blocks(&self) -> u32 {
        self.blocks
    }

    fn read(&mut self, at: u32, into: &mut Block) -> Result<(), DiskFault> {
        let mut bytes = [0; 4096];
        let answer = self.file.read_exact_at(&mut bytes, offset(at));
        self.note(answer)?;
        into.put(0, &bytes);
        Ok(())
    }

    fn write(&mut self, at: u32, from: &Block) -> Result<(), DiskFault> {
        let answer = self.file.write_all_at(from.bytes(), offset(at));
        self.note(answer)
    }

    fn sync(&mut self) -> Result<(), DiskFault> {
        let answer = self.file.sync_all();
        self.note(answer)
    }

    ghost sized = { λ disk told. absurd (untold told) };

    ghost content_is_image = { λ disk told. absurd (untold told) };

    ghost images_agree = { λ disk image told now. absurd (untold told) };

    ghost now_counts = { λ disk past image told early now. absurd (untold told) };

    ghost only_now = { λ disk image told since. absurd (untold told) };

    ghost earlier_counts = { λ disk earlier later image told order since. absurd (untold told) };

    ghost leads_to_itself = { filed_itself };

    ghost leads_on = { filed_on };
}

#[cfg(test)]
mod tests {
    use super::*;
    use casper_words::Memory;
    use std::alloc::Global;
    use std::cell::Cell;
    use std::fs::{self, Metadata};
    use std::io::ErrorKind;
    use std::rt::Files;
    use std::test::Fail;

    /// A file that interrupts every second read and write, does at most 1,000 bytes in one, and has as many syncs that fail.
    #[derive(Drop)]
    struct RoughFile {
        file: File,
        interrupts: Cell<bool>,
        failing_syncs: Cell<u32>,
    }

    impl RoughFile {
        fn interrupt(&self) -> io::Result<()> {
            self.interrupts.set(!self.interrupts.get());
            if self.interrupts.get() {
                return Err(ErrorKind::Interrupted.into());
            }
            Ok(())
        }
    }

    impl FileExt for RoughFile {
        fn read_at(&self, buf: &mut [u8], offset: u64) -> io::Result<usize> {
            self.interrupt()?;
            let most = buf.len().min(1000);
            self.file.read_at(&mut buf[..most], offset)
        }

        fn write_at(&self, buf: &[u8], offset: u64) -> io::Result<usize> {
            self.interrupt()?;
            let most = buf.len().min(1000);
            self.file.write_at(&buf[..most], offset)
        }
    }

    impl OpenFile for RoughFile {
        fn metadata(&self) -> io::Result<Metadata> {
            self.file.metadata()
        }

        fn set_len(&self, size: u64) -> io::Result<()> {
            self.file.set_len(size)
        }

        fn sync_all(&self) -> io::Result<()> {
            let failing = self.failing_syncs.get();
            if failing > 0 {
                self.failing_syncs.set(failing - 1);
                return Err(ErrorKind::Other.into());
            }
            self.file.sync_all()
        }

        fn sync_data(&self) -> io::Result<()> {
            self.sync_all()
        }
    }

    /// A block of bytes that are not the same at any two neighbouring places.
    fn filled(alloc: Global, step: u8) -> Result<Block, Memory> {
        let mut block = Block::zero(alloc)?;
        let mut byte = 0u8;
        for at in 0..4096 {
            byte = byte.wrapping_add(step);
            block.put(at, &[byte]);
        }
        Ok(block)
    }

    /// A disk of two blocks over a rough file, of which so many syncs fail.
    fn rough<R: Files<File = File>>(
        rt: &R,
        path: &str,
        failing_syncs: u32,
    ) -> io::Result<FileDisk<RoughFile>> {
        let mut options = fs::OpenOptions::new();
        let options = options.read(true).write(true).create(true).truncate(true);
        let rough = RoughFile {
            file: options.open(rt, path)?,
            interrupts: Cell::new(false),
            failing_syncs: Cell::new(failing_syncs),
        };
        Ok(FileDisk::over(rough, 2))
    }

    /// Writes two blocks, the second one first.
    fn write_two<D: Disk>(disk: &mut D, blocks: [&Block; 2]) -> Result<(), DiskFault> {
        if disk.blocks() < 2 {
            return Err(DiskFault::Failed);
        }
        let [first, second] = blocks;
        disk.write(1, second)?;
        disk.write(0, first)
    }

    /// Whether a block of a disk is this one.
    fn has<D: Disk>(alloc: Global, disk: &mut D, at: u32, block: &Block) -> Result<bool, Fail> {
        if at >= disk.blocks() {
            return Err("short")?;
        }
        let mut back = Block::zero(alloc)?;
        disk.read(at, &mut back)?;
        Ok(back.bytes() == block.bytes())
    }

    #[test]
    fn two_blocks_of_a_rough_file(rt: HostRuntime) -> Result<(), Fail> {
        let path = "casper_disk_rough_test";
        let mut disk = rough(&rt, path, 0)?;
        let first = filled(rt.alloc(), 3)?;
        let second = filled(rt.alloc(), 7)?;
        write_two(&mut disk, [&first, &second])?;
        let kept = [
            has(rt.alloc(), &mut disk, 0, &first)?,
            has(rt.alloc(), &mut disk, 1, &second)?,
        ];
        fs::remove_file(&rt, path)?;
        assert_eq!(rt; kept, [true; 2]);
        Ok(())
    }

    #[test]
    fn counts_a_failing_sync(rt: HostRuntime) -> Result<(), Fail> {
        let path = "casper_disk_syncs_test";
        let mut disk = rough(&rt, path, 1)?;
        let answers = [disk.sync(), disk.sync()];
        fs::remove_file(&rt, path)?;
        let want = ([Err(DiskFault::Failed), Ok(())], 1);
        assert_eq!(rt; (answers, disk.faults()), want);
        Ok(())
    }

    /// What a read of the first block answers.
    fn read_first<D: Disk>(alloc: Global, disk: &mut D) -> Result<Result<(), DiskFault>, Fail> {
        if disk.blocks() < 1 {
            return Err("short")?;
        }
        let mut block = Block::zero(alloc)?;
        Ok(disk.read(0, &mut block))
    }

    #[test]
    fn a_file_that_was_cut_fails(rt: HostRuntime) -> Result<(), Fail> {
        let path = "casper_disk_file_test";
        let file = fs::create(&rt, path)?;
        file.set_len(8191)?;
        let mut disk = FileDisk::new(fs::open(&rt, path)?)?;
        file.set_len(0)?;
        let answer = read_first(rt.alloc(), &mut disk)?;
        fs::remove_file(&rt, path)?;
        assert_eq!(rt; (answer, disk.blocks()), (Err(DiskFault::Failed), 1));
        Ok(())
    }
}
