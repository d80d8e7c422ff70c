ghost use Rattle.std.specs.Prelude.{◌≡◌, ◌≤◌, ℕ, Bool, false, List, [], ⊤, is_ok, OnErr};
ghost use Rattle.casper_words.specs.Count.{FaultCountRose};
ghost use Rattle.casper_disk.specs.Disk.{none_loose, untold};

use crate::tests::opening::refusal;
use crate::tests::{commit_three, commit_to, formatted, found, opened};
use casper_disk::{CommitFault, Disk, DiskFault, FileDisk, FileShelf, Shelf};
use casper_root::OpenFault;
use casper_words::Block;
use std::alloc::Global;
use std::fs::{self, File};
use std::process::Abort;
use std::rt::Files;
use std::test::Fail;

/// A disk over a file of a process that ends after so many writes and syncs: no later one reaches the file.
#[derive(Drop)]
struct Ending {
    disk: FileDisk,
    calls: u32,
    faults: u64,
}

impl Ending {
    /// Hands an answer on, and counts it where it is a fault.
    fn note(&mut self, answer: Result<(), DiskFault>) -> Result<(), DiskFault>
        ensures same { result ≡ answer }
        ensures disk { self.new.disk ≡ self.old.disk }
        ensures counted { OnErr result (FaultCountRose self.old.faults self.new.faults) }
        ensures never_falls { self.old.faults ≤ self.new.faults }
    {
        if answer.is_err() {
            self.faults = self.faults.saturating_add(1);
        }
        answer
    }

    /// Whether the process goes on with this call.
    fn goes_on(&mut self) -> bool
        ensures disk { self.new.disk ≡ self.old.disk }
        ensures faults { self.new.faults ≡ self.old.faults }
    {
        if self.calls == 0 {
            return false;
        }
        self.calls -= 1;
        true
    }
}

impl Disk for Ending {
    ghost tells = { false };

    ghost size = { λ ending. ending.disk.size };

    ghost content = { λ _. [] };

    ghost loose = { λ _. none_loose };

    ghost images_now = { λ _ _. ⊤ };

    ghost moment = { λ _. 0 };

    ghost images_since = { λ _ _ _. ⊤ };

    ghost faults = { λ ending. ending.faults };

    ghost leads_to = { λ _ _. ⊤ };

    fn blocks(&self) -> u32 {
        self.disk.blocks()
    }

    fn read(&mut self, at: u32, into: &mut Block) -> Result<(), DiskFault> {
        let answer = self.disk.read(at, into);
        self.note(answer)
    }

    fn write(&mut self, at: u32, from: &Block) -> Result<(), DiskFault> {
        if !self.goes_on() {
            return self.note(Err(DiskFault::Failed));
        }
        let answer = self.disk.write(at, from);
        self.note(answer)
    }

    fn sync(&mut self) -> Result<(), DiskFault> {
        if !self.goes_on() {
            return self.note(Err(DiskFault::Failed));
        }
        let answer = self.disk.sync();
        self.note(answer)
    }

    ghost sized = { λ disk told. absurd (untold told) };

    ghost content_is_image = { λ disk told. absurd (untold told) };

    ghost images_agree = { λ disk image told now. absurd (untold told) };

    ghost now_counts = { λ disk past image told early now. absurd (untold told) };

    ghost only_now = { λ disk image told since. absurd (untold told) };

    ghost earlier_counts = { λ disk earlier later image told order since. absurd (untold told) };

    ghost leads_to_itself = { λ disk. tt };

    ghost leads_on = { λ first second third early late. tt };
}

/// The disk over the file of this name.
fn file_disk<R: Files<File = File>>(
    alloc: Global,
    shelf: &mut FileShelf<R>,
    name: &[u8],
) -> Result<FileDisk, Fail> {
    match shelf.open(alloc, name) {
        Ok(disk) => Ok(disk),
        Err(_) => Err("open")?,
    }
}

/// The disk over a new file of this name, of 14 blocks.
fn new_disk<R: Files<File = File>>(
    alloc: Global,
    shelf: &mut FileShelf<R>,
    name: &[u8],
) -> Result<FileDisk, Fail> {
    match shelf.make(alloc, name, 14) {
        Ok(disk) => Ok(disk),
        Err(_) => Err("make")?,
    }
}

/// Makes a store of 1,024 pages and 9 frames on a disk, and commits once.
fn committed_once<D: Disk + Drop>(rt: &impl Abort, alloc: Global, disk: D) -> Result<D, Fail> {
    let mut stable = formatted(alloc, disk, 1024, 9)?;
    commit_to(rt, alloc, &mut stable, 1, 2)?;
    Ok(stable.into_disk())
}

/// Opens a store and commits once more: what that answers, and the disk after it.
fn committed_again<D: Disk + Drop>(
    rt: &impl Abort,
    alloc: Global,
    disk: D,
) -> Result<(Result<u64, CommitFault>, D), Fail> {
    let mut stable = opened(alloc, disk)?;
    let answer = commit_three(rt, alloc, &mut stable, 2)?;
    Ok((answer, stable.into_disk()))
}

/// Makes a store in a file of this name, and commits once.
fn make<R: Files<File = File>>(
    rt: &impl Abort,
    alloc: Global,
    shelf: &mut FileShelf<R>,
    name: &[u8],
) -> Result<(), Fail> {
    let disk = new_disk(alloc, shelf, name)?;
    let disk = committed_once(rt, alloc, disk)?;
    shelf.close(name, disk);
    Ok(())
}

/// What the second commit answers in a process that ends after so many of its calls. The opening syncs once before them.
fn commit_ending<R: Files<File = File>>(
    rt: &impl Abort,
    alloc: Global,
    shelf: &mut FileShelf<R>,
    name: &[u8],
    calls: u32,
) -> Result<Result<u64, CommitFault>, Fail> {
    let disk = Ending {
        disk: file_disk(alloc, shelf, name)?,
        calls: calls.saturating_add(1),
        faults: 0,
    };
    let (answer, ended) = committed_again(rt, alloc, disk)?;
    shelf.close(name, ended.disk);
    Ok(answer)
}

/// The second commit makes ten calls. A process that ends before the ninth leaves the first commit, and one that ends after it the
/// second, since the system keeps what was written.
#[test]
fn a_process_ends_between_two_calls(rt: HostRuntime) -> Result<(), Fail> {
    let path = "casper_stable_file_test";
    let name = path.as_bytes();
    let alloc = rt.alloc();
    let mut shelf = FileShelf::new(rt.clone()?);
    for calls in 0_u32..11 {
        let _old = fs::remove_file(&rt, path);
        make(&rt, alloc, &mut shelf, name)?;
        let answer = commit_ending(&rt, alloc, &mut shelf, name, calls)?;
        let left = found(&rt, alloc, file_disk(alloc, &mut shelf, name)?)?;
        let want = match calls {
            0..=7 => (Err(CommitFault::Disk), (2, 1)),
            8 => (Err(CommitFault::Doubt), (2, 1)),
            9 => (Err(CommitFault::Doubt), (3, 2)),
            _ => (Ok(3), (3, 2)),
        };
        assert_eq!(rt; (answer, left), want, "{calls}");
    }
    fs::remove_file(&rt, path)?;
    Ok(())
}

#[test]
fn a_short_file_is_refused(rt: HostRuntime) -> Result<(), Fail> {
    let path = "casper_stable_short_test";
    fs::create(&rt, path)?.set_len(4095)?;
    let disk = FileDisk::new(fs::open(&rt, path)?)?;
    let short = OpenFault::Short { need: 5, have: 0 };
    assert_eq!(rt; refusal(rt.alloc(), disk), Some(short));
    fs::remove_file(&rt, path)?;
    Ok(())
}
