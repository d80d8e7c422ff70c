ghost use Rattle.std.specs.Prelude.{◌≡◌, ◌<◌, [], ◌∷◌, ◌++◌, length, vec_capacity, IfOk};

use crate::{Disk, DiskFault};
use casper_words::{Block, Memory};
use std::alloc::Global;

/// A call of a disk.
#[derive(Clone, Copy, Debug, PartialEq, Eq)]
pub enum Call {
    Read(u32),
    Write(u32),
    Sync,
}

/// A disk with a note of each of its calls, in order, as many as there is room for. Else it is the disk that it was made of.
#[derive(Drop)]
pub struct Noted<D> {
    pub disk: D,
    notes: Vec<Call>,
}

impl<D: Drop> Noted<D> {
    /// The disk, of whose calls none is noted yet, with room for some notes.
    pub fn new(alloc: Global, disk: D, most: usize) -> Result<Noted<D>, Memory>
        ensures disk { IfOk result (λ noted. noted.disk ≡ disk) }
        ensures none { IfOk result (λ noted. noted.notes.items ≡ []) }
    {
        let notes = Vec::with_capacity(alloc, most)?;
        Ok(Noted { disk, notes })
    }
}

impl<D> Noted<D> {
    /// The calls that were noted.
    pub fn calls(&self) -> &[Call]
        ensures { result.now ≡ self.now.notes.items }
    {
        self.notes.as_slice()
    }

    /// Forgets the notes.
    pub fn clear(&mut self)
        ensures disk { self.new.disk ≡ self.old.disk }
        ensures none { self.new.notes.items ≡ [] }
    {
        self.notes.clear();
    }

    fn note(&mut self, call: Call)
        ensures disk { self.new.disk ≡ self.old.disk }
        ensures noted { length self.old.notes.items < vec_capacity self.old.notes
            → self.new.notes.items ≡ self.old.notes.items ++ call ∷ [] }
    {
        if self.notes.len() < self.notes.capacity() {
            self.notes.push_reserved(call);
        }
    }
}

impl<D: Disk> Disk for Noted<D> {
    ghost tells = { D.tells };

    ghost size = { λ noted. D.size noted.disk };

    ghost content = { λ noted. D.content noted.disk };

    ghost loose = { λ noted. D.loose noted.disk };

    ghost images_now = { λ noted. D.images_now noted.disk };

    ghost moment = { λ noted. D.moment noted.disk };

    ghost images_since = { λ noted. D.images_since noted.disk };

    ghost faults = { λ noted. D.faults noted.disk };

    ghost leads_to = { λ before after. D.leads_to before.disk after.disk };

    fn blocks(&self) -> u32 {
        self.disk.blocks()
    }

    fn read(&mut self, at: u32, into: &mut Block) -> Result<(), DiskFault> {
        self.note(Call::Read(at));
        self.disk.read(at, into)
    }

    fn write(&mut self, at: u32, from: &Block) -> Result<(), DiskFault> {
        self.note(Call::Write(at));
        self.disk.write(at, from)
    }

    fn sync(&mut self) -> Result<(), DiskFault> {
        self.note(Call::Sync);
        self.disk.sync()
    }

    ghost sized = { λ noted told. D.sized noted.disk told };

    ghost content_is_image = { λ noted told. D.content_is_image noted.disk told };

    ghost images_agree = { λ noted image told now. D.images_agree noted.disk image told now };

    ghost now_counts = { λ noted past image told early now. D.now_counts noted.disk past image told early now };

    ghost only_now = { λ noted image told since. D.only_now noted.disk image told since };

    ghost earlier_counts = { λ noted earlier later image told order since.
        D.earlier_counts noted.disk earlier later image told order since };

    ghost leads_to_itself = { λ noted. D.leads_to_itself noted.disk };

    ghost leads_on = { λ first second third early late. D.leads_on first.disk second.disk third.disk early late };
}
