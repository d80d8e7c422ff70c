ghost use Rattle.std.specs.Prelude.{◌≡◌};

use casper_disk::{Disk, DiskFault};
use casper_words::Block;

/// A disk that counts its calls.
#[derive(Drop)]
pub struct Counted<D> {
    pub disk: D,
    pub reads: u64,
    pub writes: u64,
    pub syncs: u64,
}

impl<D> Counted<D> {
    /// The disk, of which no call was counted yet.
    pub fn new(disk: D) -> Counted<D>
        ensures disk { result.disk ≡ disk }
        ensures reads { result.reads ≡ 0 }
        ensures writes { result.writes ≡ 0 }
        ensures syncs { result.syncs ≡ 0 }
    {
        Counted {
            disk,
            reads: 0,
            writes: 0,
            syncs: 0,
        }
    }
}

impl<D: Disk> Disk for Counted<D> {
    ghost tells = { D.tells };

    ghost size = { λ counted. D.size counted.disk };

    ghost content = { λ counted. D.content counted.disk };

    ghost loose = { λ counted. D.loose counted.disk };

    ghost images_now = { λ counted. D.images_now counted.disk };

    ghost moment = { λ counted. D.moment counted.disk };

    ghost images_since = { λ counted. D.images_since counted.disk };

    ghost faults = { λ counted. D.faults counted.disk };

    ghost leads_to = { λ before after. D.leads_to before.disk after.disk };

    fn blocks(&self) -> u32 {
        self.disk.blocks()
    }

    fn read(&mut self, at: u32, into: &mut Block) -> Result<(), DiskFault> {
        self.reads = self.reads.saturating_add(1);
        self.disk.read(at, into)
    }

    fn write(&mut self, at: u32, from: &Block) -> Result<(), DiskFault> {
        self.writes = self.writes.saturating_add(1);
        self.disk.write(at, from)
    }

    fn sync(&mut self) -> Result<(), DiskFault> {
        self.syncs = self.syncs.saturating_add(1);
        self.disk.sync()
    }

    ghost sized = { λ counted told. D.sized counted.disk told };

    ghost content_is_image = { λ counted told. D.content_is_image counted.disk told };

    ghost images_agree = { λ counted image told now. D.images_agree counted.disk image told now };

    ghost now_counts = { λ counted past image told early now. D.now_counts counted.disk past image told early now };

    ghost only_now = { λ counted image told since. D.only_now counted.disk image told since };

    ghost earlier_counts = { λ counted earlier later image told order since.
        D.earlier_counts counted.disk earlier later image told order since };

    ghost leads_to_itself = { λ counted. D.leads_to_itself counted.disk };

    ghost leads_on = { λ first second third early late. D.leads_on first.disk second.disk third.disk early late };
}
