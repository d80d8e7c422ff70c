ghost use Rattle.std.specs.Prelude.{◌≡◌, ◌≤◌, IsTrue, IfOk, OnErr};
ghost use Rattle.casper_words.specs.Count.{FaultCountRose};
ghost use Rattle.casper_root.specs.Opening.{pair_of, roots_found};
ghost use Rattle.casper_root.specs.Reading.{IsOnlyRead};

use crate::found::read_found;
use casper_disk::{Disk, DiskFault};
use casper_words::Block;

/// The first bytes of the two gates and the sequence numbers of the two bodies.
#[derive(Clone, Copy, Debug, PartialEq, Eq)]
pub struct Pair {
    /// The first byte of gate A.
    pub gate_a: u8,
    /// The first byte of gate B.
    pub gate_b: u8,
    /// The sequence number of body A.
    pub seq_a: u64,
    /// The sequence number of body B.
    pub seq_b: u64,
}

/// Reads the gates and the sequence numbers of a store. It changes nothing of the disk; the block is used to read.
pub fn read_pair<D: Disk>(disk: &mut D, block: &mut Block) -> Result<Pair, DiskFault>
    requires { 5 ≤ D.size disk.old }
    ensures pair { IsTrue D.tells
        → IfOk result (λ pair. pair ≡ pair_of (roots_found (D.content disk.old))) }
    ensures size { D.size disk.new ≡ D.size disk.old }
    ensures leads { D.leads_to disk.old disk.new }
    ensures read { IsTrue D.tells
        → IsOnlyRead D.content D.loose D.moment D.images_since disk.old disk.new }
    ensures counted { OnErr result (FaultCountRose (D.faults disk.old) (D.faults disk.new)) }
    ensures never_falls { D.faults disk.old ≤ D.faults disk.new }
{
    let found = read_found(disk, block)?;
    Ok(Pair {
        gate_a: found.gate_a,
        gate_b: found.gate_b,
        seq_a: found.body_a.seq,
        seq_b: found.body_b.seq,
    })
}
