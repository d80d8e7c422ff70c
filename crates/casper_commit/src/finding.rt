ghost use Rattle.std.specs.Prelude.{◌≡◌, ◌≤◌, IsTrue, IfOk, OnErr};
ghost use Rattle.casper_words.specs.Count.{FaultCountRose};
ghost use Rattle.casper_root.specs.Choice.{of_slot};
ghost use Rattle.casper_root.specs.Reading.{IsOnlyRead};
ghost use Rattle.casper_root.specs.Slots.{other_slot};
ghost use Rattle.casper_commit.specs.Root.{standing_in};

use crate::Standing;
use casper_disk::{Disk, DiskFault};
use casper_root::{OPEN, Pair, Slot, pick, read_pair};
use casper_words::Block;

/// Where the current root stands, by the gates and the sequence numbers alone, whatever the header is; nowhere where both gates are
/// closed. It reads the gates and then the bodies, and changes nothing of the disk; the block is used to read.
pub fn find_root<D: Disk>(disk: &mut D, block: &mut Block) -> Result<Option<Standing>, DiskFault>
    requires { 5 ≤ D.size disk.old }
    ensures found { IsTrue D.tells →
        IfOk result (λ found. found ≡ standing_in (D.content disk.old)) }
    ensures size { D.size disk.new ≡ D.size disk.old }
    ensures leads { D.leads_to disk.old disk.new }
    ensures read { IsTrue D.tells → IsOnlyRead D.content D.loose D.moment D.images_since
        disk.old disk.new }
    ensures counted { OnErr result (FaultCountRose (D.faults disk.old) (D.faults disk.new)) }
    ensures never_falls { D.faults disk.old ≤ D.faults disk.new }
{
    let pair = read_pair(disk, block)?;
    let found = pick(pair.gate_a, pair.gate_b, pair.seq_a, pair.seq_b);
    Ok(found.map(|slot| Standing {
        slot,
        spare_closed: spare_gate(&pair, slot) != OPEN,
    }))
}

/// The first byte of the gate of the other slot.
fn spare_gate(pair: &Pair, slot: Slot) -> u8
    ensures { result ≡ of_slot (other_slot slot) pair.now.gate_a pair.now.gate_b }
{
    match slot {
        Slot::A => pair.gate_b,
        Slot::B => pair.gate_a,
    }
}
