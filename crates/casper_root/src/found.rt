ghost use Rattle.std.specs.Prelude.{◌≡◌, ◌≤◌, ◌<◌, IsTrue, IfOk, OnErr, slice_index};
ghost use Rattle.casper_words.specs.Count.{FaultCountRose};
ghost use Rattle.casper_disk.specs.Disk.{block_at};
ghost use Rattle.casper_root.specs.Opening.{body_found, roots_found};
ghost use Rattle.casper_root.specs.Reading.{IsOnlyRead};

use crate::tables::body_rec;
use casper_disk::{Disk, DiskFault};
use casper_words::Block;

/// What stands in the block of a body. Its count may be that of no body.
#[derive(Clone, Copy, Debug, PartialEq, Eq)]
pub(crate) struct FoundBody {
    pub seq: u64,
    pub count: u32,
    pub numbers: [u32; 16],
}

/// What stands in the blocks of the two roots.
#[derive(Clone, Copy, Debug, PartialEq, Eq)]
pub(crate) struct Found {
    pub gate_a: u8,
    pub gate_b: u8,
    pub body_a: FoundBody,
    pub body_b: FoundBody,
}

impl FoundBody {
    pub(crate) fn from_block(block: &Block) -> FoundBody
        ensures { result ≡ body_found block.now }
    {
        let values = body_rec().read(block);
        let mut numbers = [0; 16];
        for place in 0..16 {
            numbers[place] = values[place + 2] as u32;
        }
        let count = values[1] as u32;
        FoundBody {
            seq: values[0],
            count,
            numbers,
        }
    }
}

/// Reads the two gates and then the two bodies.
pub(crate) fn read_found<D: Disk>(disk: &mut D, block: &mut Block) -> Result<Found, DiskFault>
    requires { 5 ≤ D.size disk.old }
    ensures found { IsTrue D.tells
        → IfOk result (λ found. found ≡ roots_found (D.content disk.old)) }
    ensures size { D.size disk.new ≡ D.size disk.old }
    ensures leads { D.leads_to disk.old disk.new }
    ensures read { IsTrue D.tells
        → IsOnlyRead D.content D.loose D.moment D.images_since disk.old disk.new }
    ensures counted { OnErr result (FaultCountRose (D.faults disk.old) (D.faults disk.new)) }
    ensures never_falls { D.faults disk.old ≤ D.faults disk.new }
{
    let gate_a = read_gate(disk, 2, block)?;
    let gate_b = read_gate(disk, 4, block)?;
    let body_a = read_body(disk, 1, block)?;
    let body_b = read_body(disk, 3, block)?;
    Ok(Found {
        gate_a,
        gate_b,
        body_a,
        body_b,
    })
}

fn read_gate<D: Disk>(disk: &mut D, at: u32, block: &mut Block) -> Result<u8, DiskFault>
    requires { at < D.size disk.old }
    ensures gate { IsTrue D.tells
        → IfOk result (λ gate. gate ≡ slice_index (block_at (D.content disk.old) at) 0) }
    ensures size { D.size disk.new ≡ D.size disk.old }
    ensures leads { D.leads_to disk.old disk.new }
    ensures read { IsTrue D.tells
        → IsOnlyRead D.content D.loose D.moment D.images_since disk.old disk.new }
    ensures counted { OnErr result (FaultCountRose (D.faults disk.old) (D.faults disk.new)) }
    ensures never_falls { D.faults disk.old ≤ D.faults disk.new }
{
    disk.read(at, block)?;
    Ok(block.bytes()[0])
}

fn read_body<D: Disk>(disk: &mut D, at: u32, block: &mut Block) -> Result<FoundBody, DiskFault>
    requires { at < D.size disk.old }
    ensures body { IsTrue D.tells
        → IfOk result (λ body. body ≡ body_found (block_at (D.content disk.old) at)) }
    ensures size { D.size disk.new ≡ D.size disk.old }
    ensures leads { D.leads_to disk.old disk.new }
    ensures read { IsTrue D.tells
        → IsOnlyRead D.content D.loose D.moment D.images_since disk.old disk.new }
    ensures counted { OnErr result (FaultCountRose (D.faults disk.old) (D.faults disk.new)) }
    ensures never_falls { D.faults disk.old ≤ D.faults disk.new }
{
    disk.read(at, block)?;
    Ok(FoundBody::from_block(block))
}
