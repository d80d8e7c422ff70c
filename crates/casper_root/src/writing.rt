ghost use Rattle.std.specs.Prelude.{◌≡◌, ◌==◌, ◌<◌, ◌≤◌, slice_set, IsTrue, OnOk, OnErr};
ghost use Rattle.casper_words.specs.Count.{FaultCountRose};
ghost use Rattle.casper_disk.specs.Disk.{none_loose, with_loose, IsLooseWithin, AgreesBut};
ghost use Rattle.casper_root.specs.Added.{AddsWrites};
ghost use Rattle.casper_root.specs.Format.{zero_block, open_gate_block, body_block};
ghost use Rattle.casper_root.specs.Slots.{body_place, gate_place};

use crate::slot::OPEN;
use crate::tables::{clear, gate_rec};
use crate::{Body, Slot};
use casper_disk::{Disk, DiskFault};
use casper_words::Block;

/// Writes the gate of a slot as closed. It stays loose until a sync.
pub fn close_spare<D: Disk>(disk: &mut D, block: &mut Block, slot: Slot) -> Result<(), DiskFault>
    requires { 5 ≤ D.size disk.old }
    ensures written { IsTrue D.tells
        → OnOk result (D.content disk.new
        ≡ slice_set (D.content disk.old) (gate_place slot) zero_block) }
    ensures others { IsTrue D.tells
        → AgreesBut (λ other. other == gate_place slot) (D.content disk.old) (D.content disk.new) }
    ensures loose { IsTrue D.tells
        → IsLooseWithin (with_loose (gate_place slot) (D.loose disk.old)) (D.loose disk.new) }
    ensures images { IsTrue D.tells
        → AddsWrites D.content D.loose D.moment D.images_since (gate_place slot) disk.old disk.new }
    ensures size { D.size disk.new ≡ D.size disk.old }
    ensures leads { D.leads_to disk.old disk.new }
    ensures counted { OnErr result (FaultCountRose (D.faults disk.old) (D.faults disk.new)) }
    ensures never_falls { D.faults disk.old ≤ D.faults disk.new }
{
    clear(block);
    disk.write(slot.gate_place(), block)
}

/// Writes the body of a slot, and syncs: after Ok no block is loose.
pub fn write_body<D: Disk>(
    disk: &mut D,
    block: &mut Block,
    slot: Slot,
    body: &Body,
) -> Result<(), DiskFault>
    requires { 5 ≤ D.size disk.old }
    ensures written { IsTrue D.tells
        → OnOk result (D.content disk.new
        ≡ slice_set (D.content disk.old) (body_place slot) (body_block body.now)) }
    ensures others { IsTrue D.tells
        → AgreesBut (λ other. other == body_place slot) (D.content disk.old) (D.content disk.new) }
    ensures settled { IsTrue D.tells → OnOk result (D.loose disk.new ≡ none_loose) }
    ensures loose { IsTrue D.tells
        → IsLooseWithin (with_loose (body_place slot) (D.loose disk.old)) (D.loose disk.new) }
    ensures images { IsTrue D.tells
        → AddsWrites D.content D.loose D.moment D.images_since (body_place slot) disk.old disk.new }
    ensures size { D.size disk.new ≡ D.size disk.old }
    ensures leads { D.leads_to disk.old disk.new }
    ensures counted { OnErr result (FaultCountRose (D.faults disk.old) (D.faults disk.new)) }
    ensures never_falls { D.faults disk.old ≤ D.faults disk.new }
{
    body.to_block(block);
    write_and_sync(disk, slot.body_place(), block)
}

/// Writes the gate of a slot as open, and syncs: after Ok no block is loose.
pub fn open_gate<D: Disk>(disk: &mut D, block: &mut Block, slot: Slot) -> Result<(), DiskFault>
    requires { 5 ≤ D.size disk.old }
    ensures written { IsTrue D.tells
        → OnOk result (D.content disk.new
        ≡ slice_set (D.content disk.old) (gate_place slot) open_gate_block) }
    ensures others { IsTrue D.tells
        → AgreesBut (λ other. other == gate_place slot) (D.content disk.old) (D.content disk.new) }
    ensures settled { IsTrue D.tells → OnOk result (D.loose disk.new ≡ none_loose) }
    ensures loose { IsTrue D.tells
        → IsLooseWithin (with_loose (gate_place slot) (D.loose disk.old)) (D.loose disk.new) }
    ensures images { IsTrue D.tells
        → AddsWrites D.content D.loose D.moment D.images_since (gate_place slot) disk.old disk.new }
    ensures size { D.size disk.new ≡ D.size disk.old }
    ensures leads { D.leads_to disk.old disk.new }
    ensures counted { OnErr result (FaultCountRose (D.faults disk.old) (D.faults disk.new)) }
    ensures never_falls { D.faults disk.old ≤ D.faults disk.new }
{
    put_open_gate(block);
    write_and_sync(disk, slot.gate_place(), block)
}

fn put_open_gate(block: &mut Block)
    ensures { block.new ≡ open_gate_block }
{
    clear(block);
    gate_rec().write(&[OPEN as u64], block);
}

/// Writes a block, and syncs: after Ok no block is loose.
pub fn write_and_sync<D: Disk>(disk: &mut D, at: u32, block: &Block) -> Result<(), DiskFault>
    requires { at < D.size disk.old }
    ensures written { IsTrue D.tells
        → OnOk result (D.content disk.new ≡ slice_set (D.content disk.old) at block.now) }
    ensures others { IsTrue D.tells
        → AgreesBut (λ other. other == at) (D.content disk.old) (D.content disk.new) }
    ensures settled { IsTrue D.tells → OnOk result (D.loose disk.new ≡ none_loose) }
    ensures loose { IsTrue D.tells
        → IsLooseWithin (with_loose at (D.loose disk.old)) (D.loose disk.new) }
    ensures images { IsTrue D.tells
        → AddsWrites D.content D.loose D.moment D.images_since at disk.old disk.new }
    ensures size { D.size disk.new ≡ D.size disk.old }
    ensures leads { D.leads_to disk.old disk.new }
    ensures counted { OnErr result (FaultCountRose (D.faults disk.old) (D.faults disk.new)) }
    ensures never_falls { D.faults disk.old ≤ D.faults disk.new }
{
    disk.write(at, block)?;
    disk.sync()
}
