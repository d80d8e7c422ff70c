ghost use Rattle.std.specs.Prelude.{◌≡◌, ◌≤◌, ◌+◌, not, Err, IsTrue, IfOk};
ghost use Rattle.casper_words.specs.Count.{FaultCountRose};
ghost use Rattle.casper_root.specs.Opening.{opened, as_body, body_refusals, current_in, header_of, header_refusals, is_digit, pair_refusals};
ghost use Rattle.casper_root.specs.Choice.{is_open};
ghost use Rattle.casper_root.specs.Fitting.{AreSizes, Fits};
ghost use Rattle.casper_root.specs.Format.{map_blocks_of};
ghost use Rattle.casper_root.specs.Parts.{opened_header, opened_pair, HasRoomFor, HasMaps};
ghost use Rattle.casper_root.specs.Reading.{IsOnlyRead};
ghost use Rattle.casper_root.specs.Refusal.{first_refusal, Answers};

use crate::found::{Found, FoundBody, read_found};
use crate::slot::OPEN;
use crate::tables::header_rec;
use crate::{Body, CurrentRoot, Header, Maps, OpenFault, Roots, Slot, pick};
use casper_disk::{Disk, LAST_VERSION};
use casper_words::Block;
use std::alloc::Global;

/// Reads the header and the current root of a store. It reads the header, the two gates and the two bodies, in this
/// order, and changes nothing of the disk.
pub fn open_roots<D: Disk>(alloc: Global, disk: &mut D) -> Result<Roots, OpenFault>
    ensures roots { IsTrue D.tells → Answers result (opened (D.content disk.old)) }
    ensures fits { IfOk result (Fits (D.size disk.old)) }
    ensures size { D.size disk.new ≡ D.size disk.old }
    ensures leads { D.leads_to disk.old disk.new }
    ensures read { IsTrue D.tells → IsOnlyRead D.content D.loose D.moment D.images_since
        disk.old disk.new }
    ensures counted { result ≡ Err OpenFault.Disk
        → FaultCountRose (D.faults disk.old) (D.faults disk.new) }
    ensures never_falls { D.faults disk.old ≤ D.faults disk.new }
{
    let mut block = Block::zero(alloc)?;
    let header = open_header(disk, &mut block)?;
    let root = open_pair(disk, &mut block, header.pages.div_ceil(Maps::PAGES_EACH))?;
    Ok(Roots {
        header,
        slot: root.slot,
        body: root.body,
        spare_closed: root.spare_closed,
    })
}

/// Reads the header of a store from block 0, and looks whether the disk has all its blocks. It changes nothing of the disk; the
/// block is used to read.
pub fn open_header<D: Disk>(disk: &mut D, block: &mut Block) -> Result<Header, OpenFault>
    ensures header { IsTrue D.tells → Answers result (opened_header (D.content disk.old)) }
    ensures fits { IfOk result (HasRoomFor (D.size disk.old)) }
    ensures size { D.size disk.new ≡ D.size disk.old }
    ensures leads { D.leads_to disk.old disk.new }
    ensures read { IsTrue D.tells → IsOnlyRead D.content D.loose D.moment D.images_since
        disk.old disk.new }
    ensures counted { result ≡ Err OpenFault.Disk
        → FaultCountRose (D.faults disk.old) (D.faults disk.new) }
    ensures never_falls { D.faults disk.old ≤ D.faults disk.new }
{
    let have = disk.blocks();
    if have < 5 {
        return Err(OpenFault::Short { need: 5, have });
    }
    disk.read(0, block)?;
    let header = header_from(block)?;
    let need = 5 + header.frames;
    if have < need {
        return Err(OpenFault::Short { need, have });
    }
    Ok(header)
}

/// Reads the current root of a pair in blocks 1 to 4, whose body has so many map blocks, whatever the header is. It reads the two
/// gates and then the two bodies, and changes nothing of the disk; the block is used to read.
pub fn open_pair<D: Disk>(
    disk: &mut D,
    block: &mut Block,
    maps: u32,
) -> Result<CurrentRoot, OpenFault>
    requires blocks { 5 ≤ D.size disk.old }
    requires few { maps ≤ 16 }
    ensures root { IsTrue D.tells → Answers result (opened_pair maps (D.content disk.old)) }
    ensures fits { IfOk result (HasMaps maps) }
    ensures size { D.size disk.new ≡ D.size disk.old }
    ensures leads { D.leads_to disk.old disk.new }
    ensures read { IsTrue D.tells → IsOnlyRead D.content D.loose D.moment D.images_since
        disk.old disk.new }
    ensures counted { result ≡ Err OpenFault.Disk
        → FaultCountRose (D.faults disk.old) (D.faults disk.new) }
    ensures never_falls { D.faults disk.old ≤ D.faults disk.new }
{
    let found = read_found(disk, block)?;
    root_from(maps, &found)
}

fn header_from(block: &Block) -> Result<Header, OpenFault>
    ensures header { result ≡ first_refusal (header_refusals block.now) (header_of block.now) }
    ensures sizes { IfOk result AreSizes }
{
    let bytes = block.bytes();
    let (tens, ones) = (bytes[6], bytes[7]);
    if !bytes.starts_with(b"CASPER") || !is_decimal(tens) || !is_decimal(ones) {
        return Err(OpenFault::NotAStore);
    }
    let version = 10 * (tens - b'0') as u32 + (ones - b'0') as u32;
    if version != 1 {
        return Err(OpenFault::Version(version));
    }
    let values = header_rec().read(block);
    let (pages, frames) = (values[1] as u32, values[2] as u32);
    if pages < 1
        || pages > Header::MOST_PAGES
        || frames < Header::LEAST_FRAMES
        || frames > Header::MOST_FRAMES
    {
        return Err(OpenFault::BadSize { pages, frames });
    }
    Ok(Header { pages, frames })
}

fn is_decimal(byte: u8) -> bool
    ensures { result ≡ is_digit byte }
{
    byte >= b'0' && byte <= b'9'
}

fn root_from(maps: u32, found: &Found) -> Result<CurrentRoot, OpenFault>
    requires { maps ≤ 16 }
    ensures root { result ≡ first_refusal (pair_refusals maps found.now) (current_in found.now) }
    ensures fits { IfOk result (HasMaps maps) }
{
    match pick(
        found.gate_a,
        found.gate_b,
        found.body_a.seq,
        found.body_b.seq,
    ) {
        None => Err(OpenFault::NoRoot),
        Some(Slot::A) => root_in(maps, Slot::A, &found.body_a, found.gate_b),
        Some(Slot::B) => root_in(maps, Slot::B, &found.body_b, found.gate_a),
    }
}

fn root_in(count: u32, slot: Slot, body: &FoundBody, spare: u8) -> Result<CurrentRoot, OpenFault>
    requires { count ≤ 16 }
    ensures root { result ≡ first_refusal (body_refusals count body.now)
        (record { slot = slot; body = as_body body.now; spare_closed = not (is_open spare) }) }
    ensures fits { IfOk result (HasMaps count) }
{
    if body.seq < 1 || body.seq > LAST_VERSION || body.count != count {
        return Err(OpenFault::BadBody {
            seq: body.seq,
            count: body.count,
        });
    }
    let Some(maps) = Maps::new(&body.numbers[..count as usize]) else {
        unreachable!()
    };
    Ok(CurrentRoot {
        slot,
        body: Body {
            seq: body.seq,
            maps,
        },
        spare_closed: spare != OPEN,
    })
}
