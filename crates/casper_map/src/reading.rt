ghost use Rattle.std.specs.Prelude.{◌≡◌, ◌≢◌, ℕ, ◌+◌, ◌*◌, ◌≤◌, ◌<◌, Option, List, Err, length, IsTrue, IfOk, OnOk, MatchResult};
ghost use Rattle.casper_map.specs.Mapped.{page_count};
ghost use Rattle.casper_words.specs.Count.{FaultCountRose};
ghost use Rattle.casper_root.specs.Fitting.{AreSizes};
ghost use Rattle.casper_root.specs.Format.{map_blocks_of};
ghost use Rattle.casper_root.specs.Reading.{IsOnlyRead};
ghost use Rattle.casper_root.specs.Refusal.{Answers};
ghost use Rattle.casper_map.specs.PlanLaws.{IsWhole};
ghost use Rattle.casper_map.specs.Reading.{opened_map, IsRead, IsFirstBad, StandAt, ReadsBlock, HasSizesOf, HasNoneFrom, end_of_block};

use crate::ShadowMap;
use crate::numbers::{NUMBERS, numbers_of};
use casper_disk::Disk;
use casper_root::{Maps, OpenFault, Roots};
use casper_words::Block;
use std::alloc::Global;

impl ShadowMap {
    /// Reads each map block that a root names, once and in order, and changes nothing of the disk. The first frame number that is out
    /// of range or equal to an earlier one is refused: the numbers of the root first, and then those of the pages.
    pub fn read_blocks<D: Disk>(
        alloc: Global,
        disk: &mut D,
        roots: &Roots,
    ) -> Result<ShadowMap, OpenFault>
        requires sizes { AreSizes roots.now.header }
        requires maps { length roots.now.body.maps ≡ map_blocks_of roots.now.header.pages }
        requires room { 5 + roots.now.header.frames ≤ D.size disk.old }
        ensures map { IsTrue D.tells → Answers result (opened_map (D.content disk.old) roots.now) }
        ensures frames { IfOk result (λ map. map.frames ≡ roots.now.header.frames) }
        ensures whole { IfOk result (IsWhole roots.now) }
        ensures size { D.size disk.new ≡ D.size disk.old }
        ensures leads { D.leads_to disk.old disk.new }
        ensures read { IsTrue D.tells
            → IsOnlyRead D.content D.loose D.moment D.images_since disk.old disk.new }
        ensures counted { result ≡ Err OpenFault.Disk
            → FaultCountRose (D.faults disk.old) (D.faults disk.new) }
        ensures never_falls { D.faults disk.old ≤ D.faults disk.new }
    {
        let numbers = roots.body.maps.as_slice();
        let blocks = numbers.len() as u32;
        let mut map = ShadowMap::new(alloc, blocks, roots.header.pages, roots.header.frames)?;
        map.put_all(0, 0, Maps::PAGES_EACH, numbers)?;
        let mut block = Block::zero(alloc)?;
        for number in 0..blocks {
            map.read_block(disk, number, &mut block)?;
        }
        prove!(map.used() <= map.frames());
        Ok(map)
    }

    /// Gives the pages of a map block their frames, where the block has a frame.
    fn read_block<D: Disk>(
        &mut self,
        disk: &mut D,
        number: u32,
        block: &mut Block,
    ) -> Result<(), OpenFault>
        requires within { number < self.old.first_page }
        requires blocks { self.old.first_page ≡ map_blocks_of (page_count self.old) }
        requires room { 5 + self.old.frames ≤ D.size disk.old }
        requires unread { HasNoneFrom (self.old.first_page + 1024 * number) self.old }
        ensures pages { IsTrue D.tells → (maps : List (Option ℕ))
            → ReadsBlock (D.content disk.old) number maps self.old self.new result }
        ensures unread { OnOk result (HasNoneFrom (end_of_block number self.old) self.new) }
        ensures sizes { HasSizesOf self.old self.new }
        ensures size { D.size disk.new ≡ D.size disk.old }
        ensures leads { D.leads_to disk.old disk.new }
        ensures read { IsTrue D.tells
            → IsOnlyRead D.content D.loose D.moment D.images_since disk.old disk.new }
        ensures counted { result ≡ Err OpenFault.Disk
            → FaultCountRose (D.faults disk.old) (D.faults disk.new) }
        ensures never_falls { D.faults disk.old ≤ D.faults disk.new }
    {
        let first = self.blocks();
        let Some(frame) = self.places[number as usize] else {
            return Ok(());
        };
        disk.read(5 + frame as u32, block)?;
        let numbers = numbers_of(block);
        let page = Maps::PAGES_EACH * number;
        let count = NUMBERS.min((self.pages() - page) as usize);
        self.put_all(first + page, page, 1, &numbers[..count])
    }

    /// Gives the places from one on the frames that numbers stand for. The first of them stands for this page, and each for so many.
    fn put_all(
        &mut self,
        place: u32,
        page: u32,
        each: u32,
        numbers: &[u32],
    ) -> Result<(), OpenFault>
        requires within { place + length numbers.now ≤ length self.old.places }
        requires pages { page + each * length numbers.now ≤ 16384 }
        requires unread { HasNoneFrom place self.old }
        requires early { place ≤ 16400 }
        requires few { length numbers.now ≤ 16384 }
        ensures put { (all : List (Option ℕ)) → IsRead place all self.old
            → StandAt place numbers.now all
            → MatchResult result (λ _. IsRead (place + length numbers.now) all self.new)
            (IsFirstBad self.old.frames all place (place + length numbers.now) page each) }
        ensures undisturbed { result ≢ Err OpenFault.Disk }
        ensures unread { OnOk result (HasNoneFrom (place + length numbers.now) self.new) }
        ensures sizes { HasSizesOf self.old self.new }
    {
        for (at, number) in numbers.iter().enumerate() {
            self.put(place as usize + at, page + each * at as u32, *number)?;
        }
        Ok(())
    }
}
