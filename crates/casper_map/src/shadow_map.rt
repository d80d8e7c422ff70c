ghost use Rattle.std.specs.Prelude.{◌≡◌, ◌+◌, ◌*◌, ◌<◌, ◌≤◌, false, length, slice_set, None, Some, Ok, Err, IfOk, OnOk, OnErr, if◌then◌else◌};
ghost use Rattle.casper_map.specs.Faulty.{frame_at, is_faulty_beside};
ghost use Rattle.casper_map.specs.Mapped.{page_count, free_frames, used_in, AreApart, AreBelow, HasBlocks};
ghost use Rattle.casper_map.specs.Numbers.{frame_in};
ghost use Rattle.casper_map.specs.Reading.{unmapped};

use crate::frame_set::FrameSet;
use crate::numbers::frame_in;
use casper_root::OpenFault;
use casper_words::{Memory, Page};
use std::alloc::Global;
use std::marker::Model;

/// In which frame each map block and each page of a store stands, where it has one. Contracts see these frames, the map blocks'
/// first, and the number of frames.
#[derive(Drop)]
pub struct ShadowMap {
    /// The frames of the map blocks and after them those of the pages. The number of a frame fits 16 bits.
    pub(crate) places: Vec<Option<u16>>,
    /// The place of page 0, which is the number of map blocks.
    pub(crate) first_page: u32,
    /// The frames that a place has.
    pub(crate) named: FrameSet,
    /// How many these are.
    pub(crate) used: u32,
}

impl Model for ShadowMap {
    ghost use Rattle.std.specs.Prelude.{length};
    ghost use Rattle.casper_map.specs.Mapped.{Mapped, IsShadow};

    ghost Value = { Mapped };

    ghost view = { λ own. record { first_page = own.first_page; places = own.places.items; frames = length own.named } };

    ghost invariant = { λ own. IsShadow own.first_page own.places.items own.named own.used };
}

impl ShadowMap {
    /// The map of a new store, of so many map blocks, pages and frames: nothing has a frame.
    pub fn new(alloc: Global, blocks: u32, pages: u32, frames: u32) -> Result<ShadowMap, Memory>
        requires blocks { blocks ≤ 16 }
        requires pages { pages ≤ 16384 }
        requires mapped { pages ≤ 1024 * blocks }
        requires frames { frames ≤ 65536 }
        ensures { IfOk result (λ map. map ≡ unmapped blocks pages frames) }
    {
        let places = vec![in alloc; None; (blocks + pages) as usize]?;
        let named = FrameSet::new(alloc, frames)?;
        Ok(ShadowMap {
            places,
            first_page: blocks,
            named,
            used: 0,
        })
    }

    /// The number of map blocks.
    pub(crate) fn blocks(&self) -> u32
        ensures count { result ≡ self.now.first_page }
        ensures few { result ≤ 16 }
        ensures mapped { HasBlocks self.now }
    {
        self.first_page
    }

    /// The number of pages.
    pub(crate) fn pages(&self) -> u32
        ensures count { result ≡ page_count self.now }
        ensures whole { self.now.first_page + result ≡ length self.now.places }
        ensures most { result ≤ 16384 }
        ensures few { self.now.first_page ≤ 16 }
    {
        self.places.len() as u32 - self.first_page
    }

    /// The frame of a page, where it has one; a page without a frame is a zero page.
    pub fn frame_of(&self, page: Page) -> Option<u32>
        requires { page < page_count self.now }
        ensures frame { result ≡ frame_at self.now.places (self.now.first_page + page) }
        ensures in_range { AreBelow self.now.frames self.now.places }
    {
        match self.places[(self.first_page + page.0) as usize] {
            Some(frame) => Some(frame as u32),
            None => None,
        }
    }

    /// The number of frames.
    pub fn frames(&self) -> u32
        ensures { result ≡ self.now.frames }
    {
        self.named.size()
    }

    /// How many frames the map names.
    pub fn used(&self) -> u32
        ensures count { result ≡ used_in self.now.places }
        ensures apart { AreApart self.now.places }
        ensures in_range { AreBelow self.now.frames self.now.places }
        ensures free { result + length (free_frames self.now) ≡ self.now.frames }
    {
        self.used
    }

    /// How many frames the map does not name.
    pub fn free(&self) -> u32
        ensures { result ≡ length (free_frames self.now) }
    {
        self.frames() - self.used()
    }

    /// Gives a place without a frame the frame that a number stands for. A frame that is out of range or that a place has already
    /// is refused as that of the page, and nothing has changed.
    pub(crate) fn put(&mut self, place: usize, page: u32, number: u32) -> Result<(), OpenFault>
        requires within { place < length self.old.places }
        requires without { frame_at self.old.places place ≡ None }
        ensures put { OnOk result (self.new
            ≡ record self.old { places = slice_set self.old.places place (frame_in number) }) }
        ensures answer { result
            ≡ (if is_faulty_beside self.old.frames self.old.places (frame_in number) then Err
            (OpenFault.BadMap page number) else Ok record {}) }
        ensures err { OnErr result (self.new ≡ self.old) }
    {
        let Some(frame) = frame_in(number) else {
            return Ok(());
        };
        if frame >= self.named.size() || self.named.has(frame) {
            return Err(OpenFault::BadMap { page, frame });
        }
        self.named.insert(frame);
        self.used += 1;
        self.places[place] = Some(frame as u16);
        Ok(())
    }

    /// Moves what stands at a place to a frame that is free.
    pub(crate) fn move_to(&mut self, place: usize, frame: u32)
        requires within { place < length self.old.places }
        requires in_range { frame < self.old.frames }
        requires free { is_faulty_beside self.old.frames self.old.places (Some frame) ≡ false }
        ensures { self.new
            ≡ record self.old { places = slice_set self.old.places place (Some frame) } }
    {
        match self.places[place] {
            Some(old) => self.named.remove(old as u32),
            None => self.used += 1,
        }
        self.named.insert(frame);
        self.places[place] = Some(frame as u16);
    }
}
