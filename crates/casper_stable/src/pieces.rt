ghost use Rattle.std.specs.Prelude.{◌≡◌, ◌+◌, ◌<◌, ◌≤◌, ◌++◌, length, slice_index};
ghost use Rattle.casper_map.specs.Mapped.{free_frames};
ghost use Rattle.casper_map.specs.Planned.{frames_in};
ghost use Rattle.casper_stable.specs.Writing.{IsWritten, piece_count, piece_place, IsPiece};

use casper_commit::Pieces;
use casper_map::{Plan, ShadowMap};
use casper_words::{Block, Frame, Page};
use std::marker::Model;

/// What a commit writes into frames: the pages that change, and after them their map blocks.
#[derive(Drop)]
pub(crate) struct Written<'a> {
    pub(crate) map: &'a ShadowMap,
    pub(crate) plan: &'a Plan,
    pub(crate) changes: &'a [(Page, Frame)],
}

impl<'a> Model for Written<'a> {
    ghost use Rattle.casper_map.specs.Planned.{frames_in};
    ghost use Rattle.casper_stable.specs.Writing.{Written, IsWritten};

    ghost Value = { Written };

    ghost view = { λ own. record { held = own.map.now; plan = own.plan.now; changes = own.changes.now } };

    ghost invariant = { λ own. IsWritten
        (record { held = own.map.now; plan = own.plan.now; changes = own.changes.now }) };
}

/// The frame at a place of those of the pages and after them those of the map blocks.
fn frame_at(pages: &[(u16, u16)], maps: &[(u16, u16)], at: usize) -> u32
    requires { at < length pages.now + length maps.now }
    ensures { result ≡ slice_index (frames_in pages.now ++ frames_in maps.now) at }
{
    if at < pages.len() {
        pages[at].1 as u32
    } else {
        maps[at - pages.len()].1 as u32
    }
}

impl<'a> Pieces for Written<'a> {
    ghost count = { piece_count };

    ghost place = { piece_place };

    ghost is_piece = { IsPiece };

    fn count(&self) -> u32 {
        let plan = self.plan;
        let count = plan.pages.as_slice().len() + plan.maps.as_slice().len();
        let free = self.map.free() as usize;
        prove!(count <= free);
        count as u32
    }

    fn place(&self, piece: u32) -> u32 {
        let plan = self.plan;
        5 + frame_at(plan.pages.as_slice(), plan.maps.as_slice(), piece as usize)
    }

    fn fill(&self, piece: u32, into: &mut Block) {
        let plan = self.plan;
        let pages = plan.pages.as_slice();
        let at = piece as usize;
        if at < pages.len() {
            let (_page, frame) = &self.changes[at];
            frame.to_block(into);
        } else {
            let (number, _frame) = plan.maps.as_slice()[at - pages.len()];
            self.map.map_block(plan, number as u32, into);
        }
    }
}
