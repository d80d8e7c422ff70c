ghost use Rattle.std.specs.Prelude.{◌≡◌, ◌⊎◌, ◌↔◌, ℕ, ◌+◌, ◌<◌, ◌≤◌, List, Option, All, length, take, vec_len, IfOk, IsErrOf};
ghost use Rattle.std.specs.List.Sorted.{IsStrictlyIncreasing};
ghost use Rattle.casper_space.specs.Changes.{blocks_of};
ghost use Rattle.casper_map.specs.Mapped.{page_count, free_frames};
ghost use Rattle.casper_map.specs.Numbers.{block_of_numbers};
ghost use Rattle.casper_map.specs.Planned.{IsPlan, moved, need_for, with_plan, with_moves, map_numbers, block_numbers, Show, AreWithin, AreNew};

use crate::numbers::{NUMBERS, number_of, put_numbers};
use crate::{Moves, Plan, PlanFault, ShadowMap};
use casper_root::Maps;
use casper_words::{Block, Memory, Page};
use std::alloc::Global;

impl ShadowMap {
    /// Where a commit of these pages puts them and their map blocks: into the lowest free frames in rising order, first the pages
    /// in order and then the map blocks in order. `Full` comes exactly where it needs more frames than are free, but for Memory.
    pub fn plan(&self, alloc: Global, pages: &[Page]) -> Result<Plan, PlanFault>
        requires rising { IsStrictlyIncreasing pages.now }
        requires within { All (λ page. page < page_count self.now) pages.now }
        ensures plan { IfOk result (IsPlan self.now) }
        ensures pages { IfOk result (λ plan. moved plan.pages ≡ pages.now) }
        ensures full { IsErrOf result PlanFault.Memory
            ⊎ ((need free : ℕ) → IsErrOf result (PlanFault.Full need free)
            ↔ ((need ≡ need_for pages.now) × (free ≡ length (free_frames self.now))
            × (free < need))) }
    {
        let most = self.pages() as usize;
        prove!(pages.len() <= most);
        let targets = numbers_of_pages(alloc, pages)?;
        let blocks = blocks_under(alloc, &targets)?;
        let need = (targets.len() + blocks.len()) as u32;
        let free = self.free();
        if free < need {
            return Err(PlanFault::Full { need, free });
        }
        let frames = self.lowest_free(alloc, need)?;
        let (first, rest) = frames.split_at(targets.len());
        let pages = Moves::new(alloc, &targets, first)?;
        let maps = Moves::new(alloc, &blocks, rest)?;
        Ok(Plan { pages, maps })
    }

    /// The lowest free frames, as many as are asked for.
    fn lowest_free(&self, alloc: Global, count: u32) -> Result<Vec<u16>, Memory>
        requires { count ≤ length (free_frames self.now) }
        ensures { IfOk result (λ frames. frames.items ≡ take count (free_frames self.now)) }
    {
        let mut frames = Vec::with_capacity(alloc, count as usize)?;
        let mut from = 0;
        for _taken in 0..count {
            let Some(frame) = self.named.next_free(from) else {
                unreachable!()
            };
            frames.push(frame as u16)?;
            from = frame + 1;
        }
        Ok(frames)
    }

    /// Fills a block with a map block as it is with the plan, which this map made as it stands.
    pub fn map_block(&self, plan: &Plan, number: u32, into: &mut Block)
        requires block { number < self.now.first_page }
        requires plan { IsPlan self.now plan.now }
        ensures { into.new ≡ block_of_numbers (block_numbers (with_plan plan.now self.now) number) }
    {
        let first_page = self.blocks();
        let first = Maps::PAGES_EACH * number;
        let mut numbers = [0; NUMBERS];
        self.put_numbers_from(first_page + first, &mut numbers);
        put_moves(plan.pages.as_slice(), first, &mut numbers);
        put_numbers(&numbers, into);
    }

    /// The frame numbers of the body with the plan, which this map made as it stands.
    pub fn maps(&self, plan: &Plan) -> Maps
        requires { IsPlan self.now plan.now }
        ensures { result ≡ map_numbers (with_plan plan.now self.now) }
    {
        let count = self.blocks() as usize;
        let mut numbers = [0; Maps::MOST];
        let numbers = &mut numbers[..count];
        self.put_numbers_from(0, numbers);
        put_moves(plan.maps.as_slice(), 0, numbers);
        let Some(maps) = Maps::new(numbers) else {
            unreachable!()
        };
        maps
    }

    /// Gives the pages and the map blocks of a plan their new frames. The plan is one that this map made as it stands; the frames
    /// that are no longer named are free then.
    pub fn apply(&mut self, plan: &Plan)
        requires { IsPlan self.old plan.now }
        ensures { self.new ≡ with_plan plan.now self.old }
    {
        let first = self.blocks();
        self.move_all(0, plan.maps.as_slice());
        self.move_all(first, plan.pages.as_slice());
    }

    /// Makes moves of the places from one on.
    fn move_all(&mut self, first: u32, moves: &[(u16, u16)])
        requires within { AreWithin first self.old.places moves.now }
        requires new_frames { AreNew self.old.frames self.old.places moves.now }
        ensures { self.new
            ≡ record self.old { places = with_moves first moves.now self.old.places } }
    {
        for (target, frame) in moves {
            self.move_to(first as usize + *target as usize, *frame as u32);
        }
    }

    /// Fills a list with the numbers that stand for the frames of the places from one on.
    fn put_numbers_from(&self, from: u32, numbers: &mut [u32])
        ensures { Show self.now.places from numbers.new }
    {
        for (at, number) in numbers.iter_mut().enumerate() {
            let place = from as usize + at;
            *number = if place < self.places.len() {
                number_of(self.places[place])
            } else {
                number_of(None)
            };
        }
    }
}

/// Puts the new frames of moves into a list of numbers, of which the first is that of a page or map block.
fn put_moves(moves: &[(u16, u16)], first: u32, numbers: &mut [u32])
    ensures { (places : List (Option ℕ)) (base : ℕ) → AreWithin base places moves.now
        → Show places (base + first) numbers.old
        → Show (with_moves base moves.now places) (base + first) numbers.new }
{
    for (target, frame) in moves {
        let target = *target as u32;
        if target >= first && ((target - first) as usize) < numbers.len() {
            numbers[(target - first) as usize] = *frame as u32;
        }
    }
}

/// The numbers of pages.
fn numbers_of_pages(alloc: Global, pages: &[Page]) -> Result<Vec<u16>, Memory>
    requires { All (λ page. page < 16384) pages.now }
    ensures { IfOk result (λ numbers. numbers.items ≡ pages.now) }
{
    let mut numbers = Vec::with_capacity(alloc, pages.len())?;
    for page in pages {
        numbers.push(page.0 as u16)?;
    }
    Ok(numbers)
}

/// The map blocks of pages in rising order.
fn blocks_under(alloc: Global, pages: &[u16]) -> Result<Vec<u16>, Memory>
    requires { IsStrictlyIncreasing pages.now }
    ensures blocks { IfOk result (λ blocks. blocks.items ≡ blocks_of pages.now) }
    ensures few { IfOk result (λ blocks. vec_len blocks ≤ length pages.now) }
{
    let mut blocks = Vec::new(alloc);
    // No block from this one on is in the list yet.
    let mut next = 0;
    for page in pages {
        let block = *page as u32 / Maps::PAGES_EACH;
        if block >= next {
            blocks.push(block as u16)?;
            next = block + 1;
        }
    }
    Ok(blocks)
}
