ghost use Rattle.std.specs.Prelude.{◌≡◌, ◌||◌, ◌==◌, ◌+◌, ◌-◌, ◌<◌, ◌≤◌, ◌^◌, ℕ, Bool, true, false, List, length, replicate, slice_set, is_err, IfOk, OnOk, OnErr};
ghost use Rattle.std.proofs.Common.{inl, refl};
ghost use Rattle.casper_words.specs.Count.{FaultCountRose};
ghost use Rattle.casper_disk.specs.declared.fail.Kind.TheVariants as kind;
ghost use Rattle.casper_disk.specs.Disk.{block_at, none_loose, with_loose, IsLooseWithin, AgreesBut, Elapses, KeepsImages};
ghost use Rattle.casper_disk.specs.Record.{only_left_now, since_earlier, agrees_itself, content_at};
ghost use Rattle.casper_disk.specs.Stopped.{settled_before, stop_moment, began, loose_within};
ghost use Rattle.casper_disk.specs.Plan.{count_of, fails_next};
ghost use Rattle.casper_disk.specs.MemDisk.{held_loose, held_since, fresh_disk};
ghost use Rattle.casper_disk.specs.Calls.{after_read, after_write, after_sync, IsArmed, KeepsRecord};
ghost use Rattle.casper_disk.specs.Touched.{AreTorn};
ghost use Rattle.casper_disk.specs.LeadsTo.{HeldLeadsTo, held_itself, held_on};

use crate::blocks::{copies, zero_blocks};
use crate::plan::Plan;
use crate::step::Step;
use crate::tear::{tear_marked, tear_written};
use crate::undo::{settled_before, undo};
use crate::{Disk, DiskFault, Fail, Kind, Pick};
use casper_words::{Block, Memory};
use std::alloc::Global;
use std::marker::Model;
use std::mem;

/// A disk in memory, which tells its content. It keeps a record of its writes and syncs, with the old contents, for which the
/// room is taken beforehand: a write or a sync past that room fails. Calls that are to fail are given by their numbers.
#[derive(Drop)]
pub struct MemDisk {
    alloc: Global,
    blocks: Vec<Block>,
    steps: Vec<Step>,
    armed: usize,
    spare: Vec<Block>,
    marks: Vec<bool>,
    plan: Plan,
}

impl Model for MemDisk {
    ghost use Rattle.std.specs.Prelude.{◌≡◌, ◌+◌, ◌<◌, ◌≤◌, length, vec_capacity};
    ghost use Rattle.casper_disk.specs.MemDisk.{Held};
    ghost use Rattle.casper_disk.specs.Sound.{IsSound};

    ghost Value = { Held };

    ghost view = { λ own. record {
      content = own.blocks.items;
      steps = own.steps.items;
      armed = own.armed;
      room = length own.spare.items;
      marks = own.marks.items;
      plan = own.plan;
    } };

    ghost invariant = { λ own. IsSound own.blocks.items own.steps.items own.armed (length own.spare.items)
        (vec_capacity own.steps) own.marks.items };
}

/// A disk of these blocks, none of them loose, with room for as many writes and syncs.
fn disk_of(alloc: Global, blocks: Vec<Block>, calls: usize) -> Result<MemDisk, Memory>
    requires { length blocks.items < 2 ^ 32 }
    ensures fresh { IfOk result (λ disk. disk ≡ fresh_disk blocks.items calls) }
    ensures loose { IfOk result (λ disk. held_loose disk ≡ none_loose) }
{
    let spare = zero_blocks(alloc, calls)?;
    let steps = Vec::with_capacity(alloc, calls)?;
    let marks = vec![in alloc; false; blocks.len()]?;
    Ok(MemDisk {
        alloc,
        blocks,
        steps,
        armed: 0,
        spare,
        marks,
        plan: Plan::new(alloc),
    })
}

impl MemDisk {
    /// A disk of as many zero blocks, none of them loose, with room for `calls` writes and syncs.
    pub fn new(alloc: Global, blocks: u32, calls: u32) -> Result<MemDisk, Memory>
        ensures fresh { IfOk result (λ disk. disk
            ≡ fresh_disk (replicate blocks (replicate 4096 0)) calls) }
        ensures loose { IfOk result (λ disk. held_loose disk ≡ none_loose) }
    {
        let contents = zero_blocks(alloc, blocks as usize)?;
        disk_of(alloc, contents, calls as usize)
    }

    /// Begins a new record, with room for `calls` writes and syncs. From then on the calls of each kind are counted from 1, and
    /// the listed ones fail. The content and the loose blocks stay. After Memory nothing has changed.
    pub fn arm(&mut self, fails: &[Fail], calls: u32) -> Result<(), Memory>
        ensures content { self.new.content ≡ self.old.content }
        ensures loose { held_loose self.new ≡ held_loose self.old }
        ensures after { OnOk result (IsArmed fails.now calls self.old self.new) }
        ensures record { OnOk result (KeepsRecord self.old self.new) }
        ensures images { OnOk result
            (Elapses (length self.old.steps) (length self.new.steps) (held_since self.old)
            (held_since self.new) (held_loose self.old) self.old.content) }
        ensures err { OnErr result (self.new ≡ self.old) }
    {
        let spare = zero_blocks(self.alloc, calls as usize)?;
        let unmarked = vec![in self.alloc; false; self.blocks.len()]?;
        self.steps.reserve(calls as usize + 1)?;
        self.plan.arm(self.alloc, fails)?;
        self.spare = spare;
        let marks = mem::replace(&mut self.marks, unmarked);
        self.steps.push_reserved(Step::Missed { marks });
        self.armed = self.steps.len();
        Ok(())
    }

    /// The disk as a stop within a call may leave it, with the room of this disk's last arming. The writes and syncs are counted
    /// from 1 since then, and one more than their number stands for the moment after the last. A loose block has the bytes that
    /// the pick says, and each other block its content; no block is loose any more.
    pub fn stopped(&self, alloc: Global, call: u64, pick: Pick) -> Result<MemDisk, Memory>
        requires some { 1 ≤ call }
        requires within { call ≤ self.now.plan.writes + self.now.plan.syncs + 1 }
        ensures written { pick ≡ Pick.New
            → IfOk result (λ disk. disk.content
            ≡ content_at self.now.steps self.now.content (stop_moment self.now call)) }
        ensures before { pick ≡ Pick.Old → IfOk result (λ disk. disk.content
            ≡ content_at self.now.steps self.now.content
            (settled_before self.now.steps (stop_moment self.now call))) }
        ensures torn { (byte : ℕ) → pick ≡ Pick.Torn byte
            → IfOk result (λ disk. AreTorn (loose_within self.now call) byte
            (content_at self.now.steps self.now.content (stop_moment self.now call)) disk.content) }
        ensures image { IfOk result
            (λ disk. held_since self.now (began self.now call) disk.content) }
        ensures fresh { IfOk result (λ disk. disk
            ≡ fresh_disk disk.content (length self.now.steps - self.now.armed + self.now.room)) }
        ensures loose { IfOk result (λ disk. held_loose disk ≡ none_loose) }
    {
        let mut blocks = copies(alloc, self.blocks.as_slice())?;
        self.apply_stop(call, pick, &mut blocks);
        let room = (self.steps.len() - self.armed).saturating_add(self.spare.len());
        disk_of(alloc, blocks, room)
    }

    /// Makes of the blocks of this disk those that a stop within a call leaves.
    fn apply_stop(&self, call: u64, pick: Pick, blocks: &mut Vec<Block>)
        requires some { 1 ≤ call }
        requires content { blocks.old.items ≡ self.now.content }
        ensures written { pick ≡ Pick.New
            → blocks.new.items
            ≡ content_at self.now.steps self.now.content (stop_moment self.now call) }
        ensures before { pick ≡ Pick.Old → blocks.new.items
            ≡ content_at self.now.steps self.now.content
            (settled_before self.now.steps (stop_moment self.now call)) }
        ensures torn { (byte : ℕ) → pick ≡ Pick.Torn byte
            → AreTorn (loose_within self.now call) byte
            (content_at self.now.steps self.now.content
            (stop_moment self.now call)) blocks.new.items }
        ensures image { held_since self.now (began self.now call) blocks.new.items }
        ensures count { length blocks.new.items ≡ length blocks.old.items }
    {
        let moment = self.stop_moment(call);
        match pick {
            Pick::Old => undo(&self.steps, settled_before(&self.steps, moment), blocks),
            Pick::New => undo(&self.steps, moment, blocks),
            Pick::Torn(byte) => {
                undo(&self.steps, moment, blocks);
                self.tear(call, byte, blocks);
            }
        }
    }

    /// Tears the blocks that are loose at a stop within a call.
    fn tear(&self, call: u64, byte: u8, blocks: &mut Vec<Block>)
        requires { 1 ≤ call }
        ensures { AreTorn (loose_within self.now call) byte blocks.old.items blocks.new.items }
    {
        let moment = self.stop_moment(call);
        let settled = settled_before(&self.steps, moment);
        tear_written(&self.steps[settled..moment], byte, blocks);
        if call > (self.steps.len() - self.armed) as u64 {
            tear_marked(&self.marks, byte, blocks);
        }
    }

    /// The moment of a stop within a call.
    fn stop_moment(&self, call: u64) -> usize
        requires { 1 ≤ call }
        ensures moment { result ≡ stop_moment self.now call }
        ensures within { result ≤ length self.now.steps }
    {
        if call > (self.steps.len() - self.armed) as u64 {
            return self.steps.len();
        }
        let at = self.armed + call as usize - 1;
        let step = &self.steps[at];
        if step.is_written() { at + 1 } else { at }
    }

    /// How many calls failed, since the disk was made.
    pub fn faults(&self) -> u64
        ensures { result ≡ self.now.plan.faults }
    {
        self.plan.faults()
    }

    /// How many calls of the kind there were since the disk was last armed, or made.
    pub fn count(&self, kind: Kind) -> u64
        ensures { result ≡ count_of self.now.plan kind }
    {
        self.plan.count(kind)
    }
}

impl Disk for MemDisk {
    ghost tells = { true };

    ghost size = { λ disk. length disk.content };

    ghost content = { λ disk. disk.content };

    ghost loose = { held_loose };

    ghost images_now = { λ disk. AgreesBut (held_loose disk) disk.content };

    ghost moment = { λ disk. length disk.steps };

    ghost images_since = { held_since };

    ghost faults = { λ disk. disk.plan.faults };

    ghost leads_to = { HeldLeadsTo };

    fn blocks(&self) -> u32 {
        self.blocks.len() as u32
    }

    /// Fails exactly where this call is one of those that are to fail.
    fn read(&mut self, at: u32, into: &mut Block) -> Result<(), DiskFault>
        requires { at < length self.old.content }
        ensures fails { is_err result ≡ fails_next self.old.plan kind.Read }
        ensures after { self.new ≡ after_read self.old }
        ensures block { OnOk result (into.new ≡ block_at self.old.content at) }
        ensures size { length self.new.content ≡ length self.old.content }
        ensures content { self.new.content ≡ self.old.content }
        ensures loose { held_loose self.new ≡ held_loose self.old }
        ensures images { KeepsImages (length self.old.steps) (length self.new.steps)
            (held_since self.old) (held_since self.new) }
        ensures counted { OnErr result (FaultCountRose self.old.plan.faults self.new.plan.faults) }
        ensures never_falls { self.old.plan.faults ≤ self.new.plan.faults }
        ensures leads { HeldLeadsTo self.old self.new }
    {
        let fails = self.plan.fails_next(Kind::Read);
        self.plan.count_call(Kind::Read);
        if fails {
            return Err(self.plan.fault());
        }
        into.copy_from(&self.blocks[at as usize]);
        Ok(())
    }

    /// Fails exactly where this call is one of those that are to fail, or no room is left. With room the bytes are there, whatever
    /// it answers.
    fn write(&mut self, at: u32, from: &Block) -> Result<(), DiskFault>
        requires { at < length self.old.content }
        ensures fails { is_err result
            ≡ (fails_next self.old.plan kind.Write || self.old.room == 0) }
        ensures after { self.new ≡ after_write at from.now self.old }
        ensures record { KeepsRecord self.old self.new }
        ensures size { length self.new.content ≡ length self.old.content }
        ensures written { OnOk result (self.new.content ≡ slice_set self.old.content at from.now) }
        ensures others { AgreesBut (λ other. other == at) self.old.content self.new.content }
        ensures loose { IsLooseWithin (with_loose at (held_loose self.old)) (held_loose self.new) }
        ensures images { Elapses (length self.old.steps) (length self.new.steps)
            (held_since self.old) (held_since self.new)
            (with_loose at (held_loose self.old)) self.old.content }
        ensures counted { OnErr result (FaultCountRose self.old.plan.faults self.new.plan.faults) }
        ensures never_falls { self.old.plan.faults ≤ self.new.plan.faults }
        ensures leads { HeldLeadsTo self.old self.new }
    {
        let fails = self.plan.fails_next(Kind::Write);
        self.plan.count_call(Kind::Write);
        let Some(mut was) = self.spare.pop() else {
            self.marks[at as usize] = true;
            return Err(self.plan.fault());
        };
        let block = &mut self.blocks[at as usize];
        was.copy_from(block);
        block.copy_from(from);
        self.steps.push_reserved(Step::Wrote { at, was });
        self.plan.answer(fails)
    }

    /// Fails exactly where this call is one of those that are to fail, or no room is left.
    fn sync(&mut self) -> Result<(), DiskFault>
        ensures fails { is_err result ≡ (fails_next self.old.plan kind.Sync || self.old.room == 0) }
        ensures after { self.new ≡ after_sync self.old }
        ensures record { KeepsRecord self.old self.new }
        ensures size { length self.new.content ≡ length self.old.content }
        ensures content { self.new.content ≡ self.old.content }
        ensures settled { OnOk result (held_loose self.new ≡ none_loose) }
        ensures unsettled { OnErr result
            (IsLooseWithin (held_loose self.old) (held_loose self.new)) }
        ensures images { Elapses (length self.old.steps) (length self.new.steps)
            (held_since self.old) (held_since self.new)
            (held_loose self.old) self.old.content }
        ensures counted { OnErr result (FaultCountRose self.old.plan.faults self.new.plan.faults) }
        ensures never_falls { self.old.plan.faults ≤ self.new.plan.faults }
        ensures leads { HeldLeadsTo self.old self.new }
    {
        let fails = self.plan.fails_next(Kind::Sync);
        self.plan.count_call(Kind::Sync);
        let Some(_place) = self.spare.pop() else {
            return Err(self.plan.fault());
        };
        if fails {
            self.steps.push_reserved(Step::Unsynced);
            return Err(self.plan.fault());
        }
        self.steps.push_reserved(Step::Synced);
        Ok(())
    }

    ghost sized = { λ disk told. refl };

    ghost content_is_image = { λ disk told. agrees_itself (held_loose disk) disk.content };

    ghost images_agree = { λ disk image told now. now };

    ghost now_counts = { λ disk past image told early now. inl now };

    ghost only_now = { λ disk image told left. only_left_now disk.steps disk.content (held_loose disk) image left };

    ghost earlier_counts = { λ disk earlier later image told order left.
        since_earlier disk.steps disk.content (held_loose disk) earlier later image order left };

    ghost leads_to_itself = { held_itself };

    ghost leads_on = { held_on };
}

#[cfg(test)]
mod tests {
    use super::*;
    use std::process::Abort;
    use std::test;

    fn listed(kind: Kind, number: u64) -> Fail {
        Fail { kind, number }
    }

    /// Makes a call of the second block.
    fn call(rt: &impl Abort, disk: &mut MemDisk, block: &mut Block, kind: Kind) -> bool {
        assert!(rt; disk.blocks() > 1);
        let answer = match kind {
            Kind::Read => disk.read(1, block),
            Kind::Write => disk.write(1, block),
            Kind::Sync => disk.sync(),
        };
        answer.is_ok()
    }

    /// The third sync is past the room.
    #[test]
    fn listed_calls_fail(rt: HostRuntime) -> Result<(), test::Fail> {
        let mut disk = MemDisk::new(rt.alloc(), 2, 4)?;
        let fails = [
            listed(Kind::Read, 2),
            listed(Kind::Write, 1),
            listed(Kind::Sync, 2),
        ];
        disk.arm(&fails, 4)?;
        let mut block = Block::zero(rt.alloc())?;
        let table = [
            (Kind::Read, true),
            (Kind::Read, false),
            (Kind::Write, false),
            (Kind::Write, true),
            (Kind::Sync, true),
            (Kind::Sync, false),
            (Kind::Sync, false),
        ];
        for (kind, done) in table {
            assert_eq!(rt; call(&rt, &mut disk, &mut block, kind), done);
        }
        Ok(())
    }

    /// Writes this byte at both ends of the first block.
    fn mark(rt: &impl Abort, disk: &mut MemDisk, block: &mut Block, byte: u8) -> bool {
        assert!(rt; disk.blocks() > 0);
        block.put(0, &[byte]);
        block.put(4095, &[byte]);
        disk.write(0, block).is_ok()
    }

    /// The bytes at both ends of the first block.
    fn ends(rt: &impl Abort, alloc: Global, disk: &mut MemDisk) -> Result<[u8; 2], Memory> {
        let mut block = Block::zero(alloc)?;
        assert!(rt; disk.blocks() > 0);
        assert_eq!(rt; disk.read(0, &mut block), Ok(()));
        Ok([block.bytes()[0], block.bytes()[4095]])
    }

    /// The bytes that a stop leaves there.
    fn ends_left(
        rt: &impl Abort,
        alloc: Global,
        disk: &MemDisk,
        call: u64,
        pick: Pick,
    ) -> Result<[u8; 2], Memory> {
        let writes = disk.count(Kind::Write);
        let most = writes.saturating_add(disk.count(Kind::Sync));
        assert!(rt; 1 <= call && call <= most.saturating_add(1));
        let mut left = disk.stopped(alloc, call, pick)?;
        ends(rt, alloc, &mut left)
    }

    /// A stop within the call leaves the first byte with `Pick::Old`, the second one with `Pick::New`, and of a torn block both.
    fn leaves(
        rt: &impl Abort,
        alloc: Global,
        disk: &MemDisk,
        call: u64,
        bytes: [u8; 2],
    ) -> Result<(), Memory> {
        let [old, new] = bytes;
        let left = [
            ends_left(rt, alloc, disk, call, Pick::Old)?,
            ends_left(rt, alloc, disk, call, Pick::New)?,
            ends_left(rt, alloc, disk, call, Pick::Torn(9))?,
        ];
        assert_eq!(rt; left, [[old, old], [new, new], [new, 9]], "at {call}");
        Ok(())
    }

    /// Writes 1 and 2, syncs, and writes 3.
    fn written(rt: &impl Abort, alloc: Global) -> Result<MemDisk, Memory> {
        let mut disk = MemDisk::new(alloc, 1, 8)?;
        let mut block = Block::zero(alloc)?;
        let _first = mark(rt, &mut disk, &mut block, 1);
        let _second = mark(rt, &mut disk, &mut block, 2);
        let _synced = disk.sync();
        let _third = mark(rt, &mut disk, &mut block, 3);
        Ok(disk)
    }

    #[test]
    fn stops(rt: HostRuntime) -> Result<(), test::Fail> {
        let disk = written(&rt, rt.alloc())?;
        let table = [(1, [0, 1]), (2, [0, 2]), (3, [0, 2]), (4, [2, 3])];
        for (call, bytes) in table {
            leaves(&rt, rt.alloc(), &disk, call, bytes)?;
        }
        leaves(&rt, rt.alloc(), &disk, 5, [2, 3])?;
        Ok(())
    }

    /// The block is loose as the second record begins, and has 1 at the last sync before it. The first write of that record
    /// fails, and its bytes are used all the same.
    fn written_in_two_records(rt: &impl Abort, alloc: Global) -> Result<MemDisk, Memory> {
        let mut disk = MemDisk::new(alloc, 1, 8)?;
        let mut block = Block::zero(alloc)?;
        let _first = mark(rt, &mut disk, &mut block, 1);
        let _synced = disk.sync();
        let _second = mark(rt, &mut disk, &mut block, 2);
        disk.arm(&[listed(Kind::Write, 1)], 8)?;
        let _failed = mark(rt, &mut disk, &mut block, 3);
        let _settled = disk.sync();
        let _last = mark(rt, &mut disk, &mut block, 4);
        Ok(disk)
    }

    #[test]
    fn stops_in_a_second_record(rt: HostRuntime) -> Result<(), test::Fail> {
        let disk = written_in_two_records(&rt, rt.alloc())?;
        for (call, bytes) in [(1, [1, 3]), (2, [1, 3]), (3, [3, 4]), (4, [3, 4])] {
            leaves(&rt, rt.alloc(), &disk, call, bytes)?;
        }
        Ok(())
    }
}
