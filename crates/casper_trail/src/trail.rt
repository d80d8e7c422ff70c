ghost use Rattle.std.specs.Prelude.{◌≡◌, [], ◌∷◌, ◌++◌, ◌+◌, ◌<◌, ◌≤◌, ◌/◌, max, length, slice_get, Some, IsOk, OnOk, OnErr, IfOk};
ghost use Rattle.casper_trail.specs.TrailView.{entry_count, commit_count, rollback_count};
ghost use Rattle.casper_trail.specs.Parts.{as_items};
ghost use Rattle.casper_trail.specs.Calls.{calls_of, entry_by, entries_by, touch_by, call_in as recorded_call};

use crate::{Entry, Item, Mark};
use casper_words::{Call, Calls, Memory, Op, Page, Who};
use std::alloc::Global;
use std::marker::Model;

/// The least room that is made at a time.
const LEAST_GROWTH: usize = 64;

/// The one list of items of a session. It grows at its end alone. Contracts see the items, how many entries
/// it may have, and its room: how many more items it takes before it needs memory.
#[derive(Drop)]
pub struct Trail {
    items: Vec<Item>,
    limit: u32,
    entries: u32,
    commits: u64,
    rollbacks: u64,
}

impl Model for Trail {
    ghost use Rattle.std.specs.Prelude.{◌-◌, vec_len, vec_capacity};
    ghost use Rattle.casper_trail.specs.TrailView.{TrailView};
    ghost use Rattle.casper_trail.specs.Counts.{AreCounts};

    ghost Value = { TrailView };

    ghost view = { λ trail. record {
      items = trail.items.items;
      limit = trail.limit;
      room = vec_capacity trail.items - vec_len trail.items;
    } };

    ghost invariant = { λ trail.
        AreCounts trail.items.items trail.limit trail.entries trail.commits trail.rollbacks };
}

impl Trail {
    /// The empty trail of at most `limit` entries, with no room. It takes no memory.
    pub fn new(alloc: Global, limit: u32) -> Trail
        ensures empty { result.items ≡ [] }
        ensures limit { result.limit ≡ limit }
        ensures room { result.room ≡ 0 }
    {
        Trail {
            items: Vec::new(alloc),
            limit,
            entries: 0,
            commits: 0,
            rollbacks: 0,
        }
    }

    /// Makes the room at least `items` items. Where it is less, so much is made as asked for, or 64, or a quarter of the items that
    /// there are and no more than the limit leaves, whichever is most. The items and the limit stay.
    pub fn reserve(&mut self, items: u32) -> Result<(), Memory>
        ensures items { self.new.items ≡ self.old.items }
        ensures limit { self.new.limit ≡ self.old.limit }
        ensures ok { OnOk result (items ≤ self.new.room) }
        ensures grows { self.old.room ≤ self.new.room }
        ensures spare { self.new.room ≤ max (max self.old.room items)
            (max (length self.old.items / 4) 64) }
        ensures succeeds { items ≤ self.old.room → IsOk result }
        ensures err { OnErr result (self.new ≡ self.old) }
    {
        let room = self.items.capacity() - self.items.len();
        if room < items as usize {
            let left = (self.limit - self.entries) as usize;
            let share = (self.items.len() / 4).min(left).max(LEAST_GROWTH);
            self.items.reserve_exact(share.max(items as usize))?;
        }
        Ok(())
    }

    /// Records the calls of a client at the end, in their order. It takes no memory.
    pub fn push_all(&mut self, who: Who, calls: &Calls)
        requires room { length calls.now.items ≤ self.old.room }
        requires limit { entry_count self.old.items + length calls.now.items ≤ self.old.limit }
        ensures items { self.new.items
            ≡ self.old.items ++ as_items (entries_by who calls.now.items) }
        ensures limit { self.new.limit ≡ self.old.limit }
        ensures room { self.old.room ≡ self.new.room + length calls.now.items }
    {
        for call in calls.as_slice() {
            self.push_entry(entry_of(who, *call));
        }
    }

    /// Records at the end that a page was granted to a client. It takes no memory.
    pub fn touch(&mut self, who: Who, page: Page)
        requires room { 0 < self.old.room }
        requires limit { entry_count self.old.items < self.old.limit }
        ensures items { self.new.items ≡ self.old.items ++ Item.Entry (touch_by who page) ∷ [] }
        ensures limit { self.new.limit ≡ self.old.limit }
        ensures room { self.old.room ≡ self.new.room + 1 }
    {
        self.push_entry(Entry {
            who,
            op: Op::Touch,
            page,
            word: 0,
            value: 0,
        });
    }

    /// Records a mark at the end and gives its place. It takes no memory.
    pub fn mark(&mut self, mark: Mark) -> u64
        requires { 0 < self.old.room }
        ensures place { result ≡ length self.old.items }
        ensures items { self.new.items ≡ self.old.items ++ Item.Mark mark ∷ [] }
        ensures limit { self.new.limit ≡ self.old.limit }
        ensures room { self.old.room ≡ self.new.room + 1 }
    {
        let place = self.items.len() as u64;
        self.items.push_reserved(Item::Mark(mark));
        match &mark {
            Mark::Commit { .. } => self.commits += 1,
            Mark::Rollback { .. } => self.rollbacks += 1,
        }
        place
    }

    /// How many items there are.
    pub fn len(&self) -> u64
        ensures { result ≡ length self.now.items }
    {
        self.items.len() as u64
    }

    /// How many of the items are entries, at most the limit.
    pub fn entries(&self) -> u32
        ensures count { result ≡ entry_count self.now.items }
        ensures within { result ≤ self.now.limit }
    {
        self.entries
    }

    /// How many of the items are commit marks.
    pub fn commits(&self) -> u64
        ensures { result ≡ commit_count self.now.items }
    {
        self.commits
    }

    /// How many of the items are rollback marks.
    pub fn rollbacks(&self) -> u64
        ensures { result ≡ rollback_count self.now.items }
    {
        self.rollbacks
    }

    /// The item at a place, from 0.
    pub fn item(&self, at: u64) -> Item
        requires { at < length self.now.items }
        ensures { slice_get self.now.items at ≡ Some result }
    {
        self.items[at as usize]
    }

    /// The reads and writes of a client, in order.
    pub fn entries_of(&self, alloc: Global, who: Who) -> Result<Calls, Memory>
        ensures { IfOk result (λ calls. calls.items ≡ calls_of self.now.items who) }
    {
        let mut calls = Calls::new(alloc);
        for item in self.items.as_slice() {
            if let Some(call) = call_in(*item, who) {
                if let Err(refused) = calls.push(call) {
                    return Err(refused.1);
                }
            }
        }
        Ok(calls)
    }

    fn push_entry(&mut self, entry: Entry)
        requires room { 0 < self.old.room }
        requires limit { entry_count self.old.items < self.old.limit }
        ensures items { self.new.items ≡ self.old.items ++ Item.Entry entry ∷ [] }
        ensures limit { self.new.limit ≡ self.old.limit }
        ensures room { self.old.room ≡ self.new.room + 1 }
    {
        let _mark: Option<Mark> = None;
        self.items.push_reserved(Item::Entry(entry));
        self.entries += 1;
    }
}

fn entry_of(who: Who, call: Call) -> Entry
    ensures { result ≡ entry_by who call }
{
    Entry {
        who,
        op: call.op,
        page: call.page,
        word: call.word,
        value: call.value,
    }
}

fn call_in(item: Item, who: Who) -> Option<Call>
    ensures { result ≡ recorded_call who item }
{
    match item {
        Item::Entry(entry) if entry.who == who && entry.op != Op::Touch => Some(Call {
            op: entry.op,
            page: entry.page,
            word: entry.word,
            value: entry.value,
        }),
        _ => None,
    }
}

#[cfg(test)]
mod tests {
    use super::*;
    use casper_words::Crew;
    use std::test::Fail;

    #[test]
    fn a_client_finds_its_calls(rt: HostRuntime) -> Result<(), Fail> {
        let alloc = rt.alloc();
        let mut trail = Trail::new(alloc, 4);
        assert!(rt; trail.reserve(4).is_ok());
        let mut calls = Calls::new(alloc);
        let write = Call {
            op: Op::Write,
            page: Page(5),
            word: 0,
            value: 17,
        };
        assert!(rt; calls.push(write).is_ok());
        if let (Some(one), Some(two)) = (Who::new(1), Who::new(2)) {
            trail.touch(one, Page(5));
            trail.push_all(one, &calls);
            trail.touch(two, Page(5));
            let members = Crew::none().with(one).with(two);
            assert_eq!(rt; trail.mark(Mark::Commit { lead: one, members }), 3);
            match trail.entries_of(alloc, one) {
                Ok(found) => assert_eq!(rt; found.as_slice(), calls.as_slice()),
                Err(_) => panic!(rt; "out of memory"),
            }
        }
        Ok(())
    }
}
