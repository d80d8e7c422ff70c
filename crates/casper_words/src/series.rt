ghost use Rattle.std.specs.Prelude.{◌≡◌, [], ◌∷◌, ◌++◌, ◌+◌, ◌<◌, ◌≤◌, length, IsOk, OnOk, OnErr, IfErr};

use crate::Memory;
use std::alloc::Global;
use std::marker::Model;

/// A list that grows at its end. Contracts see the list, and its room: how many more items it takes
/// before it needs memory.
#[derive(Drop)]
pub struct Series<T> {
    items: Vec<T>,
}

impl<T> Model for Series<T> {
    ghost use Rattle.std.specs.Prelude.{◌-◌, vec_len, vec_capacity};
    ghost use Rattle.casper_words.specs.Roomed.{Roomed};

    ghost Value = { Roomed T };

    ghost view = { λ series. record {
      items = series.items.items;
      room = vec_capacity series.items - vec_len series.items;
    } };
}

impl<T> Series<T> {
    /// The empty list, with no room. It takes no memory.
    pub fn new(alloc: Global) -> Series<T>
        ensures empty { result.items ≡ [] }
        ensures room { result.room ≡ 0 }
    {
        Series {
            items: Vec::new(alloc),
        }
    }

    /// Adds an item at the end, or gives it back where memory is short.
    pub fn push(&mut self, item: T) -> Result<(), (T, Memory)>
        ensures ok { OnOk result (self.new.items ≡ self.old.items ++ item ∷ []) }
        ensures room { 0 < self.old.room → self.old.room ≡ self.new.room + 1 }
        ensures succeeds { 0 < self.old.room → IsOk result }
        ensures err { OnErr result (self.new.items ≡ self.old.items) }
        ensures returned { IfErr result (λ refusal. refusal.0 ≡ item) }
    {
        if self.items.len() < self.items.capacity() {
            self.items.push_reserved(item);
            return Ok(());
        }
        match self.items.push(item) {
            Ok(()) => Ok(()),
            Err(refused) => Err((refused.value, Memory)),
        }
    }

    /// Makes the room at least `count` items.
    pub fn reserve(&mut self, count: u32) -> Result<(), Memory>
        ensures items { self.new.items ≡ self.old.items }
        ensures ok { OnOk result (count ≤ self.new.room) }
        ensures grows { self.old.room ≤ self.new.room }
        ensures succeeds { count ≤ self.old.room → IsOk result }
    {
        self.items.reserve(count as usize)?;
        Ok(())
    }

    /// The list in order.
    pub fn as_slice(&self) -> &[T]
        ensures { result.now ≡ self.now.items }
    {
        self.items.as_slice()
    }
}

impl<T: Drop> Series<T> {
    /// Empties the list, and keeps its memory.
    pub fn clear(&mut self)
        ensures empty { self.new.items ≡ [] }
        ensures room { length self.old.items + self.old.room ≤ self.new.room }
    {
        self.items.clear();
    }
}

#[cfg(test)]
mod tests {
    use super::*;
    use std::test::Fail;

    #[test]
    fn grows(rt: HostRuntime) -> Result<(), Fail> {
        let mut list = Series::new(rt.alloc());
        list.push(5u32)?;
        list.reserve(2)?;
        list.push(6)?;
        assert_eq!(rt; list.as_slice(), [5, 6].as_slice());
        Ok(())
    }
}
