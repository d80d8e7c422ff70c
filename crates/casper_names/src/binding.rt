ghost use Rattle.std.specs.Prelude.{◌≡◌, ◌≢◌, ℕ, List, ◌+◌, ◌*◌, ◌<◌, ◌≤◌, IsSome, Some, IfSome, OnOk, OnErr, position, length};
ghost use Rattle.casper_words.specs.declared.page.Right.{Right};
ghost use Rattle.casper_space.specs.WordCalls.{HasMade};
ghost use Rattle.casper_heap.specs.Objects.{objects_of};
ghost use Rattle.casper_names.specs.Table.{is_named, entries_of, names_of, scan_calls};
ghost use Rattle.casper_names.specs.Binding.{is_free, found_or_free, entry_for, value_of_ref, answer_of_bind, bind_calls, with_entry, with_name};

use crate::NameFault;
use crate::entry::{scan, write_entry};
use crate::names::find_entry;
use casper_heap::is_object;
use casper_space::Words;
use casper_words::{Name, Page, Ref};

/// Whether an entry is not valid.
fn is_invalid(entry: &Option<Name>) -> bool
    ensures { result ≡ is_free entry.now }
{
    entry.is_none()
}

/// The first entry that is not valid.
fn free_entry(entries: &[Option<Name>]) -> Option<usize>
    ensures { result ≡ position is_free entries.now }
{
    entries.iter().position(is_invalid)
}

/// The entry where a name is bound: the first with this name, else the first that is not valid.
fn entry_to_bind(entries: &[Option<Name>], name: &Name) -> Option<usize>
    ensures entry { result
        ≡ found_or_free (position (is_named name.now) entries.now) (position is_free entries.now) }
    ensures within { IfSome result (λ entry. entry < length entries.now) }
{
    find_entry(entries, name).or_else(|| free_entry(entries))
}

/// Scans the table for the entry where a name is bound.
fn scan_to_bind<W: Words>(words: &mut W, name: &Name) -> Option<usize>
    requires held { IsSome ((W.seen words.old).right 0) }
    requires room { 256 ≤ (W.seen words.old).room }
    ensures entry { result ≡ entry_for ((W.seen words.old).words 0) name.now }
    ensures within { IfSome result (λ entry. entry < 64) }
    ensures made { HasMade W.seen W.step words.old
        (scan_calls ((W.seen words.old).words 0)) words.new }
    ensures words { (W.seen words.new).words ≡ (W.seen words.old).words }
    ensures few { (W.seen words.old).room ≤ (W.seen words.new).room + 256 }
{
    let entries = scan(words);
    entry_to_bind(&entries, name)
}

/// The number that a reference to a word of a page is stored as.
fn number_of_place(page: Page, word: u32) -> u64
    ensures { result ≡ 512 * page + word }
{
    512 * u64::from(page.0) + u64::from(word)
}

/// Lets a name lead to an object. Every other name stays. The calls are those of the walk of the object's page, those of the scan of
/// the table, and the writes of the five words of the entry: of the first valid entry with this name, else of the first that is not
/// valid. Where the reference names no object the table is not scanned. After a refusal no word has changed.
pub fn bind<W: Words>(words: &mut W, name: &Name, r: Ref) -> Result<(), NameFault>
    requires table { (W.seen words.old).right 0 ≡ Some Right.Write }
    requires held { IsSome ((W.seen words.old).right r.page) }
    requires room { 600 ≤ (W.seen words.old).room }
    ensures answer { result
        ≡ answer_of_bind (objects_of (W.seen words.old).words r)
        (entry_for ((W.seen words.old).words 0) name.now) }
    ensures bound { OnOk result ((other : List ℕ) → names_of ((W.seen words.new).words 0) other
        ≡ with_name (names_of ((W.seen words.old).words 0)) name.now (value_of_ref r) other) }
    ensures entry { OnOk result (let page_words = (W.seen words.old).words 0 in
        entries_of ((W.seen words.new).words 0)
        ≡ with_entry (entries_of page_words) (entry_for page_words name.now) name.now) }
    ensures pages { (page : ℕ) → page ≢ 0
        → (W.seen words.new).words page ≡ (W.seen words.old).words page }
    ensures made { HasMade W.seen W.step words.old
        (bind_calls (W.seen words.old).words name.now r) words.new }
    ensures few { (W.seen words.old).room ≤ (W.seen words.new).room + 600 }
    ensures refused { OnErr result ((W.seen words.new).words ≡ (W.seen words.old).words) }
{
    let value = number_of_place(r.page, r.word);
    if !is_object(words, r) {
        return Err(NameFault::NoObject);
    }
    let Some(entry) = scan_to_bind(words, name) else {
        return Err(NameFault::TableFull);
    };
    write_entry(words, entry as u32, name, value);
    Ok(())
}

#[cfg(test)]
mod tests {
    use super::*;
    use crate::{list, lookup, unbind};
    use casper_heap::{PageFull, alloc_object};
    use casper_space::Plain;
    use casper_words::{Memory, NameList};
    use std::alloc::Global;
    use std::process::Abort;
    use std::test::Fail;

    fn ready(rt: &impl Abort, plain: &Plain)
        ensures pages { 2 ≤ length plain.now.pages }
        ensures room { 600 ≤ plain.now.room }
    {
        assert!(rt; plain.pages() >= 2);
        assert!(rt; plain.room() >= 600);
    }

    fn first_object() -> Ref
        ensures page { result.page ≡ 1 }
        ensures word { result.word ≡ 1 }
    {
        Ref {
            page: Page(1),
            word: 1,
        }
    }

    /// Makes the first object of page 1.
    fn make_first(rt: &impl Abort, plain: &mut Plain) -> Result<Ref, PageFull> {
        ready(rt, plain);
        alloc_object(plain, Page(1), 2)
    }

    /// Binds a name to the first object of page 1.
    fn bind_first(rt: &impl Abort, plain: &mut Plain, name: &Name) -> Result<(), NameFault> {
        ready(rt, plain);
        bind(plain, name, first_object())
    }

    fn find(rt: &impl Abort, plain: &mut Plain, name: &Name) -> Option<u64> {
        ready(rt, plain);
        lookup(plain, name)
    }

    fn take_out(rt: &impl Abort, plain: &mut Plain, name: &Name) -> bool {
        ready(rt, plain);
        unbind(plain, name)
    }

    fn listed(rt: &impl Abort, alloc: Global, plain: &mut Plain) -> Result<NameList, Memory> {
        let mut names = NameList::new(alloc)?;
        ready(rt, plain);
        list(plain, &mut names);
        Ok(names)
    }

    /// A word of the table's page.
    fn word_at(rt: &impl Abort, plain: &mut Plain, word: u32) -> u64 {
        assert!(rt; word < 512);
        ready(rt, plain);
        plain.get(Page(0), word)
    }

    /// Binds an entry to the name `a`.
    fn fill_entry(rt: &impl Abort, plain: &mut Plain, entry: u32) {
        assert!(rt; entry < 64);
        ready(rt, plain);
        plain.set(Page(0), 5 * entry, 1);
        ready(rt, plain);
        plain.set(Page(0), 5 * entry + 1, 97);
    }

    #[test]
    fn desk_is_bound_to_its_object(rt: HostRuntime) -> Result<(), Fail> {
        let mut plain = Plain::new(rt.alloc(), 2, 3_000)?;
        let desk = Name::new(b"desk").ok_or("no name")?;
        let none = Err(NameFault::NoObject);
        assert_eq!(rt; bind_first(&rt, &mut plain, &desk), none);
        assert_eq!(rt; make_first(&rt, &mut plain), Ok(first_object()));
        assert_eq!(rt; bind_first(&rt, &mut plain, &desk), Ok(()));
        let table = [4, 1_802_724_708, 0, 0, 513];
        for word in 0..5 {
            assert_eq!(rt; word_at(&rt, &mut plain, word), table[word as usize]);
        }
        assert_eq!(rt; find(&rt, &mut plain, &desk), Some(513));
        Ok(())
    }

    #[test]
    fn a_free_entry_is_used_again(rt: HostRuntime) -> Result<(), Fail> {
        let mut plain = Plain::new(rt.alloc(), 2, 3_000)?;
        let desk = Name::new(b"desk").ok_or("no name")?;
        let lamp = Name::new(b"lamp").ok_or("no name")?;
        let cup = Name::new(b"cup").ok_or("no name")?;
        assert_eq!(rt; make_first(&rt, &mut plain), Ok(first_object()));
        assert_eq!(rt; bind_first(&rt, &mut plain, &desk), Ok(()));
        assert_eq!(rt; bind_first(&rt, &mut plain, &lamp), Ok(()));
        let before = listed(&rt, rt.alloc(), &mut plain)?;
        assert_eq!(rt; before.as_slice(), [desk, lamp].as_slice());
        assert_eq!(rt; take_out(&rt, &mut plain, &desk), true);
        assert_eq!(rt; bind_first(&rt, &mut plain, &cup), Ok(()));
        let after = listed(&rt, rt.alloc(), &mut plain)?;
        assert_eq!(rt; after.as_slice(), [cup, lamp].as_slice());
        Ok(())
    }

    #[test]
    fn a_full_table_takes_no_other_name(rt: HostRuntime) -> Result<(), Fail> {
        let mut plain = Plain::new(rt.alloc(), 2, 3_000)?;
        let desk = Name::new(b"desk").ok_or("no name")?;
        let a = Name::new(b"a").ok_or("no name")?;
        assert_eq!(rt; make_first(&rt, &mut plain), Ok(first_object()));
        for entry in 0..64 {
            fill_entry(&rt, &mut plain, entry);
        }
        let full = Err(NameFault::TableFull);
        assert_eq!(rt; bind_first(&rt, &mut plain, &desk), full);
        assert_eq!(rt; bind_first(&rt, &mut plain, &a), Ok(()));
        Ok(())
    }
}
