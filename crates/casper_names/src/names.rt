ghost use Rattle.std.specs.Prelude.{◌≡◌, ◌≢◌, ℕ, ◌+◌, ◌<◌, ◌≤◌, List, false, IsSome, IfSome, Some, is_some, position, length};
ghost use Rattle.std.specs.Str.{bytes_eq};
ghost use Rattle.casper_words.specs.declared.page.Right.{Right};
ghost use Rattle.casper_space.specs.WordCalls.{HasMade};
ghost use Rattle.casper_names.specs.Table.{is_named, entries_of, entry_of, names_of, without_entry, lookup_calls, unbind_calls};

use crate::entry::{TABLE, scan};
use casper_space::Words;
use casper_words::Name;

/// Whether an entry has this name.
fn has_name(entry: &Option<Name>, name: &Name) -> bool
    ensures { result ≡ is_named name.now entry.now }
{
    match entry {
        Some(found) => found == name,
        None => false,
    }
}

/// The place of the first entry with this name.
fn position_of(entries: &[Option<Name>], name: &Name) -> Option<usize>
    ensures { result ≡ position (is_named name.now) entries.now }
{
    entries.iter().position(|entry| has_name(entry, name))
}

/// The first entry with this name.
pub(crate) fn find_entry(entries: &[Option<Name>], name: &Name) -> Option<usize>
    ensures entry { result ≡ position (is_named name.now) entries.now }
    ensures within { IfSome result (λ entry. entry < length entries.now) }
{
    position_of(entries, name)
}

/// Where a name leads: the number that a reference is stored as, 512 times its page and its word. The calls are those of the scan of
/// the table, and the read of the reference.
pub fn lookup<W: Words>(words: &mut W, name: &Name) -> Option<u64>
    requires held { IsSome ((W.seen words.old).right 0) }
    requires room { 600 ≤ (W.seen words.old).room }
    ensures answer { result ≡ names_of ((W.seen words.old).words 0) name.now }
    ensures made { HasMade W.seen W.step words.old
        (lookup_calls ((W.seen words.old).words 0) name.now) words.new }
    ensures few { (W.seen words.old).room ≤ (W.seen words.new).room + 600 }
    ensures same { (W.seen words.new).words ≡ (W.seen words.old).words }
{
    let entries = scan(words);
    let Some(entry) = find_entry(&entries, name) else {
        return None;
    };
    Some(words.get(TABLE, 5 * entry as u32 + 4))
}

/// Takes the first entry with this name out of the table, if there is one. A later entry of the name then counts. The calls are
/// those of the scan of the table, and the write of the length.
pub fn unbind<W: Words>(words: &mut W, name: &Name) -> bool
    requires held { (W.seen words.old).right 0 ≡ Some Right.Write }
    requires room { 600 ≤ (W.seen words.old).room }
    ensures answer { result ≡ is_some (names_of ((W.seen words.old).words 0) name.now) }
    ensures removed { let page_words = (W.seen words.old).words 0 in
        entries_of ((W.seen words.new).words 0)
        ≡ without_entry (entries_of page_words) (entry_of page_words name.now) }
    ensures others { (other : List ℕ) → bytes_eq other name.now ≡ false
        → names_of ((W.seen words.new).words 0) other
        ≡ names_of ((W.seen words.old).words 0) other }
    ensures pages { (page : ℕ) → page ≢ 0
        → (W.seen words.new).words page ≡ (W.seen words.old).words page }
    ensures made { HasMade W.seen W.step words.old
        (unbind_calls ((W.seen words.old).words 0) name.now) words.new }
    ensures few { (W.seen words.old).room ≤ (W.seen words.new).room + 600 }
{
    let entries = scan(words);
    let Some(entry) = find_entry(&entries, name) else {
        return false;
    };
    words.set(TABLE, 5 * entry as u32, 0);
    true
}

#[cfg(test)]
mod tests {
    use super::*;
    use casper_space::Plain;
    use casper_words::Page;
    use std::process::Abort;
    use std::test::Fail;

    fn ready(rt: &impl Abort, plain: &Plain)
        ensures pages { 1 ≤ length plain.now.pages }
        ensures room { 600 ≤ plain.now.room }
    {
        assert!(rt; plain.pages() >= 1);
        assert!(rt; plain.room() >= 600);
    }

    fn set_word(rt: &impl Abort, plain: &mut Plain, word: u32, value: u64) {
        assert!(rt; word < 512);
        ready(rt, plain);
        plain.set(Page(0), word, value);
    }

    fn find(rt: &impl Abort, plain: &mut Plain, name: &Name) -> Option<u64> {
        ready(rt, plain);
        lookup(plain, name)
    }

    fn take_out(rt: &impl Abort, plain: &mut Plain, name: &Name) -> bool {
        ready(rt, plain);
        unbind(plain, name)
    }

    #[test]
    fn desk_leads_to_its_object(rt: HostRuntime) -> Result<(), Fail> {
        let mut plain = Plain::new(rt.alloc(), 1, 1_000)?;
        let desk = Name::new(b"desk").ok_or("no name")?;
        set_word(&rt, &mut plain, 0, 4);
        set_word(&rt, &mut plain, 1, 1_802_724_708);
        set_word(&rt, &mut plain, 4, 513);
        assert_eq!(rt; find(&rt, &mut plain, &desk), Some(513));
        assert_eq!(rt; take_out(&rt, &mut plain, &desk), true);
        assert_eq!(rt; find(&rt, &mut plain, &desk), None);
        Ok(())
    }
}
