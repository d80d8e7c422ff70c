ghost use Rattle.std.specs.Prelude.{◌≡◌, [], ◌+◌, ◌<◌, ◌≤◌, ◌++◌, IsSome, length};
ghost use Rattle.casper_space.specs.WordCalls.{HasMade};
ghost use Rattle.casper_names.specs.Table.{entries_of, names_in, listed, valid_read, list_calls};

use crate::entry::{ENTRIES, TABLE, scan};
use casper_space::Words;
use casper_words::{Name, NameList};

/// Adds the name of a valid entry, and reads its reference.
fn list_entry<W: Words>(words: &mut W, entry: u32, name: Option<Name>, into: &mut NameList)
    requires held { IsSome ((W.seen words.old).right 0) }
    requires within { entry < 64 }
    requires few { length into.old < 64 }
    requires room { 1 ≤ (W.seen words.old).room }
    ensures added { into.new ≡ into.old ++ listed name }
    ensures made { HasMade W.seen W.step words.old
        (valid_read ((W.seen words.old).words 0) entry name) words.new }
    ensures words { (W.seen words.new).words ≡ (W.seen words.old).words }
    ensures left { (W.seen words.old).room ≤ (W.seen words.new).room + 1 }
{
    if let Some(name) = name {
        words.get(TABLE, 5 * entry + 4);
        into.push(name);
    }
}

/// Lists the names of the valid entries, in the order of the entries. The calls are those of the scan of the table, and the read of
/// the reference of each valid entry in order. It takes no memory.
pub fn list<W: Words>(words: &mut W, into: &mut NameList)
    requires held { IsSome ((W.seen words.old).right 0) }
    requires empty { into.old ≡ [] }
    requires room { 600 ≤ (W.seen words.old).room }
    ensures names { into.new ≡ names_in (entries_of ((W.seen words.old).words 0)) }
    ensures made { HasMade W.seen W.step words.old
        (list_calls ((W.seen words.old).words 0)) words.new }
    ensures few { (W.seen words.old).room ≤ (W.seen words.new).room + 600 }
    ensures same { (W.seen words.new).words ≡ (W.seen words.old).words }
{
    let entries = scan(words);
    for entry in 0..ENTRIES {
        list_entry(words, entry, entries[entry as usize], into);
    }
}
