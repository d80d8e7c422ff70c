ghost use Rattle.std.specs.Prelude.{◌≡◌, ◌+◌, ◌*◌, ◌<◌, ◌≤◌, IsSome, Some, length, take, drop};
ghost use Rattle.std.specs.Int.{w64, from_le_bytes};
ghost use Rattle.casper_words.specs.Name.{IsName};
ghost use Rattle.casper_words.specs.Padded.{padded};
ghost use Rattle.casper_words.specs.declared.page.Right.{Right};
ghost use Rattle.casper_space.specs.WordCalls.{HasMade};
ghost use Rattle.casper_names.specs.Binding.{entry_writes};
ghost use Rattle.casper_names.specs.Table.{bytes_of, name_by, name_at, entries_of, entry_reads, scan_calls};

use arrayvec::ArrayVec;
use casper_space::Words;
use casper_words::{Name, Page};

/// The number of entries of the table.
pub(crate) const ENTRIES: u32 = 64;

/// The page of the table.
pub(crate) const TABLE: Page = Page(0);

/// The names of the entries, in order; none where an entry is not valid.
pub(crate) type Entries = ArrayVec<Option<Name>, 64>;

/// The bytes of three words, each little-endian.
fn bytes_of_words(first: u64, second: u64, third: u64) -> [u8; 24]
    ensures { result ≡ bytes_of first second third }
{
    let mut bytes = [0; 24];
    bytes[..8].copy_from_slice(&first.to_le_bytes());
    bytes[8..16].copy_from_slice(&second.to_le_bytes());
    bytes[16..].copy_from_slice(&third.to_le_bytes());
    bytes
}

/// The name of an entry by its length, of 1 to 24, and its words of bytes.
fn name_of(count: u64, first: u64, second: u64, third: u64) -> Option<Name>
    requires some { 1 ≤ count }
    requires few { count ≤ 24 }
    ensures { result ≡ name_by count first second third }
{
    let bytes = bytes_of_words(first, second, third);
    Name::new(&bytes[..count as usize])
}

/// Reads an entry: its length, and its words of bytes where a name may have that length.
fn read_entry<W: Words>(words: &mut W, entry: u32) -> Option<Name>
    requires held { IsSome ((W.seen words.old).right 0) }
    requires within { entry < 64 }
    requires room { 4 ≤ (W.seen words.old).room }
    ensures name { result ≡ name_at ((W.seen words.old).words 0) entry }
    ensures made { HasMade W.seen W.step words.old
        (entry_reads ((W.seen words.old).words 0) entry) words.new }
    ensures words { (W.seen words.new).words ≡ (W.seen words.old).words }
    ensures few { (W.seen words.old).room ≤ (W.seen words.new).room + 4 }
{
    let place = 5 * entry;
    let count = words.get(TABLE, place);
    if !(1..=24).contains(&count) {
        return None;
    }
    let first = words.get(TABLE, place + 1);
    let second = words.get(TABLE, place + 2);
    let third = words.get(TABLE, place + 3);
    name_of(count, first, second, third)
}

/// Reads all entries in order.
pub(crate) fn scan<W: Words>(words: &mut W) -> Entries
    requires held { IsSome ((W.seen words.old).right 0) }
    requires room { 256 ≤ (W.seen words.old).room }
    ensures entries { result.items ≡ entries_of ((W.seen words.old).words 0) }
    ensures made { HasMade W.seen W.step words.old
        (scan_calls ((W.seen words.old).words 0)) words.new }
    ensures words { (W.seen words.new).words ≡ (W.seen words.old).words }
    ensures few { (W.seen words.old).room ≤ (W.seen words.new).room + 256 }
{
    let mut entries = Entries::new();
    for entry in 0..ENTRIES {
        let name = read_entry(words, entry);
        entries.push(name);
    }
    entries
}

/// The bytes of a name, and zeros after them.
fn padded_bytes(name: &Name) -> [u8; 24]
    ensures { result ≡ padded 24 0 name.now }
{
    let bytes = name.bytes();
    let mut places = [0; 24];
    places[..bytes.len()].copy_from_slice(bytes);
    places
}

/// The word of eight bytes from a place on, little-endian.
fn word_from(bytes: &[u8; 24], place: usize) -> u64
    requires { place ≤ 16 }
    ensures { result ≡ from_le_bytes w64 (take 8 (drop place bytes.now)) }
{
    let mut piece = [0; 8];
    piece.copy_from_slice(&bytes[place..place + 8]);
    u64::from_le_bytes(piece)
}

/// Writes an entry: the length of its name, the words of the bytes, and the value.
pub(crate) fn write_entry<W: Words>(words: &mut W, entry: u32, name: &Name, value: u64)
    requires held { (W.seen words.old).right 0 ≡ Some Right.Write }
    requires within { entry < 64 }
    requires room { 5 ≤ (W.seen words.old).room }
    ensures made { HasMade W.seen W.step words.old (entry_writes entry name.now value) words.new }
    ensures long { length ((W.seen words.old).words 0) ≡ 512 }
    ensures name { IsName name.now }
{
    let place = 5 * entry;
    let bytes = padded_bytes(name);
    words.set(TABLE, place, name.bytes().len() as u64);
    words.set(TABLE, place + 1, word_from(&bytes, 0));
    words.set(TABLE, place + 2, word_from(&bytes, 8));
    words.set(TABLE, place + 3, word_from(&bytes, 16));
    words.set(TABLE, place + 4, value);
}
