ghost use Rattle.std.specs.Prelude.{◌≡◌, ◌+◌, ◌*◌, ◌<◌, ◌≤◌, ◌==◌, [], ◌∷◌, ◌++◌, cond, length, Some, IsSome, IfSome, IfOk, OnOk, OnErr};
ghost use Rattle.std.specs.Int.{bit_at};
ghost use Rattle.casper_words.specs.declared.page.Ref.{Ref};
ghost use Rattle.casper_words.specs.declared.page.Right.{Right};
ghost use Rattle.casper_space.specs.WordCalls.{HasMade};
ghost use Rattle.casper_heap.specs.Walk.{blocks_of, walk_calls};
ghost use Rattle.casper_heap.specs.Objects.{field_of, Number, Reference, count_at, objects_of, with_field};
ghost use Rattle.casper_heap.specs.Answers.{place_if, count_if_both, target_of, answer_of_set, answer_of_ref, answer_of_get, answer_of_follow};
ghost use Rattle.casper_heap.specs.HeapCalls.{with_tag, without_tag, tags_at, where_object, store_calls, set_calls, ref_calls, get_calls, follow_calls};

use crate::HeapFault;
use crate::block::HeapBlock;
use crate::walk::{fields_at, walk_page};
use casper_space::Words;
use casper_words::{Frame, Page, Ref};

/// The number of fields of an object, after the walk of its page.
pub(crate) fn count_fields<W: Words>(words: &mut W, page: Page, word: u32) -> Option<u32>
    requires held { IsSome ((W.seen words.old).right page) }
    requires room { 172 ≤ (W.seen words.old).room }
    ensures count { result ≡ count_at ((W.seen words.old).words page) word }
    ensures within { IfSome result (λ count. (count ≤ 64) × (word + count + 2 ≤ 512)) }
    ensures made { HasMade W.seen W.step words.old
        (walk_calls (W.seen words.old).words page) words.new }
    ensures words { (W.seen words.new).words ≡ (W.seen words.old).words }
    ensures few { (W.seen words.old).room ≤ (W.seen words.new).room + 172 }
{
    let walk = walk_page(words, page);
    fields_at(&walk.blocks, word)
}

/// The place of the word of a field, after the walk of its page.
fn find_field<W: Words>(words: &mut W, page: Page, word: u32, i: u32) -> Result<u32, HeapFault>
    requires held { IsSome ((W.seen words.old).right page) }
    requires room { 172 ≤ (W.seen words.old).room }
    ensures answer { result ≡ place_if (count_at ((W.seen words.old).words page) word) word i }
    ensures within { OnOk result ((i < 64) × (word + 2 + i < 512)) }
    ensures made { HasMade W.seen W.step words.old
        (walk_calls (W.seen words.old).words page) words.new }
    ensures words { (W.seen words.new).words ≡ (W.seen words.old).words }
    ensures few { (W.seen words.old).room ≤ (W.seen words.new).room + 172 }
{
    let Some(count) = count_fields(words, page, word) else {
        return Err(HeapFault::NoObject);
    };
    if i >= count {
        return Err(HeapFault::NoField);
    }
    Ok(word + 2 + i)
}

/// Stores the word of a field, and notes in the tags whether it is a reference.
fn store<W: Words>(words: &mut W, page: Page, word: u32, i: u32, value: u64, is_reference: bool)
    requires held { (W.seen words.old).right page ≡ Some Right.Write }
    requires field { i < 64 }
    requires within { word + 2 + i < 512 }
    requires room { 3 ≤ (W.seen words.old).room }
    ensures made { let page_words = (W.seen words.old).words page in
        let tags = tags_at page_words word in
        HasMade W.seen W.step words.old
        (store_calls page page_words word i value
        (cond is_reference (with_tag tags i) (without_tag tags i))) words.new }
    ensures long { length ((W.seen words.old).words page) ≡ 512 }
{
    let tags = words.get(page, word + 1);
    let bit = 1u64 << i;
    words.set(page, word + 2 + i, value);
    let tags = if is_reference {
        tags | bit
    } else {
        tags & !bit
    };
    words.set(page, word + 1, tags);
}

/// Whether the object that a field is to lead to is there, by the walk of its page, which is made if it is another page.
fn count_second<W: Words>(
    words: &mut W,
    blocks: &[HeapBlock],
    page: Page,
    other: Page,
    word: u32,
) -> Option<u32>
    requires held { IsSome ((W.seen words.old).right other) }
    requires room { 172 ≤ (W.seen words.old).room }
    requires walked { blocks.now ≡ blocks_of ((W.seen words.old).words page) }
    ensures count { result ≡ count_at ((W.seen words.old).words other) word }
    ensures within { IfSome result (λ _. word < 512) }
    ensures made { HasMade W.seen W.step words.old
        (cond (other == page) [] (walk_calls (W.seen words.old).words other)) words.new }
    ensures words { (W.seen words.new).words ≡ (W.seen words.old).words }
    ensures few { (W.seen words.old).room ≤ (W.seen words.new).room + 172 }
{
    if other == page {
        fields_at(blocks, word)
    } else {
        count_fields(words, other, word)
    }
}

/// The number of fields of an object, after the walks of its page and of the page of a second object, which must be there too.
fn count_where_both<W: Words>(
    words: &mut W,
    page: Page,
    word: u32,
    other: Page,
    other_word: u32,
) -> Result<u32, HeapFault>
    requires held { IsSome ((W.seen words.old).right page) }
    requires other_held { IsSome ((W.seen words.old).right other) }
    requires room { 344 ≤ (W.seen words.old).room }
    ensures answer { result
        ≡ count_if_both (count_at ((W.seen words.old).words page) word)
        (count_at ((W.seen words.old).words other) other_word) }
    ensures within { IfOk result (λ count. (count ≤ 64) × (word + count + 2 ≤ 512)) }
    ensures target { OnOk result (other_word < 512) }
    ensures made { let pages = (W.seen words.old).words in
        HasMade W.seen W.step words.old (walk_calls pages page
        ++ where_object (count_at (pages page) word)
        (cond (other == page) [] (walk_calls pages other))) words.new }
    ensures words { (W.seen words.new).words ≡ (W.seen words.old).words }
    ensures few { (W.seen words.old).room ≤ (W.seen words.new).room + 344 }
{
    let walk = walk_page(words, page);
    let Some(count) = fields_at(&walk.blocks, word) else {
        return Err(HeapFault::NoObject);
    };
    match count_second(words, &walk.blocks, page, other, other_word) {
        Some(_) => Ok(count),
        None => Err(HeapFault::NoObject),
    }
}

/// The number that a reference to a word of a page is stored as.
fn number_of_place(page: Page, word: u32) -> u64
    ensures { result ≡ 512 * page + word }
{
    u64::from(Frame::WORDS) * u64::from(page.0) + u64::from(word)
}

/// A field as a reference, by the tags of its object and its own word.
fn as_reference(tags: u64, i: u32, value: u64, pages: u32) -> Result<Ref, HeapFault>
    requires { i < 64 }
    ensures { result ≡ target_of pages (Some (field_of (bit_at tags i) value)) }
{
    let page = value / u64::from(Frame::WORDS);
    if (tags >> i) & 1 == 0 || page >= u64::from(pages) {
        return Err(HeapFault::NotARef);
    }
    Ok(Ref {
        page: Page(page as u32),
        word: (value % u64::from(Frame::WORDS)) as u32,
    })
}

/// Makes a field a number. The calls are those of the walk, the read of the tags, and the writes of the field and of the tags.
/// After a refusal no word has changed.
pub fn set_number<W: Words>(words: &mut W, r: Ref, i: u32, v: u64) -> Result<(), HeapFault>
    requires held { (W.seen words.old).right r.page ≡ Some Right.Write }
    requires room { 600 ≤ (W.seen words.old).room }
    ensures answer { result ≡ answer_of_set (objects_of (W.seen words.old).words r) i }
    ensures changed { OnOk result ((other : Ref) → objects_of (W.seen words.new).words other
        ≡ with_field (objects_of (W.seen words.old).words) r i (Number v) other) }
    ensures made { HasMade W.seen W.step words.old
        (set_calls (W.seen words.old).words r i v) words.new }
    ensures few { (W.seen words.old).room ≤ (W.seen words.new).room + 600 }
    ensures refused { OnErr result ((W.seen words.new).words ≡ (W.seen words.old).words) }
{
    find_field(words, r.page, r.word, i)?;
    store(words, r.page, r.word, i, v, false);
    Ok(())
}

/// The word of a field, after the walk.
pub fn get<W: Words>(words: &mut W, r: Ref, i: u32) -> Result<u64, HeapFault>
    requires held { IsSome ((W.seen words.old).right r.page) }
    requires room { 600 ≤ (W.seen words.old).room }
    ensures answer { result ≡ answer_of_get (objects_of (W.seen words.old).words r) i }
    ensures made { HasMade W.seen W.step words.old
        (get_calls (W.seen words.old).words r i) words.new }
    ensures few { (W.seen words.old).room ≤ (W.seen words.new).room + 600 }
    ensures same { (W.seen words.new).words ≡ (W.seen words.old).words }
{
    let place = find_field(words, r.page, r.word, i)?;
    Ok(words.get(r.page, place))
}

/// Makes a field a reference to another object. The calls are those of the walk of the page of the one and, if it is another, of the
/// page of the other, the read of the tags, and the writes of the field and of the tags. After a refusal no word has changed.
pub fn set_ref<W: Words>(words: &mut W, r: Ref, i: u32, to: Ref) -> Result<(), HeapFault>
    requires held { (W.seen words.old).right r.page ≡ Some Right.Write }
    requires target { IsSome ((W.seen words.old).right to.page) }
    requires room { 600 ≤ (W.seen words.old).room }
    ensures answer { let objects = objects_of (W.seen words.old).words in result
        ≡ answer_of_ref (objects r) (objects to) i }
    ensures changed { OnOk result ((other : Ref) → objects_of (W.seen words.new).words other
        ≡ with_field (objects_of (W.seen words.old).words) r i (Reference to.page to.word) other) }
    ensures made { HasMade W.seen W.step words.old
        (ref_calls (W.seen words.old).words r i to) words.new }
    ensures few { (W.seen words.old).room ≤ (W.seen words.new).room + 600 }
    ensures refused { OnErr result ((W.seen words.new).words ≡ (W.seen words.old).words) }
{
    let count = count_where_both(words, r.page, r.word, to.page, to.word)?;
    if i >= count {
        return Err(HeapFault::NoField);
    }
    let value = number_of_place(to.page, to.word);
    store(words, r.page, r.word, i, value, true);
    Ok(())
}

/// Where a field leads, in a store of so many pages. The calls are those of the walk, and the reads of the tags and of the field.
pub fn follow<W: Words>(words: &mut W, r: Ref, i: u32, pages: u32) -> Result<Ref, HeapFault>
    requires held { IsSome ((W.seen words.old).right r.page) }
    requires room { 600 ≤ (W.seen words.old).room }
    ensures answer { result ≡ answer_of_follow pages (objects_of (W.seen words.old).words r) i }
    ensures made { HasMade W.seen W.step words.old
        (follow_calls (W.seen words.old).words r i) words.new }
    ensures few { (W.seen words.old).room ≤ (W.seen words.new).room + 600 }
    ensures same { (W.seen words.new).words ≡ (W.seen words.old).words }
{
    let place = find_field(words, r.page, r.word, i)?;
    let tags = words.get(r.page, r.word + 1);
    let value = words.get(r.page, place);
    as_reference(tags, i, value, pages)
}
