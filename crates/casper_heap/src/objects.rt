ghost use Rattle.std.specs.Prelude.{◌≡◌, ◌+◌, ◌<◌, ◌≤◌, ◌↔◌, [], ◌∷◌, ◌++◌, cond, length, Some, None, IsSome, IfOk, OnOk, OnErr, is_some, map, replicate};
ghost use Rattle.casper_words.specs.declared.page.Ref.{Ref};
ghost use Rattle.casper_words.specs.declared.page.Right.{Right};
ghost use Rattle.casper_space.specs.WordCalls.{HasMade, write_of};
ghost use Rattle.casper_heap.specs.Walk.{walk_calls, blocks_of, walk_end, first_free};
ghost use Rattle.casper_heap.specs.Objects.{Number, objects_of, with_object, field_place};
ghost use Rattle.casper_heap.specs.Answers.{answer_of_free, answer_of_new, place_of_new};
ghost use Rattle.casper_heap.specs.HeapCalls.{free_calls, field_writes, object_writes, new_calls};
ghost use Rattle.casper_heap.specs.declared.fault.PageFull.{PageFull};

use crate::fields::count_fields;
use crate::walk::{free_place, walk_page};
use crate::{HeapFault, PageFull};
use casper_space::Words;
use casper_words::{Frame, Page, Ref};

/// Whether a reference names an object, after the walk of its page.
pub fn is_object<W: Words>(words: &mut W, r: Ref) -> bool
    requires held { IsSome ((W.seen words.old).right r.page) }
    requires room { 172 ≤ (W.seen words.old).room }
    ensures answer { result ≡ is_some (objects_of (W.seen words.old).words r) }
    ensures made { HasMade W.seen W.step words.old
        (walk_calls (W.seen words.old).words r.page) words.new }
    ensures words { (W.seen words.new).words ≡ (W.seen words.old).words }
    ensures few { (W.seen words.old).room ≤ (W.seen words.new).room + 172 }
{
    count_fields(words, r.page, r.word).is_some()
}

/// Frees an object: its block may be used by another one with as many fields. The calls are those of the walk, and the write of the
/// header. After a refusal no word has changed.
pub fn free_object<W: Words>(words: &mut W, r: Ref) -> Result<(), HeapFault>
    requires held { (W.seen words.old).right r.page ≡ Some Right.Write }
    requires room { 600 ≤ (W.seen words.old).room }
    ensures answer { result ≡ answer_of_free (objects_of (W.seen words.old).words r) }
    ensures changed { OnOk result ((other : Ref) → objects_of (W.seen words.new).words other
        ≡ with_object (objects_of (W.seen words.old).words) r None other) }
    ensures made { HasMade W.seen W.step words.old
        (free_calls (W.seen words.old).words r) words.new }
    ensures few { (W.seen words.old).room ≤ (W.seen words.new).room + 600 }
    ensures refused { OnErr result ((W.seen words.new).words ≡ (W.seen words.old).words) }
{
    let Some(count) = count_fields(words, r.page, r.word) else {
        return Err(HeapFault::NoObject);
    };
    words.set(r.page, r.word, u64::from(count));
    Ok(())
}

/// Writes 0 into each of so many fields.
fn clear_fields<W: Words>(words: &mut W, page: Page, place: u32, count: u32)
    requires held { (W.seen words.old).right page ≡ Some Right.Write }
    requires within { place + count + 2 ≤ 512 }
    requires room { count ≤ (W.seen words.old).room }
    ensures made { HasMade W.seen W.step words.old (field_writes page place count) words.new }
{
    for i in 0..count {
        words.set(page, place + 2 + i, 0);
    }
}

/// Writes an object of so many fields, all of them the number 0.
#[tactic(auto, unfolding(crate::specs::HeapCalls::object_writes))]
fn write_object<W: Words>(words: &mut W, page: Page, place: u32, count: u32)
    requires held { (W.seen words.old).right page ≡ Some Right.Write }
    requires within { place + count + 2 ≤ 512 }
    requires room { count + 2 ≤ (W.seen words.old).room }
    ensures made { HasMade W.seen W.step words.old (object_writes page place count) words.new }
    ensures long { length ((W.seen words.old).words page) ≡ 512 }
{
    words.set(page, place, 256 + u64::from(count));
    words.set(page, place + 1, 0);
    clear_fields(words, page, place, count);
}

/// Where a new object goes: into the free block, or to the walk's end where it fits.
fn place_for(free: Option<u32>, end: u32, count: u32) -> Option<u32>
    requires fields { count ≤ 64 }
    requires most { end ≤ 512 }
    ensures { result ≡ place_of_new free end count }
{
    if free.is_some() {
        free
    } else if end + count + 2 <= Frame::WORDS {
        Some(end)
    } else {
        None
    }
}

/// Writes a new object, and after it the end of the used part, unless it took a free block.
fn write_new<W: Words>(words: &mut W, page: Page, free: Option<u32>, place: u32, count: u32)
    requires held { (W.seen words.old).right page ≡ Some Right.Write }
    requires within { place + count + 2 ≤ 512 }
    requires room { count + 3 ≤ (W.seen words.old).room }
    ensures made { HasMade W.seen W.step words.old
        (object_writes page place count
        ++ cond (is_some free) [] (write_of page 0 (place + count + 2) ∷ [])) words.new }
    ensures long { length ((W.seen words.old).words page) ≡ 512 }
{
    write_object(words, page, place, count);
    if free.is_none() {
        words.set(page, 0, u64::from(place + count + 2));
    }
}

/// Makes an object of so many fields, all of them the number 0. The calls are those of the walk, and the writes of the header, the
/// tags and the fields, and at the walk's end of the first word. After a refusal no word has changed.
pub fn alloc_object<W: Words>(words: &mut W, page: Page, n: u32) -> Result<Ref, PageFull>
    requires held { (W.seen words.old).right page ≡ Some Right.Write }
    requires some { 1 ≤ n }
    requires few { n ≤ 64 }
    requires room { 600 ≤ (W.seen words.old).room }
    ensures answer { let page_words = (W.seen words.old).words page in
        result ≡ answer_of_new
        (place_of_new (first_free (blocks_of page_words) n) (walk_end page_words) n) page }
    ensures new { IfOk result (λ r. objects_of (W.seen words.old).words r ≡ None) }
    ensures changed { IfOk result (λ r. (other : Ref) → objects_of (W.seen words.new).words other
        ≡ with_object (objects_of (W.seen words.old).words) r
        (Some (replicate n (Number 0))) other) }
    ensures made { HasMade W.seen W.step words.old
        (new_calls (W.seen words.old).words page n) words.new }
    ensures few { (W.seen words.old).room ≤ (W.seen words.new).room + 600 }
    ensures refused { OnErr result ((W.seen words.new).words ≡ (W.seen words.old).words) }
{
    let walk = walk_page(words, page);
    let free = free_place(&walk.blocks, n);
    let Some(place) = place_for(free, walk.end, n) else {
        return Err(PageFull);
    };
    write_new(words, page, free, place, n);
    Ok(Ref { page, word: place })
}

#[cfg(test)]
mod tests {
    use super::*;
    use crate::{follow, get, set_number, set_ref};
    use casper_space::Plain;
    use std::process::Abort;
    use std::test::Fail;

    fn ready(rt: &impl Abort, plain: &Plain)
        ensures pages { 3 ≤ length plain.now.pages }
        ensures room { 600 ≤ plain.now.room }
    {
        assert!(rt; plain.pages() >= 3);
        assert!(rt; plain.room() >= 600);
    }

    fn at(page: u32, word: u32) -> Ref
        ensures page { result.page ≡ page }
        ensures word { result.word ≡ word }
    {
        Ref {
            page: Page(page),
            word,
        }
    }

    #[test]
    fn objects_come_and_go(rt: HostRuntime) -> Result<(), Fail> {
        let mut plain = Plain::new(rt.alloc(), 3, 2_000)?;
        ready(&rt, &plain);
        assert_eq!(rt; alloc_object(&mut plain, Page(1), 2), Ok(at(1, 1)));
        ready(&rt, &plain);
        assert_eq!(rt; alloc_object(&mut plain, Page(1), 1), Ok(at(1, 5)));
        ready(&rt, &plain);
        assert_eq!(rt; free_object(&mut plain, at(1, 1)), Ok(()));
        ready(&rt, &plain);
        assert_eq!(rt; free_object(&mut plain, at(1, 1)), Err(HeapFault::NoObject));
        ready(&rt, &plain);
        assert_eq!(rt; alloc_object(&mut plain, Page(1), 3), Ok(at(1, 8)));
        ready(&rt, &plain);
        assert_eq!(rt; alloc_object(&mut plain, Page(1), 2), Ok(at(1, 1)));
        Ok(())
    }

    #[test]
    fn fields_hold_numbers_and_references(rt: HostRuntime) -> Result<(), Fail> {
        let mut plain = Plain::new(rt.alloc(), 3, 2_000)?;
        ready(&rt, &plain);
        assert_eq!(rt; alloc_object(&mut plain, Page(1), 2), Ok(at(1, 1)));
        ready(&rt, &plain);
        assert_eq!(rt; set_number(&mut plain, at(1, 1), 0, 42), Ok(()));
        ready(&rt, &plain);
        assert_eq!(rt; set_ref(&mut plain, at(1, 1), 1, at(1, 1)), Ok(()));
        ready(&rt, &plain);
        assert_eq!(rt; get(&mut plain, at(1, 1), 0), Ok(42));
        ready(&rt, &plain);
        assert_eq!(rt; get(&mut plain, at(1, 1), 1), Ok(513));
        ready(&rt, &plain);
        assert_eq!(rt; follow(&mut plain, at(1, 1), 1, 3), Ok(at(1, 1)));
        ready(&rt, &plain);
        assert_eq!(rt; follow(&mut plain, at(1, 1), 0, 3), Err(HeapFault::NotARef));
        ready(&rt, &plain);
        assert_eq!(rt; get(&mut plain, at(1, 1), 2), Err(HeapFault::NoField));
        ready(&rt, &plain);
        assert_eq!(rt;
            set_ref(&mut plain, at(1, 1), 2, at(2, 1)),
            Err(HeapFault::NoObject)
        );
        Ok(())
    }
}
