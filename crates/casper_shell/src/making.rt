ghost use Rattle.std.specs.Prelude.{◌≡◌, ◌≢◌, ◌<◌, ◌≤◌, true, [], Some, IsSome};
ghost use Rattle.casper_words.specs.declared.page.Ref.{Ref};
ghost use Rattle.casper_space.specs.WordCalls.{HasMade};
ghost use Rattle.casper_heap.specs.Objects.{objects_of};
ghost use Rattle.casper_names.specs.Table.{entries_of};
ghost use Rattle.casper_shell.specs.Effects.{objects_after, entries_after};
ghost use Rattle.casper_shell.specs.declared.line.ShellLine.TheVariants.{Names};
ghost use Rattle.casper_shell.specs.Holding.{Holds};
ghost use Rattle.casper_shell.specs.Lines.{wants_of, is_within, HasFields};
ghost use Rattle.casper_shell.specs.Answers.{answer_of, calls_of, told_new, told_done, told_value, told_place, told_bound, told_unbound, told_found, heap_refusal};

use crate::{ShellAnswer, ShellLine};
use casper_heap::{
    HeapFault, PageFull, alloc_object, follow, free_object, get, set_number, set_ref,
};
use casper_names::{NameFault, bind, list, lookup, unbind};
use casper_space::Words;
use casper_words::{Frame, NameList, Ref};

fn at(r: Ref) -> ShellAnswer
    ensures { result ≡ told_place (Ok r) }
{
    ShellAnswer::At {
        page: u64::from(r.page.0),
        word: r.word,
    }
}

fn refused(fault: HeapFault) -> ShellAnswer
    ensures { result ≡ heap_refusal fault }
{
    match fault {
        HeapFault::NoObject => ShellAnswer::NoObject,
        HeapFault::NoField => ShellAnswer::NoField,
        HeapFault::NotARef => ShellAnswer::NotARef,
    }
}

fn tell_new(made: Result<Ref, PageFull>) -> ShellAnswer
    ensures { result ≡ told_new made }
{
    match made {
        Ok(r) => at(r),
        Err(PageFull) => ShellAnswer::PageFull,
    }
}

fn tell_done(done: Result<(), HeapFault>) -> ShellAnswer
    ensures { result ≡ told_done done }
{
    match done {
        Ok(()) => ShellAnswer::Done,
        Err(fault) => refused(fault),
    }
}

fn tell_value(value: Result<u64, HeapFault>) -> ShellAnswer
    ensures { result ≡ told_value value }
{
    match value {
        Ok(value) => ShellAnswer::Value(value),
        Err(fault) => refused(fault),
    }
}

fn tell_place(place: Result<Ref, HeapFault>) -> ShellAnswer
    ensures { result ≡ told_place place }
{
    match place {
        Ok(r) => at(r),
        Err(fault) => refused(fault),
    }
}

fn tell_bound(bound: Result<(), NameFault>) -> ShellAnswer
    ensures { result ≡ told_bound bound }
{
    match bound {
        Ok(()) => ShellAnswer::Done,
        Err(NameFault::NoObject) => ShellAnswer::NoObject,
        Err(NameFault::TableFull) => ShellAnswer::TableFull,
    }
}

fn tell_unbound(was_bound: bool) -> ShellAnswer
    ensures { result ≡ told_unbound was_bound }
{
    if was_bound {
        ShellAnswer::Done
    } else {
        ShellAnswer::NoName
    }
}

fn tell_found(found: Option<u64>) -> ShellAnswer
    ensures { result ≡ told_found found }
{
    match found {
        Some(value) => ShellAnswer::At {
            page: value / u64::from(Frame::WORDS),
            word: (value % u64::from(Frame::WORDS)) as u32,
        },
        None => ShellAnswer::NoName,
    }
}

/// Makes the calls of a line whose pages are held. A line that lists the names puts them into the list that comes with it.
pub(crate) fn make_calls<W: Words>(
    words: &mut W,
    pages: u32,
    line: &ShellLine,
    names: Option<NameList>,
) -> ShellAnswer
    requires held { Holds (W.seen words.old).right (wants_of line.now) }
    requires room { 600 ≤ (W.seen words.old).room }
    requires within { is_within pages line.now ≡ true }
    requires fields { HasFields line.now }
    requires list { line.now ≡ Names → names ≡ Some [] }
    ensures answer { result ≡ answer_of pages (W.seen words.old).words line.now }
    ensures made { HasMade W.seen W.step words.old
        (calls_of (W.seen words.old).words line.now) words.new }
    ensures objects { (r : Ref) → r.page ≢ 0 → objects_of (W.seen words.new).words r
        ≡ objects_after line.now result (objects_of (W.seen words.old).words) r }
    ensures entries { entries_of ((W.seen words.new).words 0)
        ≡ entries_after line.now result ((W.seen words.old).words 0) }
{
    match line {
        ShellLine::New { page, n } => tell_new(alloc_object(words, *page, *n)),
        ShellLine::Set { r, i, v } => tell_done(set_number(words, *r, *i, *v)),
        ShellLine::SetRef { r, i, to } => tell_done(set_ref(words, *r, *i, *to)),
        ShellLine::Get { r, i } => tell_value(get(words, *r, *i)),
        ShellLine::Follow { r, i } => tell_place(follow(words, *r, *i, pages)),
        ShellLine::Free { r } => tell_done(free_object(words, *r)),
        ShellLine::Bind { name, r } => tell_bound(bind(words, name, *r)),
        ShellLine::Unbind { name } => tell_unbound(unbind(words, name)),
        ShellLine::Find { name } => tell_found(lookup(words, name)),
        ShellLine::Names => match names {
            Some(mut into) => {
                list(words, &mut into);
                ShellAnswer::Names(into)
            }
            None => unreachable!(),
        },
    }
}
