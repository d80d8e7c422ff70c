ghost use Rattle.std.specs.Prelude.{◌≡◌, [], ◌≤◌, ◌<◌, length, map, All, IfOk};
ghost use Rattle.casper_text.specs.Span.{IsWithin, word_at};
ghost use Rattle.casper_audit.specs.Lines.{client_in, page_in, place_in, members_in, base_in, read_in, write_in, touch_in, commit_in, rollback_in, stated_by, IsInRange, is_comment as begins_comment, words_parsed, line_parsed};

use casper_text::{Span, number, small_number, words_of};
use casper_trail::{Entry, Item, Mark};
use casper_words::{Crew, Frame, Memory, Op, Page, Who};
use std::alloc::Global;

/// How many pages a store may have in a trail's text.
const MOST_PAGES: u32 = 262_144;

/// The value that a word of a page had before the trail.
#[derive(Clone, Copy, Debug, PartialEq, Eq)]
pub struct BaseWord {
    pub page: Page,
    pub word: u32,
    pub value: u64,
}

/// What a line of a trail's text says.
#[derive(Clone, Copy, Debug, PartialEq, Eq)]
pub enum Parsed {
    /// Nothing: the line is only counted.
    Skip,
    /// The value of a word before the trail.
    Base(BaseWord),
    /// The next item of the trail.
    Item(Item),
    /// A line of no known form.
    Bad,
}

/// Reads a line of at most 1,024 bytes. Memory is asked for the list of its words alone.
pub(crate) fn parse_line(alloc: Global, line: &[u8]) -> Result<Parsed, Memory>
    requires { length line.now ≤ 1024 }
    ensures says { IfOk result (λ parsed. parsed ≡ line_parsed line.now) }
    ensures range { IfOk result IsInRange }
{
    match words_of(alloc, line)? {
        None => Ok(Parsed::Bad),
        Some(_) if is_comment(line) => Ok(Parsed::Skip),
        Some(spans) => Ok(parse_words(line, &spans)),
    }
}

fn is_comment(line: &[u8]) -> bool
    ensures { result ≡ begins_comment line.now }
{
    line.first() == Some(&b'#')
}

fn parse_words(line: &[u8], spans: &[Span]) -> Parsed
    requires { All (IsWithin line.now) spans.now }
    ensures { result ≡ words_parsed (map (word_at line.now) spans.now) }
{
    let _types: (Option<Item>, Option<Mark>) = (None, None);
    let [verb, rest @ ..] = spans else {
        return Parsed::Skip;
    };
    statement(line, verb.of(line), rest).unwrap_or(Parsed::Bad)
}

/// What stands after a verb.
fn statement(line: &[u8], verb: &[u8], rest: &[Span]) -> Option<Parsed>
    requires { All (IsWithin line.now) rest.now }
    ensures { result ≡ stated_by verb.now (map (word_at line.now) rest.now) }
{
    if verb == b"b".as_slice() {
        base(line, rest)
    } else if verb == b"r".as_slice() {
        read(line, rest)
    } else if verb == b"w".as_slice() {
        write(line, rest)
    } else if verb == b"t".as_slice() {
        touch(line, rest)
    } else if verb == b"commit".as_slice() {
        commit(line, rest)
    } else if verb == b"rollback".as_slice() {
        rollback(line, rest)
    } else {
        None
    }
}

fn base(line: &[u8], rest: &[Span]) -> Option<Parsed>
    requires { All (IsWithin line.now) rest.now }
    ensures { result ≡ base_in (map (word_at line.now) rest.now) }
{
    let [page, word, value] = rest else {
        return None;
    };
    let page = page_of(page.of(line))?;
    let word = place_of(word.of(line))?;
    let value = number(value.of(line))?;
    if value == 0 {
        return None;
    }
    Some(Parsed::Base(BaseWord { page, word, value }))
}

fn read(line: &[u8], rest: &[Span]) -> Option<Parsed>
    requires { All (IsWithin line.now) rest.now }
    ensures { result ≡ read_in (map (word_at line.now) rest.now) }
{
    let [client, page, word, value] = rest else {
        return None;
    };
    let who = client_of(client.of(line))?;
    let page = page_of(page.of(line))?;
    let word = place_of(word.of(line))?;
    let value = number(value.of(line))?;
    Some(Parsed::Item(Item::Entry(Entry {
        who,
        op: Op::Read,
        page,
        word,
        value,
    })))
}

fn write(line: &[u8], rest: &[Span]) -> Option<Parsed>
    requires { All (IsWithin line.now) rest.now }
    ensures { result ≡ write_in (map (word_at line.now) rest.now) }
{
    let [client, page, word, value] = rest else {
        return None;
    };
    let who = client_of(client.of(line))?;
    let page = page_of(page.of(line))?;
    let word = place_of(word.of(line))?;
    let value = number(value.of(line))?;
    Some(Parsed::Item(Item::Entry(Entry {
        who,
        op: Op::Write,
        page,
        word,
        value,
    })))
}

fn touch(line: &[u8], rest: &[Span]) -> Option<Parsed>
    requires { All (IsWithin line.now) rest.now }
    ensures { result ≡ touch_in (map (word_at line.now) rest.now) }
{
    let [client, page] = rest else {
        return None;
    };
    let who = client_of(client.of(line))?;
    let page = page_of(page.of(line))?;
    Some(Parsed::Item(Item::Entry(Entry {
        who,
        op: Op::Touch,
        page,
        word: 0,
        value: 0,
    })))
}

fn commit(line: &[u8], rest: &[Span]) -> Option<Parsed>
    requires { All (IsWithin line.now) rest.now }
    ensures { result ≡ commit_in (map (word_at line.now) rest.now) }
{
    let [client, members @ ..] = rest else {
        return None;
    };
    let lead = client_of(client.of(line))?;
    let members = members_of(line, members)?;
    Some(Parsed::Item(Item::Mark(Mark::Commit { lead, members })))
}

fn rollback(line: &[u8], rest: &[Span]) -> Option<Parsed>
    requires { All (IsWithin line.now) rest.now }
    ensures { result ≡ rollback_in (map (word_at line.now) rest.now) }
{
    let [client, members @ ..] = rest else {
        return None;
    };
    let lost = client_of(client.of(line))?;
    let members = members_of(line, members)?;
    Some(Parsed::Item(Item::Mark(Mark::Rollback { lost, members })))
}

fn client_of(word: &[u8]) -> Option<Who>
    ensures { result ≡ client_in word.now }
{
    Who::new(small_number(word)?)
}

fn page_of(word: &[u8]) -> Option<Page>
    ensures { result ≡ page_in word.now }
{
    let page = small_number(word)?;
    if page < MOST_PAGES {
        Some(Page(page))
    } else {
        None
    }
}

fn place_of(word: &[u8]) -> Option<u32>
    ensures { result ≡ place_in word.now }
{
    let place = small_number(word)?;
    if place < Frame::WORDS {
        Some(place)
    } else {
        None
    }
}

/// The members that words name, one or more, strictly rising.
fn members_of(line: &[u8], words: &[Span]) -> Option<Crew>
    requires { All (IsWithin line.now) words.now }
    ensures { result ≡ members_in (map (word_at line.now) words.now) }
{
    let mut members = Crew::none();
    let mut last = 0;
    for word in words {
        let who = client_of(word.of(line))?;
        if who.number() <= last {
            return None;
        }
        last = who.number();
        members = members.with(who);
    }
    if last == 0 { None } else { Some(members) }
}
