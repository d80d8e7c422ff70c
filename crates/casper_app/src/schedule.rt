ghost use Rattle.std.specs.Prelude.{◌≡◌, ℕ, List, [], ◌∷◌, ◌<◌, ◌≤◌, length, map, position, All, IfSome};
ghost use Rattle.casper_text.specs.Span.{IsWithin, word_at};
ghost use Rattle.casper_app.specs.Schedule.{client_of as client_in, lone_client as lone_client_in, place_of as place_in, right_of as right_in, want_of as want_in, wants_of as wants_in, rising_wants, is_colon, join_of, read_of, write_of, acquire_of, serve_of, depart_of, vanish_of, lose_of, stabilise_of, write_out_of, finish_of, settle_of, event_of as event_of_line, is_reopen as asks_to_reopen, asked_of as asked_of_words, is_unbuilt as begins_unbuilt, is_comment as begins_comment, parsed_words as words_parsed, parsed_line as line_parsed};

use casper_model::Event;
use casper_text::{Places, Span, number, small_number};
use casper_words::{Page, Right, Want, Wants, Who};

/// What a line of a schedule asks for.
#[derive(Clone, Copy, Debug, PartialEq, Eq)]
pub enum Asked {
    /// An event.
    Event(Event),
    /// That the store is opened again, over which a new session begins.
    Reopen,
}

/// What a line of a schedule is.
#[derive(Clone, Copy, Debug, PartialEq, Eq)]
pub enum Parsed {
    /// A line that is counted and not answered.
    Skip,
    /// A line that asks for something.
    Asked(Asked),
    /// A line of a known form that is not built yet.
    Unbuilt,
    /// A line of no known form.
    Bad,
}

/// Reads a line of at most 1,024 bytes. The places of its words stand in the room that there is, so it takes no memory.
pub(crate) fn parse_line(line: &[u8], places: &mut Places) -> Parsed
    requires { length line.now ≤ 1024 }
    ensures { result ≡ line_parsed line.now }
{
    if !places.split(line) {
        return Parsed::Bad;
    }
    if is_comment(line) {
        return Parsed::Skip;
    }
    parse_words(line, places.as_slice())
}

fn is_comment(line: &[u8]) -> bool
    ensures { result ≡ begins_comment line.now }
{
    line.first() == Some(&b'#')
}

fn parse_words(line: &[u8], spans: &[Span]) -> Parsed
    requires { All (IsWithin line.now) spans.now }
    ensures { result ≡ words_parsed (map (word_at line.now) spans.now) }
{
    let Some(first) = spans.first() else {
        return Parsed::Skip;
    };
    match asked_of(line, spans) {
        Some(asked) => Parsed::Asked(asked),
        None if is_unbuilt(first.of(line)) => Parsed::Unbuilt,
        None => Parsed::Bad,
    }
}

fn asked_of(line: &[u8], spans: &[Span]) -> Option<Asked>
    requires { All (IsWithin line.now) spans.now }
    ensures { result ≡ asked_of_words (map (word_at line.now) spans.now) }
{
    if is_reopen(line, spans) {
        return Some(Asked::Reopen);
    }
    Some(Asked::Event(event_of(line, spans)?))
}

/// Tells whether the verb of a reopen stands in a line alone.
fn is_reopen(line: &[u8], spans: &[Span]) -> bool
    requires { All (IsWithin line.now) spans.now }
    ensures { result ≡ asks_to_reopen (map (word_at line.now) spans.now) }
{
    match spans {
        [verb] => verb.of(line) == b"reopen".as_slice(),
        _ => false,
    }
}

fn event_of(line: &[u8], spans: &[Span]) -> Option<Event>
    requires { All (IsWithin line.now) spans.now }
    ensures { result ≡ event_of_line (map (word_at line.now) spans.now) }
{
    let [verb, rest @ ..] = spans else {
        return None;
    };
    let verb = verb.of(line);
    if verb == b"join".as_slice() {
        join(line, rest)
    } else if verb == b"read".as_slice() {
        read(line, rest)
    } else if verb == b"write".as_slice() {
        write(line, rest)
    } else if verb == b"acquire".as_slice() {
        acquire(line, rest)
    } else if verb == b"serve".as_slice() {
        serve(line, rest)
    } else if verb == b"depart".as_slice() {
        depart(line, rest)
    } else if verb == b"vanish".as_slice() {
        vanish(line, rest)
    } else if verb == b"lose".as_slice() {
        lose(line, rest)
    } else if verb == b"stabilise".as_slice() {
        stabilise(line, rest)
    } else if verb == b"writeout".as_slice() {
        write_out(line, rest)
    } else if verb == b"finish".as_slice() {
        finish(line, rest)
    } else if verb == b"settle".as_slice() {
        settle(rest)
    } else {
        None
    }
}

fn join(line: &[u8], rest: &[Span]) -> Option<Event>
    requires { All (IsWithin line.now) rest.now }
    ensures { result ≡ join_of (map (word_at line.now) rest.now) }
{
    Some(Event::Join(lone_client(line, rest)?))
}

fn serve(line: &[u8], rest: &[Span]) -> Option<Event>
    requires { All (IsWithin line.now) rest.now }
    ensures { result ≡ serve_of (map (word_at line.now) rest.now) }
{
    Some(Event::Serve(lone_client(line, rest)?))
}

fn depart(line: &[u8], rest: &[Span]) -> Option<Event>
    requires { All (IsWithin line.now) rest.now }
    ensures { result ≡ depart_of (map (word_at line.now) rest.now) }
{
    Some(Event::Depart(lone_client(line, rest)?))
}

fn vanish(line: &[u8], rest: &[Span]) -> Option<Event>
    requires { All (IsWithin line.now) rest.now }
    ensures { result ≡ vanish_of (map (word_at line.now) rest.now) }
{
    Some(Event::Vanish(lone_client(line, rest)?))
}

fn lose(line: &[u8], rest: &[Span]) -> Option<Event>
    requires { All (IsWithin line.now) rest.now }
    ensures { result ≡ lose_of (map (word_at line.now) rest.now) }
{
    Some(Event::Lose(lone_client(line, rest)?))
}

fn stabilise(line: &[u8], rest: &[Span]) -> Option<Event>
    requires { All (IsWithin line.now) rest.now }
    ensures { result ≡ stabilise_of (map (word_at line.now) rest.now) }
{
    Some(Event::Stabilise(lone_client(line, rest)?))
}

fn write_out(line: &[u8], rest: &[Span]) -> Option<Event>
    requires { All (IsWithin line.now) rest.now }
    ensures { result ≡ write_out_of (map (word_at line.now) rest.now) }
{
    Some(Event::WriteOut(lone_client(line, rest)?))
}

fn finish(line: &[u8], rest: &[Span]) -> Option<Event>
    requires { All (IsWithin line.now) rest.now }
    ensures { result ≡ finish_of (map (word_at line.now) rest.now) }
{
    Some(Event::Finish(lone_client(line, rest)?))
}

fn settle(rest: &[Span]) -> Option<Event>
    ensures { (line : List ℕ) → result ≡ settle_of (map (word_at line) rest.now) }
{
    match rest {
        [] => Some(Event::Settle),
        _ => None,
    }
}

fn read(line: &[u8], rest: &[Span]) -> Option<Event>
    requires { All (IsWithin line.now) rest.now }
    ensures { result ≡ read_of (map (word_at line.now) rest.now) }
{
    let [client, page, word] = rest else {
        return None;
    };
    let who = client_of(client.of(line))?;
    let page = Page(place_of(page.of(line))?);
    Some(Event::Read(who, page, place_of(word.of(line))?))
}

fn write(line: &[u8], rest: &[Span]) -> Option<Event>
    requires { All (IsWithin line.now) rest.now }
    ensures { result ≡ write_of (map (word_at line.now) rest.now) }
{
    let [client, page, word, value] = rest else {
        return None;
    };
    let who = client_of(client.of(line))?;
    let page = Page(place_of(page.of(line))?);
    let word = place_of(word.of(line))?;
    Some(Event::Write(who, page, word, number(value.of(line))?))
}

fn acquire(line: &[u8], rest: &[Span]) -> Option<Event>
    requires { All (IsWithin line.now) rest.now }
    ensures { result ≡ acquire_of (map (word_at line.now) rest.now) }
{
    let [client, wants @ ..] = rest else {
        return None;
    };
    let who = client_of(client.of(line))?;
    Some(Event::Acquire(who, wants_of(line, wants)?))
}

/// The client of words that name one and nothing more.
fn lone_client(line: &[u8], rest: &[Span]) -> Option<Who>
    requires { All (IsWithin line.now) rest.now }
    ensures { result ≡ lone_client_in (map (word_at line.now) rest.now) }
{
    match rest {
        [client] => client_of(client.of(line)),
        _ => None,
    }
}

fn client_of(word: &[u8]) -> Option<Who>
    ensures { result ≡ client_in word.now }
{
    Who::new(place_of(word)?)
}

fn place_of(word: &[u8]) -> Option<u32>
    ensures { result ≡ place_in word.now }
{
    small_number(word)
}

/// The wants that one to four words write, with pages strictly rising.
fn wants_of(line: &[u8], words: &[Span]) -> Option<Wants>
    requires { All (IsWithin line.now) words.now }
    ensures { result ≡ wants_in (map (word_at line.now) words.now) }
{
    match words {
        [] => None,
        [first] => rising(&[want_of(first.of(line))?]),
        [first, second] => rising(&[want_of(first.of(line))?, want_of(second.of(line))?]),
        [first, second, third] => rising(&[
            want_of(first.of(line))?,
            want_of(second.of(line))?,
            want_of(third.of(line))?,
        ]),
        [first, second, third, fourth] => rising(&[
            want_of(first.of(line))?,
            want_of(second.of(line))?,
            want_of(third.of(line))?,
            want_of(fourth.of(line))?,
        ]),
        _ => None,
    }
}

/// The wants of a list that one acquire may ask for.
fn rising(list: &[Want]) -> Option<Wants>
    ensures { result ≡ rising_wants list.now }
{
    Wants::new(list)
}

/// The want that a word writes: a page's number, a colon, and `r` or `w`.
fn want_of(word: &[u8]) -> Option<Want>
    ensures { result ≡ want_in word.now }
{
    let colon = first_colon(word)?;
    let page = Page(place_of(&word[..colon])?);
    let right = right_of(&word[colon + 1..])?;
    Some(Want { page, right })
}

/// The place of the first colon in a word, if it has one.
fn first_colon(word: &[u8]) -> Option<usize>
    ensures place { result ≡ position is_colon word.now }
    ensures within { IfSome result (λ colon. colon < length word.now) }
{
    word.iter().position(|byte| *byte == b':')
}

fn right_of(word: &[u8]) -> Option<Right>
    ensures { result ≡ right_in word.now }
{
    match word {
        [b'r'] => Some(Right::Read),
        [b'w'] => Some(Right::Write),
        _ => None,
    }
}

/// Tells whether a line that begins with this word is of a known form that is not built yet.
fn is_unbuilt(first: &[u8]) -> bool
    ensures { result ≡ begins_unbuilt first.now }
{
    client_of(first).is_some()
}
