ghost use Rattle.std.specs.Prelude.{◌≡◌, ℕ, List, map, All};
ghost use Rattle.casper_text.specs.Span.{IsWithin, word_at};
ghost use Rattle.casper_shell.specs.Writing.{count_of as count_in, new_of, set_of, ref_of, get_of, follow_of, free_of, bind_of, unbind_of, find_of, list_of, line_of};

use crate::ShellLine;
use casper_text::{Span, name, number, reference, small_number};
use casper_words::Page;

/// The line that the words at these places write, if they write one. It takes no memory.
pub fn shell_line(line: &[u8], words: &[Span]) -> Option<ShellLine>
    requires { All (IsWithin line.now) words.now }
    ensures { result ≡ line_of (map (word_at line.now) words.now) }
{
    let [verb, rest @ ..] = words else {
        return None;
    };
    let verb = verb.of(line);
    if verb == b"new".as_slice() {
        read_new(line, rest)
    } else if verb == b"set".as_slice() {
        read_set(line, rest)
    } else if verb == b"ref".as_slice() {
        read_ref(line, rest)
    } else if verb == b"get".as_slice() {
        read_get(line, rest)
    } else if verb == b"follow".as_slice() {
        read_follow(line, rest)
    } else if verb == b"free".as_slice() {
        read_free(line, rest)
    } else if verb == b"bind".as_slice() {
        read_bind(line, rest)
    } else if verb == b"unbind".as_slice() {
        read_unbind(line, rest)
    } else if verb == b"find".as_slice() {
        read_find(line, rest)
    } else if verb == b"names".as_slice() {
        read_list(rest)
    } else {
        None
    }
}

/// The number of fields that a word writes, 1 to 64.
fn count_of(word: &[u8]) -> Option<u32>
    ensures { result ≡ count_in word.now }
{
    let count = small_number(word)?;
    if (1..=64).contains(&count) {
        Some(count)
    } else {
        None
    }
}

fn read_new(line: &[u8], rest: &[Span]) -> Option<ShellLine>
    requires { All (IsWithin line.now) rest.now }
    ensures { result ≡ new_of (map (word_at line.now) rest.now) }
{
    let [page, fields] = rest else {
        return None;
    };
    let page = Page(small_number(page.of(line))?);
    let n = count_of(fields.of(line))?;
    Some(ShellLine::New { page, n })
}

fn read_set(line: &[u8], rest: &[Span]) -> Option<ShellLine>
    requires { All (IsWithin line.now) rest.now }
    ensures { result ≡ set_of (map (word_at line.now) rest.now) }
{
    let [object, field, value] = rest else {
        return None;
    };
    let r = reference(object.of(line))?;
    let i = small_number(field.of(line))?;
    let v = number(value.of(line))?;
    Some(ShellLine::Set { r, i, v })
}

fn read_ref(line: &[u8], rest: &[Span]) -> Option<ShellLine>
    requires { All (IsWithin line.now) rest.now }
    ensures { result ≡ ref_of (map (word_at line.now) rest.now) }
{
    let [object, field, target] = rest else {
        return None;
    };
    let r = reference(object.of(line))?;
    let i = small_number(field.of(line))?;
    let to = reference(target.of(line))?;
    Some(ShellLine::SetRef { r, i, to })
}

fn read_get(line: &[u8], rest: &[Span]) -> Option<ShellLine>
    requires { All (IsWithin line.now) rest.now }
    ensures { result ≡ get_of (map (word_at line.now) rest.now) }
{
    let [object, field] = rest else {
        return None;
    };
    let r = reference(object.of(line))?;
    let i = small_number(field.of(line))?;
    Some(ShellLine::Get { r, i })
}

fn read_follow(line: &[u8], rest: &[Span]) -> Option<ShellLine>
    requires { All (IsWithin line.now) rest.now }
    ensures { result ≡ follow_of (map (word_at line.now) rest.now) }
{
    let [object, field] = rest else {
        return None;
    };
    let r = reference(object.of(line))?;
    let i = small_number(field.of(line))?;
    Some(ShellLine::Follow { r, i })
}

fn read_free(line: &[u8], rest: &[Span]) -> Option<ShellLine>
    requires { All (IsWithin line.now) rest.now }
    ensures { result ≡ free_of (map (word_at line.now) rest.now) }
{
    let [object] = rest else {
        return None;
    };
    let r = reference(object.of(line))?;
    Some(ShellLine::Free { r })
}

fn read_bind(line: &[u8], rest: &[Span]) -> Option<ShellLine>
    requires { All (IsWithin line.now) rest.now }
    ensures { result ≡ bind_of (map (word_at line.now) rest.now) }
{
    let [bytes, object] = rest else {
        return None;
    };
    let name = name(bytes.of(line))?;
    let r = reference(object.of(line))?;
    Some(ShellLine::Bind { name, r })
}

fn read_unbind(line: &[u8], rest: &[Span]) -> Option<ShellLine>
    requires { All (IsWithin line.now) rest.now }
    ensures { result ≡ unbind_of (map (word_at line.now) rest.now) }
{
    let [bytes] = rest else {
        return None;
    };
    let name = name(bytes.of(line))?;
    Some(ShellLine::Unbind { name })
}

fn read_find(line: &[u8], rest: &[Span]) -> Option<ShellLine>
    requires { All (IsWithin line.now) rest.now }
    ensures { result ≡ find_of (map (word_at line.now) rest.now) }
{
    let [bytes] = rest else {
        return None;
    };
    let name = name(bytes.of(line))?;
    Some(ShellLine::Find { name })
}

fn read_list(rest: &[Span]) -> Option<ShellLine>
    ensures { (line : List ℕ) → result ≡ list_of (map (word_at line) rest.now) }
{
    if rest.is_empty() {
        Some(ShellLine::Names)
    } else {
        None
    }
}
