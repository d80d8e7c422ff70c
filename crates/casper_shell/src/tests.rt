use crate::{ShellAnswer, ShellLine, run_line, shell_line};
use casper_space::{Answer, Plain, Words};
use casper_text::words_of;
use casper_words::{Memory, Name, Page, Ref};
use std::alloc::Global;
use std::process::Abort;
use std::test::Fail;

const PAGES: u32 = 3;

/// Runs a line over pages in memory.
fn run(
    rt: &impl Abort,
    alloc: Global,
    plain: &mut Plain,
    line: &ShellLine,
) -> Result<ShellAnswer, Memory> {
    assert!(rt; plain.pages() == PAGES as usize);
    if let ShellLine::New { n, .. } = line {
        assert!(rt; 1 <= *n && *n <= 64);
    }
    run_line(alloc, plain, PAGES, line)
}

/// The text of an answer by its first word, and its numbers.
fn told(answer: &ShellAnswer) -> (&'static str, u64, u64) {
    match answer {
        ShellAnswer::Range => ("range", 0, 0),
        ShellAnswer::Refused(_) => ("refused", 0, 0),
        ShellAnswer::Value(value) => ("value", *value, 0),
        ShellAnswer::Done => ("ok", 0, 0),
        ShellAnswer::At { page, word } => ("at", *page, u64::from(*word)),
        ShellAnswer::PageFull => ("pagefull", 0, 0),
        ShellAnswer::NoObject => ("noobject", 0, 0),
        ShellAnswer::NoField => ("nofield", 0, 0),
        ShellAnswer::NotARef => ("notref", 0, 0),
        ShellAnswer::TableFull => ("tablefull", 0, 0),
        ShellAnswer::NoName => ("noname", 0, 0),
        ShellAnswer::Names(_) => ("names", 0, 0),
    }
}

fn at(page: u32, word: u32) -> Ref {
    Ref {
        page: Page(page),
        word,
    }
}

fn new(page: u32, n: u32) -> ShellLine {
    let page = Page(page);
    ShellLine::New { page, n }
}

fn get(page: u32, word: u32, i: u32) -> ShellLine {
    let r = at(page, word);
    ShellLine::Get { r, i }
}

fn follow(page: u32, word: u32, i: u32) -> ShellLine {
    let r = at(page, word);
    ShellLine::Follow { r, i }
}

fn free(page: u32, word: u32) -> ShellLine {
    let r = at(page, word);
    ShellLine::Free { r }
}

/// Makes the field of the first object of page 1 a reference.
fn lead(i: u32, page: u32, word: u32) -> ShellLine {
    let r = at(1, 1);
    let to = at(page, word);
    ShellLine::SetRef { r, i, to }
}

/// Makes the field of the first object of page 1 a number.
fn set(i: u32, v: u64) -> ShellLine {
    let r = at(1, 1);
    ShellLine::Set { r, i, v }
}

/// Lets a name lead to the first object of page 1.
fn bind(name: &Name) -> ShellLine {
    let name = *name;
    let r = at(1, 1);
    ShellLine::Bind { name, r }
}

fn find(name: &Name) -> ShellLine {
    let name = *name;
    ShellLine::Find { name }
}

fn unbind(name: &Name) -> ShellLine {
    let name = *name;
    ShellLine::Unbind { name }
}

#[test]
fn objects_are_made_and_refused(rt: HostRuntime) -> Result<(), Fail> {
    let lines = [
        (new(1, 2), ("at", 1, 1)),
        (set(0, 42), ("ok", 0, 0)),
        (lead(1, 1, 1), ("ok", 0, 0)),
        (get(1, 1, 0), ("value", 42, 0)),
        (get(1, 1, 1), ("value", 513, 0)),
        (get(1, 1, 2), ("nofield", 0, 0)),
        (get(1, 2, 0), ("noobject", 0, 0)),
        (follow(1, 1, 1), ("at", 1, 1)),
        (follow(1, 1, 0), ("notref", 0, 0)),
        (lead(2, 2, 1), ("noobject", 0, 0)),
        (new(2, 1), ("at", 2, 1)),
        (lead(2, 2, 1), ("nofield", 0, 0)),
        (lead(0, 2, 1), ("ok", 0, 0)),
        (follow(1, 1, 0), ("at", 2, 1)),
        (new(0, 1), ("range", 0, 0)),
        (new(3, 1), ("range", 0, 0)),
        (get(1, 512, 0), ("range", 0, 0)),
        (lead(0, 3, 1), ("range", 0, 0)),
        (free(1, 1), ("ok", 0, 0)),
        (free(1, 1), ("noobject", 0, 0)),
    ];
    let mut plain = Plain::new(rt.alloc(), PAGES, 2_000)?;
    for (line, answer) in &lines {
        let given = run(&rt, rt.alloc(), &mut plain, line)?;
        assert_eq!(rt; told(&given), *answer);
    }
    Ok(())
}

#[test]
fn names_are_bound_and_refused(rt: HostRuntime) -> Result<(), Fail> {
    let desk = Name::new(b"desk").ok_or("no name")?;
    let lamp = Name::new(b"lamp").ok_or("no name")?;
    let lines = [
        (bind(&desk), ("noobject", 0, 0)),
        (new(1, 2), ("at", 1, 1)),
        (bind(&desk), ("ok", 0, 0)),
        (find(&desk), ("at", 1, 1)),
        (find(&lamp), ("noname", 0, 0)),
        (unbind(&lamp), ("noname", 0, 0)),
        (ShellLine::Names, ("names", 0, 0)),
        (unbind(&desk), ("ok", 0, 0)),
        (find(&desk), ("noname", 0, 0)),
        (bind(&desk), ("ok", 0, 0)),
    ];
    let mut plain = Plain::new(rt.alloc(), PAGES, 5_000)?;
    for (line, answer) in &lines {
        let given = run(&rt, rt.alloc(), &mut plain, line)?;
        assert_eq!(rt; told(&given), *answer);
    }
    let ShellAnswer::Names(names) = run(&rt, rt.alloc(), &mut plain, &ShellLine::Names)? else {
        return Err("no names".into());
    };
    assert_eq!(rt; names.as_slice(), [desk].as_slice());
    let table = [4, 1_802_724_708, 0, 0, 513];
    for word in 0..5 {
        assert!(rt; plain.pages() >= 1);
        assert!(rt; plain.room() >= 1);
        assert_eq!(rt; plain.get(Page(0), word), table[word as usize]);
    }
    Ok(())
}

#[test]
fn a_line_needs_room_and_place(rt: HostRuntime) -> Result<(), Fail> {
    let mut narrow = Plain::new(rt.alloc(), PAGES, 599)?;
    let given = run(&rt, rt.alloc(), &mut narrow, &new(1, 1))?;
    assert!(rt; matches!(given, ShellAnswer::Refused(Answer::TrailFull(0))));
    assert_eq!(rt; narrow.calls().len(), 0);
    let mut plain = Plain::new(rt.alloc(), PAGES, 2_000)?;
    for place in 0..7 {
        let given = run(&rt, rt.alloc(), &mut plain, &new(2, 64))?;
        assert_eq!(rt; told(&given), ("at", 2, 1 + 66 * place));
    }
    let given = run(&rt, rt.alloc(), &mut plain, &new(2, 64))?;
    assert_eq!(rt; told(&given), ("pagefull", 0, 0));
    Ok(())
}

#[test]
fn forms_of_lines(rt: HostRuntime) -> Result<(), Fail> {
    let desk = Name::new(b"desk").ok_or("no name")?;
    let forms: [(&[u8], Option<ShellLine>); 14] = [
        (b"new 1 64", Some(new(1, 64))),
        (b"new 1 65", None),
        (b"set 1.1 0 42", Some(set(0, 42))),
        (b"ref 1.1 1 2.1", Some(lead(1, 2, 1))),
        (b"get 1.1 0", Some(get(1, 1, 0))),
        (b"get 1 0", None),
        (b"follow 1.1 1", Some(follow(1, 1, 1))),
        (b"free 1.1", Some(free(1, 1))),
        (b"bind desk 1.1", Some(bind(&desk))),
        (b"bind Desk 1.1", None),
        (b"unbind desk", Some(unbind(&desk))),
        (b" find  desk ", Some(find(&desk))),
        (b"names", Some(ShellLine::Names)),
        (b"names desk", None),
    ];
    for (text, line) in &forms {
        let words = words_of(rt.alloc(), text)?.ok_or("a byte that no line has")?;
        assert_eq!(rt; shell_line(text, &words), *line);
    }
    Ok(())
}
