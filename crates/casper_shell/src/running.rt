ghost use Rattle.std.specs.Prelude.{◌≡◌, ◌<◌, ◌≤◌, true, false, [], Some, Ok, Err, IfOk, IsSome, OnErr, OnOk};
ghost use Rattle.casper_shell.specs.declared.line.ShellLine.TheVariants.{Names};
ghost use Rattle.casper_shell.specs.Lines.{is_heap_page, is_heap_word, is_within, HasFields};
ghost use Rattle.casper_shell.specs.Making.{IsRun};

use crate::holding::hold_pages;
use crate::making::make_calls;
use crate::{HoldRefusal, Session, ShellAnswer, ShellLine};
use casper_words::{Frame, Memory, NameList, Page, Ref};
use std::alloc::Global;

fn has_objects(pages: u32, page: Page) -> bool
    ensures { result ≡ is_heap_page pages page }
{
    page.0 != 0 && page.0 < pages
}

fn is_place(pages: u32, r: Ref) -> bool
    ensures { result ≡ is_heap_word pages r }
{
    has_objects(pages, r.page) && r.word < Frame::WORDS
}

/// Whether each page and word of a line is within a store of so many pages.
fn is_in_store(pages: u32, line: &ShellLine) -> bool
    ensures { result ≡ is_within pages line.now }
{
    match *line {
        ShellLine::New { page, .. } => has_objects(pages, page),
        ShellLine::Set { r, .. }
        | ShellLine::Get { r, .. }
        | ShellLine::Follow { r, .. }
        | ShellLine::Free { r }
        | ShellLine::Bind { r, .. } => is_place(pages, r),
        ShellLine::SetRef { r, to, .. } => is_place(pages, r) && is_place(pages, to),
        ShellLine::Unbind { .. } | ShellLine::Find { .. } | ShellLine::Names => true,
    }
}

/// The list that a line puts the names into, if it lists them.
fn list_for(alloc: Global, line: &ShellLine) -> Result<Option<NameList>, Memory>
    ensures list { line.now ≡ Names → IfOk result (λ names. names ≡ Some []) }
    ensures others { OnErr result (line.now ≡ Names) }
{
    if let ShellLine::Names = line {
        return Ok(Some(NameList::new(alloc)?));
    }
    Ok(None)
}

/// Runs a line on a session over a store of so many pages. Where a page or a word of the line is outside the store, `Range` is the
/// answer and nothing has changed. Else the line makes one hold of its pages, with room for 600 calls, and then its own calls and no
/// others; where the hold is refused, its answer is the answer. Memory is asked for before the hold alone, and only where the line
/// lists the names: where there is too little, nothing has changed. The hold may answer `Memory` too.
pub fn run_line<Y: Session>(
    alloc: Global,
    session: &mut Y,
    pages: u32,
    line: &ShellLine,
) -> Result<ShellAnswer, Memory>
    requires store { pages ≡ Y.pages session.old }
    requires some { 1 ≤ pages }
    requires fields { HasFields line.now }
    ensures ran { IsRun Y.seen Y.step Y.turn pages line.now session.old result session.new }
    ensures store { Y.pages session.new ≡ Y.pages session.old }
{
    if !is_in_store(pages, line) {
        return Ok(ShellAnswer::Range);
    }
    let names = list_for(alloc, line)?;
    match hold_pages(session, line) {
        Ok(()) => Ok(make_calls(session, pages, line, names)),
        Err(HoldRefusal::Memory) => Err(Memory),
        Err(HoldRefusal::Answer(answer)) => Ok(ShellAnswer::Refused(answer)),
    }
}
