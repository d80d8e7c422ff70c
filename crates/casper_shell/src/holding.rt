ghost use Rattle.std.specs.Prelude.{◌≡◌, ◌<◌, ◌≤◌, [], ◌∷◌, All, OnOk};
ghost use Rattle.casper_shell.specs.Holding.{Holds, reading, writing, writing_and_reading};
ghost use Rattle.casper_shell.specs.Lines.{wants_of};

use crate::{CALLS_OF_LINE, HoldRefusal, Session, ShellLine};
use casper_words::{Page, Right, Want};

/// The page of the names.
const NAMES: Page = Page(0);

fn hold_to_read<Y: Session>(session: &mut Y, page: Page) -> Result<(), HoldRefusal>
    requires within { page < Y.pages session.old }
    ensures held { OnOk result (Holds (Y.seen session.new).right (reading page ∷ [])) }
    ensures room { OnOk result (600 ≤ (Y.seen session.new).room) }
    ensures made { (Y.seen session.new).calls ≡ (Y.seen session.old).calls }
    ensures pages { Y.pages session.new ≡ Y.pages session.old }
    ensures turn { Y.turn session.old (reading page ∷ []) 600 result session.new }
{
    let right = Right::Read;
    session.hold(&[Want { page, right }], CALLS_OF_LINE)
}

fn hold_to_write<Y: Session>(session: &mut Y, page: Page) -> Result<(), HoldRefusal>
    requires within { page < Y.pages session.old }
    ensures held { OnOk result (Holds (Y.seen session.new).right (writing page ∷ [])) }
    ensures room { OnOk result (600 ≤ (Y.seen session.new).room) }
    ensures made { (Y.seen session.new).calls ≡ (Y.seen session.old).calls }
    ensures pages { Y.pages session.new ≡ Y.pages session.old }
    ensures turn { Y.turn session.old (writing page ∷ []) 600 result session.new }
{
    let right = Right::Write;
    session.hold(&[Want { page, right }], CALLS_OF_LINE)
}

/// Holds a page for writing, and a page for reading if it is another.
fn hold_both<Y: Session>(session: &mut Y, page: Page, other: Page) -> Result<(), HoldRefusal>
    requires within { page < Y.pages session.old }
    requires other_within { other < Y.pages session.old }
    ensures held { OnOk result (Holds (Y.seen session.new).right (writing_and_reading page other)) }
    ensures room { OnOk result (600 ≤ (Y.seen session.new).room) }
    ensures made { (Y.seen session.new).calls ≡ (Y.seen session.old).calls }
    ensures pages { Y.pages session.new ≡ Y.pages session.old }
    ensures turn { Y.turn session.old (writing_and_reading page other) 600 result session.new }
{
    let written = Want {
        page,
        right: Right::Write,
    };
    let read = Want {
        page: other,
        right: Right::Read,
    };
    if page == other {
        session.hold(&[written], CALLS_OF_LINE)
    } else if page < other {
        session.hold(&[written, read], CALLS_OF_LINE)
    } else {
        session.hold(&[read, written], CALLS_OF_LINE)
    }
}

/// Holds the pages of a line.
pub(crate) fn hold_pages<Y: Session>(session: &mut Y, line: &ShellLine) -> Result<(), HoldRefusal>
    requires within { All (λ want. want.page < Y.pages session.old) (wants_of line.now) }
    ensures held { OnOk result (Holds (Y.seen session.new).right (wants_of line.now)) }
    ensures room { OnOk result (600 ≤ (Y.seen session.new).room) }
    ensures made { (Y.seen session.new).calls ≡ (Y.seen session.old).calls }
    ensures pages { Y.pages session.new ≡ Y.pages session.old }
    ensures turn { Y.turn session.old (wants_of line.now) 600 result session.new }
{
    match *line {
        ShellLine::New { page, .. } => hold_to_write(session, page),
        ShellLine::Set { r, .. } => hold_to_write(session, r.page),
        ShellLine::SetRef { r, to, .. } => hold_both(session, r.page, to.page),
        ShellLine::Get { r, .. } => hold_to_read(session, r.page),
        ShellLine::Follow { r, .. } => hold_to_read(session, r.page),
        ShellLine::Free { r } => hold_to_write(session, r.page),
        ShellLine::Bind { r, .. } => hold_both(session, NAMES, r.page),
        ShellLine::Unbind { .. } => hold_to_write(session, NAMES),
        ShellLine::Find { .. } => hold_to_read(session, NAMES),
        ShellLine::Names => hold_to_read(session, NAMES),
    }
}
