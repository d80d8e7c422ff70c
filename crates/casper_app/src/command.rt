ghost use Rattle.std.specs.Prelude.{◌≡◌, ◌⊎◌, IfSome, IfOk, IfErr};
ghost use Rattle.std.specs.List.{list_any};
ghost use Rattle.casper_app.specs.Command.{is_command, is_option as begins_option, is_store_name as may_be_name, name_in};

use crate::{Cause, Outlet};
use casper_text::{Word, number, small_number};
use casper_words::Page;

/// The greatest number of pages that a client holds, where no word says another.
const MOST_HELD: u32 = 64;

/// The greatest number of entries of one trail.
pub(crate) const MOST_ENTRIES: u32 = 4_194_304;

/// How a session over a store begins.
#[derive(Clone, Copy, Debug, PartialEq, Eq)]
pub struct Opening {
    /// The greatest number of pages that a client holds, from 8 to 1,024.
    pub cache: u32,
    /// The greatest number of entries of the trail, at most 4,194,304.
    pub entries: u32,
}

/// Where a replay has its pages.
#[derive(Clone, Copy, Debug, PartialEq, Eq)]
pub enum Backing {
    /// In memory: so many zero pages, at most 16,384.
    Memory(u32),
    /// In the store of the name that is given.
    Store,
}

/// What the words ask for. A command on a store says nothing of its name, which is given beside it.
#[derive(Clone, Copy, Debug, PartialEq, Eq)]
pub enum Command {
    /// A new store of so many zero pages and frames is made.
    Format { pages: u32, frames: u32 },
    /// A store is opened and closed, and what was found is told.
    Check,
    /// The lines of a schedule are answered, over pages that are opened so, and this becomes of the answers.
    Replay(Backing, Opening, Outlet),
    /// The text of a trail is audited.
    Audit,
}

/// The name of the store in words of a command on one: the word after the command. It is empty where there is none.
pub(crate) fn store_name(words: &[Word]) -> &[u8]
    ensures { result.now ≡ name_in words.now }
{
    match words {
        [_, name, ..] => name.text().as_bytes(),
        _ => b"",
    }
}

/// Whether a word may be the name of a store on a shelf.
fn is_store_name(word: &[u8]) -> bool
    ensures { result ≡ may_be_name word.now }
{
    !word.is_empty() && !word.starts_with(b"mem:")
}

/// Whether a word begins with a hyphen, as options do.
fn is_option(word: &[u8]) -> bool
    ensures { result ≡ begins_option word.now }
{
    word.first() == Some(&b'-')
}

/// Whether one of the words begins with a hyphen.
fn has_option(words: &[Word]) -> bool
    ensures { result ≡ list_any begins_option words.now }
{
    words.iter().any(|word| is_option(word.text().as_bytes()))
}

/// Whether a word begins a command.
fn is_known(word: &[u8]) -> bool
    ensures { result ≡ is_command word.now }
{
    word == b"format".as_slice()
        || word == b"check".as_slice()
        || word == b"replay".as_slice()
        || word == b"run".as_slice()
        || word == b"audit".as_slice()
        || word == b"gen".as_slice()
}

impl Command {
    ghost use Rattle.casper_app.specs.Command.{IsCommand, command_of, known_of, format_of, check_of, audit_of, replay_of};

    /// The command that the words ask for, or the cause that refuses them.
    pub(crate) fn of(words: &[Word]) -> Result<Command, Cause>
        ensures command { result ≡ command_of words.now }
        ensures limits { IfOk result IsCommand }
        ensures refused { IfErr result (λ cause. (cause ≡ Cause.Usage)
            ⊎ (cause ≡ Cause.Unbuilt 0)) }
    {
        let [command, rest @ ..] = words else {
            return Err(Cause::Usage);
        };
        let command = command.text().as_bytes();
        if !is_known(command) {
            return Err(Cause::Usage);
        }
        if has_option(rest) {
            return Err(Cause::Unbuilt(0));
        }
        Command::known(command, rest)
    }

    /// The command that a known first word and the words after it ask for.
    fn known(command: &[u8], rest: &[Word]) -> Result<Command, Cause>
        ensures command { result ≡ known_of command.now rest.now }
        ensures limits { IfOk result IsCommand }
        ensures refused { IfErr result (λ cause. (cause ≡ Cause.Usage)
            ⊎ (cause ≡ Cause.Unbuilt 0)) }
    {
        if command == b"format".as_slice() {
            Command::format(rest).ok_or(Cause::Usage)
        } else if command == b"check".as_slice() {
            Command::check(rest).ok_or(Cause::Usage)
        } else if command == b"replay".as_slice() {
            Command::replay(rest).ok_or(Cause::Usage)
        } else if command == b"audit".as_slice() {
            Command::audit(rest).ok_or(Cause::Usage)
        } else {
            Err(Cause::Unbuilt(0))
        }
    }

    fn format(rest: &[Word]) -> Option<Command>
        ensures command { result ≡ format_of rest.now }
        ensures limits { IfSome result IsCommand }
    {
        let [name, pages, frames] = rest else {
            return None;
        };
        if !is_store_name(name.text().as_bytes()) {
            return None;
        }
        let pages = small_number(pages.text().as_bytes())?;
        let frames = small_number(frames.text().as_bytes())?;
        Some(Command::Format { pages, frames })
    }

    fn check(rest: &[Word]) -> Option<Command>
        ensures command { result ≡ check_of rest.now }
        ensures limits { IfSome result IsCommand }
    {
        match rest {
            [name] if is_store_name(name.text().as_bytes()) => Some(Command::Check),
            _ => None,
        }
    }

    fn audit(rest: &[Word]) -> Option<Command>
        ensures command { result ≡ audit_of rest.now }
        ensures limits { IfSome result IsCommand }
    {
        match rest {
            [] => Some(Command::Audit),
            _ => None,
        }
    }

    fn replay(rest: &[Word]) -> Option<Command>
        ensures command { result ≡ replay_of rest.now }
        ensures limits { IfSome result IsCommand }
    {
        let [store] = rest else {
            return None;
        };
        let opening = Opening {
            cache: MOST_HELD,
            entries: MOST_ENTRIES,
        };
        let backing = Backing::of(store.text().as_bytes())?;
        Some(Command::Replay(backing, opening, Outlet::Written))
    }
}

impl Backing {
    ghost use Rattle.casper_app.specs.Command.{IsBacking, backing_of, pages_in};

    /// Where a word says that the pages are.
    fn of(store: &[u8]) -> Option<Backing>
        ensures backing { result ≡ backing_of store.now }
        ensures limits { IfSome result IsBacking }
    {
        match store.strip_prefix(b"mem:") {
            Some(pages) => Backing::in_memory(pages),
            None if store.is_empty() => None,
            None => Some(Backing::Store),
        }
    }

    fn in_memory(text: &[u8]) -> Option<Backing>
        ensures backing { result ≡ pages_in text.now }
        ensures limits { IfSome result IsBacking }
    {
        match number(text) {
            Some(pages) if 1 <= pages && pages <= u64::from(Page::MOST) => {
                Some(Backing::Memory(pages as u32))
            }
            _ => None,
        }
    }
}
