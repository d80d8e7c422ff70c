ghost use Rattle.std.specs.Prelude.{◌≡◌, ◌≢◌, ◌≤◌, false, [], ◌⊎◌, IsTrue, IfSome, IfOk};
ghost use Rattle.casper_core.specs.Represents.{Represents};
ghost use Rattle.casper_core.specs.Shaped.{RepresentsButWords};
ghost use Rattle.casper_model.specs.State.{State};
ghost use Rattle.casper_words.specs.Count.{FaultCountRose};
ghost use Rattle.casper_app.specs.Comes.{ComesOver, ComesInShape};
ghost use Rattle.casper_app.specs.Command.{IsBacking, IsCommand, IsOpening, name_in};
ghost use Rattle.casper_app.specs.Running.{IsRun, IsLegalRun, RunsCommand, IsLegalCommand, RunsReplayOver, IsLegalReplay, KeepsOthers};
ghost use Rattle.casper_app.specs.Shelving.{shelving_of};
ghost use Rattle.casper_app.specs.Status.{status_of_end};
ghost use Rattle.casper_app.specs.Texts.{tells_number};
ghost use Rattle.casper_app.specs.Ending.{HasItsStore, IsUnrefused, RunsAudit, end_of_audit, RunsReplay, RunsInMemory, IsLegalFrom, EndsWith, IsReadAndDone, start_of};

use crate::command::{Backing, Command, MOST_ENTRIES, Opening, store_name};
use crate::ending::write_ending;
use crate::lines::take_lines;
use crate::past::Past;
use crate::replay::Replay;
use crate::room::Room;
use crate::sessions::Sessions;
use crate::stores::{check_store, format_store, replay_store};
use crate::{Cause, End, Outlet};
use casper_audit::{AuditFault, Verdict, audit};
use casper_core::Core;
use casper_disk::{MemVault, Shelf, Vault};
use casper_io::{Sink, Source};
use casper_reopen::Reopen;
use casper_space::Answers;
use casper_text::Word;
use casper_trail::{Mark, Trail};
use casper_words::Memory;
use std::alloc::Global;

/// What stands when a call of `run` returns.
#[derive(Drop)]
pub struct Ended {
    /// The status with which the program ends.
    pub status: u8,
    /// The answers to what the lines asked for, in order.
    pub answers: Answers,
    /// The trail of the last session.
    pub trail: Trail,
    /// How the call ended.
    pub last: End,
}

/// Does what the words ask. `format STORE PAGES FRAMES` makes a new store on the shelf; `check STORE` opens one and tells of it;
/// `replay STORE` answers the lines of the source over one, or with `mem:P` in place of its name over P zero pages in memory, each
/// before it reads the next, and writes the answers and a summary to the sink; `audit` reads the text of a trail, and writes whether
/// it is legal.
///
/// Where the words are refused nothing is read. Where the call does not end with status 0 the last line tells why.
pub fn run<H: Shelf, S: Source, K: Sink>(
    alloc: Global,
    words: &[Word],
    shelf: &mut H,
    source: &mut S,
    sink: &mut K,
) -> Ended
    requires source { S.is_broken source.old ≡ false }
    requires sink { K.is_broken sink.old ≡ false }
    // What was read, answered, recorded and written, to the sink and to the store.
    ensures run { IsRun (shelving_of H.tells H.place H.faults H.Disk.faults H.Disk.content
        H.Disk.loose H.Disk.moment H.Disk.images_since H.Disk.images_now) words.now
        shelf.old shelf.new (S.left source.old) (S.left source.new) (K.taken sink.old)
        (K.taken sink.new)
        result.answers.items result.trail.items result.last }
    // What was recorded is one legal history of a plain page array, and so it is with the calls that are pending after it.
    ensures legal { IsLegalRun (shelving_of H.tells H.place H.faults H.Disk.faults H.Disk.content
        H.Disk.loose H.Disk.moment H.Disk.images_since H.Disk.images_now) words.now
        shelf.old (S.left source.old) result.answers.items result.trail.items }
    // Each store of another name stays.
    ensures kept { KeepsOthers (shelving_of H.tells H.place H.faults H.Disk.faults H.Disk.content
        H.Disk.loose H.Disk.moment H.Disk.images_since H.Disk.images_now)
        (name_in words.now) shelf.old shelf.new }
    // Status 0 says of a command that reads the input that it was read to its end. A fault of the input or of the output ends the call,
    // and nothing more is asked of what failed: that of the input ends with status 3, unless the output fails, and that of the output
    // with status 4. Status 5 comes only where the shelf or a disk failed.
    ensures end { IsReadAndDone result.last → IfSome (S.left source.new) (λ left. left ≡ []) }
    ensures status { result.status ≡ status_of_end result.last }
    ensures disk_fault { result.last ≡ End.Stopped Cause.Disk
        → FaultCountRose (H.faults shelf.old) (H.faults shelf.new) }
    ensures read_fault { result.last ≡ End.Stopped Cause.Read
        → FaultCountRose (S.faults source.old) (S.faults source.new) }
    ensures source_stands { (result.last ≡ End.Stopped Cause.Read)
        ⊎ (result.last ≡ End.Stopped Cause.Write)
        ⊎ (S.faults source.new ≡ S.faults source.old) }
    ensures write_fault { result.last ≡ End.Stopped Cause.Write
        → FaultCountRose (K.faults sink.old) (K.faults sink.new) }
    ensures sink_stands { (result.last ≡ End.Stopped Cause.Write)
        ⊎ (K.faults sink.new ≡ K.faults sink.old) }
{
    match Command::of(words) {
        Ok(command) => carry_out(alloc, &command, store_name(words), shelf, source, sink),
        Err(cause) => end_unread(alloc, cause, Trail::new(alloc, MOST_ENTRIES), sink),
    }
}

/// Does what a command says, as `run` does what its words ask. A command on a store is one on the store of the name.
pub fn carry_out<H: Shelf, S: Source, K: Sink>(
    alloc: Global,
    command: &Command,
    name: &[u8],
    shelf: &mut H,
    source: &mut S,
    sink: &mut K,
) -> Ended
    requires command { IsCommand command.now }
    requires source { S.is_broken source.old ≡ false }
    requires sink { K.is_broken sink.old ≡ false }
    ensures run { RunsCommand (shelving_of H.tells H.place H.faults H.Disk.faults H.Disk.content
        H.Disk.loose H.Disk.moment H.Disk.images_since H.Disk.images_now) command.now
        name.now shelf.old shelf.new (S.left source.old) (S.left source.new) (K.taken sink.old)
        (K.taken sink.new)
        result.answers.items result.trail.items result.last }
    ensures legal { IsLegalCommand (shelving_of H.tells H.place H.faults H.Disk.faults H.Disk.content
        H.Disk.loose H.Disk.moment H.Disk.images_since H.Disk.images_now)
        command.now name.now shelf.old
        (S.left source.old) result.answers.items result.trail.items }
    ensures kept { KeepsOthers (shelving_of H.tells H.place H.faults H.Disk.faults H.Disk.content
        H.Disk.loose H.Disk.moment H.Disk.images_since H.Disk.images_now) name.now
        shelf.old shelf.new }
    ensures end { IsReadAndDone result.last → IfSome (S.left source.new) (λ left. left ≡ []) }
    ensures status { result.status ≡ status_of_end result.last }
    ensures disk_fault { result.last ≡ End.Stopped Cause.Disk
        → FaultCountRose (H.faults shelf.old) (H.faults shelf.new) }
    ensures read_fault { result.last ≡ End.Stopped Cause.Read
        → FaultCountRose (S.faults source.old) (S.faults source.new) }
    ensures source_stands { (result.last ≡ End.Stopped Cause.Read)
        ⊎ (result.last ≡ End.Stopped Cause.Write)
        ⊎ (S.faults source.new ≡ S.faults source.old) }
    ensures write_fault { result.last ≡ End.Stopped Cause.Write
        → FaultCountRose (K.faults sink.old) (K.faults sink.new) }
    ensures sink_stands { (result.last ≡ End.Stopped Cause.Write)
        ⊎ (K.faults sink.new ≡ K.faults sink.old) }
{
    let _mark: Option<Mark> = None;
    match command {
        Command::Format { pages, frames } => {
            format_store(alloc, name, *pages, *frames, shelf, sink)
        }
        Command::Check => check_store(alloc, name, shelf, sink),
        Command::Replay(backing, opening, outlet) => {
            replay_over(alloc, *backing, name, opening, *outlet, shelf, source, sink)
        }
        Command::Audit => audit_source(alloc, source, sink),
    }
}

/// Replays the lines of the source over the pages that are asked for.
fn replay_over<H: Shelf, S: Source, K: Sink>(
    alloc: Global,
    backing: Backing,
    name: &[u8],
    opening: &Opening,
    outlet: Outlet,
    shelf: &mut H,
    source: &mut S,
    sink: &mut K,
) -> Ended
    requires opening { IsOpening opening.now }
    requires backing { IsBacking backing }
    requires source { S.is_broken source.old ≡ false }
    requires sink { K.is_broken sink.old ≡ false }
    ensures run { RunsReplayOver (shelving_of H.tells H.place H.faults H.Disk.faults H.Disk.content
        H.Disk.loose H.Disk.moment H.Disk.images_since H.Disk.images_now) backing
        name.now opening.now outlet shelf.old shelf.new (S.left source.old) (S.left source.new)
        (K.taken sink.old) (K.taken sink.new)
        result.answers.items result.trail.items result.last }
    ensures legal { IsLegalReplay (shelving_of H.tells H.place H.faults H.Disk.faults H.Disk.content
        H.Disk.loose H.Disk.moment H.Disk.images_since H.Disk.images_now) backing
        name.now opening.now outlet shelf.old
        (S.left source.old) result.answers.items result.trail.items }
    ensures kept { KeepsOthers (shelving_of H.tells H.place H.faults H.Disk.faults H.Disk.content
        H.Disk.loose H.Disk.moment H.Disk.images_since H.Disk.images_now) name.now
        shelf.old shelf.new }
    ensures end { IsReadAndDone result.last → IfSome (S.left source.new) (λ left. left ≡ []) }
    ensures status { result.status ≡ status_of_end result.last }
    ensures disk_fault { result.last ≡ End.Stopped Cause.Disk
        → FaultCountRose (H.faults shelf.old) (H.faults shelf.new) }
    ensures read_fault { result.last ≡ End.Stopped Cause.Read
        → FaultCountRose (S.faults source.old) (S.faults source.new) }
    ensures source_stands { (result.last ≡ End.Stopped Cause.Read)
        ⊎ (result.last ≡ End.Stopped Cause.Write)
        ⊎ (S.faults source.new ≡ S.faults source.old) }
    ensures write_fault { result.last ≡ End.Stopped Cause.Write
        → FaultCountRose (K.faults sink.old) (K.faults sink.new) }
    ensures sink_stands { (result.last ≡ End.Stopped Cause.Write)
        ⊎ (K.faults sink.new ≡ K.faults sink.old) }
{
    let _mark: Option<Mark> = None;
    match backing {
        Backing::Memory(pages) => replay_in_memory(alloc, pages, opening, outlet, source, sink),
        Backing::Store => replay_store(alloc, name, opening, outlet, shelf, source, sink),
    }
}

/// Audits the text of a trail that the source gives.
fn audit_source<S: Source, K: Sink>(alloc: Global, source: &mut S, sink: &mut K) -> Ended
    requires source { S.is_broken source.old ≡ false }
    requires sink { K.is_broken sink.old ≡ false }
    ensures trail { result.trail.items ≡ [] }
    ensures disk { result.last ≢ End.Stopped Cause.Disk }
    ensures run { RunsAudit (S.left source.old) (S.left source.new) (K.taken sink.old)
        (K.taken sink.new)
        result.answers.items result.trail.items result.last }
    ensures store { HasItsStore result.last }
    ensures end { IsReadAndDone result.last → IfSome (S.left source.new) (λ left. left ≡ []) }
    ensures status { result.status ≡ status_of_end result.last }
    ensures read_fault { result.last ≡ End.Stopped Cause.Read
        → FaultCountRose (S.faults source.old) (S.faults source.new) }
    ensures source_stands { (result.last ≡ End.Stopped Cause.Read)
        ⊎ (result.last ≡ End.Stopped Cause.Write)
        ⊎ (S.faults source.new ≡ S.faults source.old) }
    ensures write_fault { result.last ≡ End.Stopped Cause.Write
        → FaultCountRose (K.faults sink.old) (K.faults sink.new) }
    ensures sink_stands { (result.last ≡ End.Stopped Cause.Write)
        ⊎ (K.faults sink.new ≡ K.faults sink.old) }
{
    let _mark: Option<Mark> = None;
    let found = audit(alloc, source);
    end_idle(alloc, end_of(&found), Trail::new(alloc, MOST_ENTRIES), sink)
}

/// How an audit means to end.
fn end_of(found: &Result<Verdict, AuditFault>) -> End
    ensures { result ≡ end_of_audit found.now }
{
    match found {
        Ok(Verdict::Legal(entries)) => End::Legal(*entries),
        Ok(Verdict::FirstBad { at, rule }) => End::Stopped(Cause::Illegal {
            at: *at,
            rule: *rule,
        }),
        Err(AuditFault::Memory) => End::Stopped(Cause::Memory),
        Err(AuditFault::Read) => End::Stopped(Cause::Read),
        Err(AuditFault::BadLine(line)) => End::Stopped(Cause::BadLine(*line)),
    }
}

/// Replays the lines of the source over zero pages in memory.
fn replay_in_memory<S: Source, K: Sink>(
    alloc: Global,
    pages: u32,
    opening: &Opening,
    outlet: Outlet,
    source: &mut S,
    sink: &mut K,
) -> Ended
    requires opening { IsOpening opening.now }
    requires pages { pages ≤ 16384 }
    requires source { S.is_broken source.old ≡ false }
    requires sink { K.is_broken sink.old ≡ false }
    ensures run { RunsInMemory pages opening.now outlet (S.left source.old) (S.left source.new)
        (K.taken sink.old) (K.taken sink.new)
        result.answers.items result.trail.items result.last }
    ensures legal { IsLegalFrom opening.now.entries
        (start_of pages opening.now) outlet
        (S.left source.old) result.answers.items result.trail.items }
    ensures store { HasItsStore result.last }
    ensures end { IsReadAndDone result.last → IfSome (S.left source.new) (λ left. left ≡ []) }
    ensures status { result.status ≡ status_of_end result.last }
    ensures read_fault { result.last ≡ End.Stopped Cause.Read
        → FaultCountRose (S.faults source.old) (S.faults source.new) }
    ensures source_stands { (result.last ≡ End.Stopped Cause.Read)
        ⊎ (result.last ≡ End.Stopped Cause.Write)
        ⊎ (S.faults source.new ≡ S.faults source.old) }
    ensures write_fault { result.last ≡ End.Stopped Cause.Write
        → FaultCountRose (K.faults sink.old) (K.faults sink.new) }
    ensures sink_stands { (result.last ≡ End.Stopped Cause.Write)
        ⊎ (K.faults sink.new ≡ K.faults sink.old) }
{
    let _mark: Option<Mark> = None;
    match core_in_memory(alloc, pages, opening) {
        Ok(core) => replay(alloc, core, opening.entries, outlet, source, sink).0,
        Err(Memory) => {
            let trail = Trail::new(alloc, opening.entries);
            end_unread(alloc, Cause::Memory, trail, sink)
        }
    }
}

/// The core of a session over zero pages in memory, before any event.
fn core_in_memory(alloc: Global, pages: u32, opening: &Opening) -> Result<Core<MemVault>, Memory>
    requires opening { IsOpening opening.now }
    requires pages { pages ≤ 16384 }
    ensures stands { IfOk result (λ core. Represents (start_of pages opening.now) core) }
    ensures calls { IfOk result (λ core. core.calls ≡ 0) }
    ensures trail { IfOk result (λ core. core.hub.trail ≡ []) }
{
    let vault = MemVault::new(alloc, pages)?;
    match Core::new(alloc, vault, opening.entries, opening.cache) {
        Ok(core) => Ok(core),
        Err((_vault, memory)) => Err(memory),
    }
}

/// Replays the lines of the source over a core with an empty trail, and hands its vault back. After a reopen a trail takes so many
/// entries. What a stop since the call began might have left of the vault is left, by the machine, at some point of what the lines
/// ask for.
pub(crate) fn replay<V: Vault + Reopen, S: Source, K: Sink>(
    alloc: Global,
    core: Core<V>,
    entries: u32,
    outlet: Outlet,
    source: &mut S,
    sink: &mut K,
) -> (Ended, V)
    requires calls { core.calls ≡ 0 }
    requires trail { core.hub.trail ≡ [] }
    requires entries { entries ≤ 4194304 }
    requires source { S.is_broken source.old ≡ false }
    requires sink { K.is_broken sink.old ≡ false }
    ensures run { IsTrue V.tells → (start : State) → Represents start core
        → RunsReplay (ComesOver V.moment V.images_since V.images_now core.vault result.1 entries
        start) outlet (V.faults core.vault) (V.faults result.1)
        (S.left source.old) (S.left source.new) (K.taken sink.old)
        (K.taken sink.new) result.0.answers.items result.0.trail.items result.0.last }
    ensures shape { (start : State) → RepresentsButWords start core
        → RunsReplay (ComesInShape entries start) outlet (V.faults core.vault) (V.faults result.1)
        (S.left source.old) (S.left source.new) (K.taken sink.old)
        (K.taken sink.new) result.0.answers.items result.0.trail.items result.0.last }
    ensures unrefused { IsTrue V.tells → IsUnrefused result.0.last }
    ensures disk { result.0.last ≡ End.Stopped Cause.Disk
        → FaultCountRose (V.faults core.vault) (V.faults result.1) }
    ensures end { IsReadAndDone result.0.last → IfSome (S.left source.new) (λ left. left ≡ []) }
    ensures status { result.0.status ≡ status_of_end result.0.last }
    ensures read_fault { result.0.last ≡ End.Stopped Cause.Read
        → FaultCountRose (S.faults source.old) (S.faults source.new) }
    ensures source_stands { (result.0.last ≡ End.Stopped Cause.Read)
        ⊎ (result.0.last ≡ End.Stopped Cause.Write)
        ⊎ (S.faults source.new ≡ S.faults source.old) }
    ensures write_fault { result.0.last ≡ End.Stopped Cause.Write
        → FaultCountRose (K.faults sink.old) (K.faults sink.new) }
    ensures sink_stands { (result.0.last ≡ End.Stopped Cause.Write)
        ⊎ (K.faults sink.new ≡ K.faults sink.old) }
{
    let _mark: Option<Mark> = None;
    // What is true of every core is so before the first line.
    let _calls = core.calls();
    let mut room = match Room::new(alloc) {
        Ok(room) => room,
        Err(Memory) => {
            let (hub, vault) = core.into_parts();
            let ended = end_unread(alloc, Cause::Memory, hub.into_trail(), sink);
            return (ended, vault);
        }
    };
    let sessions = Sessions {
        core,
        entries,
        past: Past::none(),
    };
    let mut replay = Replay::new(alloc, sessions, outlet);
    let said = match take_lines(&mut replay, &mut room, source, sink) {
        Ok(lines) => End::Done(replay.sessions.summary(lines)),
        Err(cause) => End::Stopped(cause),
    };
    // And it is so after the last.
    let _calls = replay.sessions.core.calls();
    let last = write_ending(alloc, sink, said);
    let (answers, trail, vault) = replay.into_parts();
    let ended = Ended {
        status: last.status(),
        answers,
        trail,
        last,
    };
    (ended, vault)
}

/// Ends a call that has answered nothing, for a cause and with the trail that there is.
pub(crate) fn end_unread<K: Sink>(alloc: Global, cause: Cause, trail: Trail, sink: &mut K) -> Ended
    requires { K.is_broken sink.old ≡ false }
    ensures ends { EndsWith (End.Stopped cause) result.last (K.taken sink.old) (K.taken sink.new) }
    ensures answers { result.answers.items ≡ [] }
    ensures trail { result.trail.items ≡ trail.items }
    ensures status { result.status ≡ status_of_end result.last }
    ensures fault { result.last ≡ End.Stopped Cause.Write
        → (cause ≡ Cause.Write) ⊎ FaultCountRose (K.faults sink.old) (K.faults sink.new) }
    ensures sink_stands { (result.last ≡ End.Stopped Cause.Write)
        ⊎ (K.faults sink.new ≡ K.faults sink.old) }
    ensures end { (result.last ≡ End.Stopped cause) ⊎ (result.last ≡ End.Stopped Cause.Write)
        ⊎ (result.last ≡ End.Stopped Cause.Memory) }
{
    end_idle(alloc, End::Stopped(cause), trail, sink)
}

/// Ends a call that has answered nothing, with the trail that there is.
pub(crate) fn end_idle<K: Sink>(alloc: Global, said: End, trail: Trail, sink: &mut K) -> Ended
    requires { K.is_broken sink.old ≡ false }
    ensures ends { EndsWith said result.last (K.taken sink.old) (K.taken sink.new) }
    ensures answers { result.answers.items ≡ [] }
    ensures trail { result.trail.items ≡ trail.items }
    ensures status { result.status ≡ status_of_end result.last }
    ensures fault { result.last ≡ End.Stopped Cause.Write
        → (said ≡ End.Stopped Cause.Write) ⊎ FaultCountRose (K.faults sink.old) (K.faults sink.new) }
    ensures sink_stands { (result.last ≡ End.Stopped Cause.Write)
        ⊎ (K.faults sink.new ≡ K.faults sink.old) }
    ensures end { (result.last ≡ said) ⊎ (result.last ≡ End.Stopped Cause.Write)
        ⊎ (result.last ≡ End.Stopped Cause.Memory) }
    ensures constant { tells_number said ≡ false
        → (result.last ≡ said) ⊎ (result.last ≡ End.Stopped Cause.Write) }
{
    let last = write_ending(alloc, sink, said);
    Ended {
        status: last.status(),
        answers: Answers::new(alloc),
        trail,
        last,
    }
}
