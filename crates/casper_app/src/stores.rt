ghost use Rattle.std.specs.Prelude.{◌≡◌, ◌≢◌, ◌⊎◌, ℕ, List, Option, false, [], IfSome, IsTrue};
ghost use Rattle.casper_words.specs.Count.{FaultCountRose};
ghost use Rattle.casper_app.specs.Command.{IsOpening};
ghost use Rattle.casper_app.specs.Ending.{IsReadAndDone};
ghost use Rattle.casper_app.specs.Running.{IsLegalOverStore, KeepsOthers};
ghost use Rattle.casper_app.specs.Shelving.{shelving_of};
ghost use Rattle.casper_app.specs.Status.{status_of_end};
ghost use Rattle.casper_app.specs.StoreRuns.{RunsFormat, RunsCheck, RunsOverStore};

use crate::command::{MOST_ENTRIES, Opening};
use crate::top::{Ended, end_idle, end_unread, replay};
use crate::{Cause, End, Outlet};
use casper_core::Core;
use casper_disk::{Shelf, Vault};
use casper_io::{Sink, Source};
use casper_stores::{check, close_store, format, open_store};
use casper_trail::{Mark, Trail};
use std::alloc::Global;

/// Makes a new store of so many pages and frames under a name.
pub(crate) fn format_store<H: Shelf, K: Sink>(
    alloc: Global,
    name: &[u8],
    pages: u32,
    frames: u32,
    shelf: &mut H,
    sink: &mut K,
) -> Ended
    requires sink { K.is_broken sink.old ≡ false }
    ensures run { (left : Option (List ℕ)) → RunsFormat (shelving_of H.tells H.place H.faults H.Disk.faults H.Disk.content
        H.Disk.loose H.Disk.moment H.Disk.images_since H.Disk.images_now) name.now pages frames
        shelf.old shelf.new left left (K.taken sink.old) (K.taken sink.new)
        result.answers.items result.trail.items result.last }
    ensures kept { KeepsOthers (shelving_of H.tells H.place H.faults H.Disk.faults H.Disk.content
        H.Disk.loose H.Disk.moment H.Disk.images_since H.Disk.images_now) name.now
        shelf.old shelf.new }
    ensures trail { result.trail.items ≡ [] }
    ensures end { IsReadAndDone result.last → ⊥ }
    ensures read { result.last ≢ End.Stopped Cause.Read }
    ensures status { result.status ≡ status_of_end result.last }
    ensures disk_fault { result.last ≡ End.Stopped Cause.Disk
        → FaultCountRose (H.faults shelf.old) (H.faults shelf.new) }
    ensures write_fault { result.last ≡ End.Stopped Cause.Write
        → FaultCountRose (K.faults sink.old) (K.faults sink.new) }
    ensures sink_stands { (result.last ≡ End.Stopped Cause.Write)
        ⊎ (K.faults sink.new ≡ K.faults sink.old) }
{
    let _mark: Option<Mark> = None;
    let said = match format(alloc, shelf, name, pages, frames) {
        Ok(()) => End::Formatted { pages, frames },
        Err(fault) => End::Stopped(fault.into()),
    };
    end_idle(alloc, said, Trail::new(alloc, MOST_ENTRIES), sink)
}

/// Opens the store of a name and closes it again, and tells what was found.
pub(crate) fn check_store<H: Shelf, K: Sink>(
    alloc: Global,
    name: &[u8],
    shelf: &mut H,
    sink: &mut K,
) -> Ended
    requires sink { K.is_broken sink.old ≡ false }
    ensures run { (left : Option (List ℕ)) → RunsCheck (shelving_of H.tells H.place H.faults H.Disk.faults H.Disk.content
        H.Disk.loose H.Disk.moment H.Disk.images_since H.Disk.images_now) name.now
        shelf.old shelf.new left left (K.taken sink.old) (K.taken sink.new)
        result.answers.items result.trail.items result.last }
    ensures kept { KeepsOthers (shelving_of H.tells H.place H.faults H.Disk.faults H.Disk.content
        H.Disk.loose H.Disk.moment H.Disk.images_since H.Disk.images_now) name.now
        shelf.old shelf.new }
    ensures trail { result.trail.items ≡ [] }
    ensures end { IsReadAndDone result.last → ⊥ }
    ensures read { result.last ≢ End.Stopped Cause.Read }
    ensures status { result.status ≡ status_of_end result.last }
    ensures disk_fault { result.last ≡ End.Stopped Cause.Disk
        → FaultCountRose (H.faults shelf.old) (H.faults shelf.new) }
    ensures write_fault { result.last ≡ End.Stopped Cause.Write
        → FaultCountRose (K.faults sink.old) (K.faults sink.new) }
    ensures sink_stands { (result.last ≡ End.Stopped Cause.Write)
        ⊎ (K.faults sink.new ≡ K.faults sink.old) }
{
    let _mark: Option<Mark> = None;
    let said = match check(alloc, shelf, name) {
        Ok(found) => End::Checked(found),
        Err(fault) => End::Stopped(fault.into()),
    };
    end_idle(alloc, said, Trail::new(alloc, MOST_ENTRIES), sink)
}

/// Replays the lines of the source over the store of a name, which is closed at the end.
pub(crate) fn replay_store<H: Shelf, S: Source, K: Sink>(
    alloc: Global,
    name: &[u8],
    opening: &Opening,
    outlet: Outlet,
    shelf: &mut H,
    source: &mut S,
    sink: &mut K,
) -> Ended
    requires opening { IsOpening opening.now }
    requires source { S.is_broken source.old ≡ false }
    requires sink { K.is_broken sink.old ≡ false }
    ensures run { RunsOverStore (shelving_of H.tells H.place H.faults H.Disk.faults H.Disk.content
        H.Disk.loose H.Disk.moment H.Disk.images_since H.Disk.images_now) name.now opening.now outlet
        shelf.old shelf.new (S.left source.old) (S.left source.new)
        (K.taken sink.old) (K.taken sink.new)
        result.answers.items result.trail.items result.last }
    ensures legal { IsTrue H.tells → IsLegalOverStore (shelving_of H.tells H.place H.faults H.Disk.faults H.Disk.content
        H.Disk.loose H.Disk.moment H.Disk.images_since H.Disk.images_now) name.now opening.now outlet
        shelf.old (S.left source.old) result.answers.items result.trail.items }
    ensures kept { KeepsOthers (shelving_of H.tells H.place H.faults H.Disk.faults H.Disk.content
        H.Disk.loose H.Disk.moment H.Disk.images_since H.Disk.images_now) name.now
        shelf.old shelf.new }
    ensures end { IsReadAndDone result.last → IfSome (S.left source.new) (λ left. left ≡ []) }
    ensures status { result.status ≡ status_of_end result.last }
    ensures disk_fault { result.last ≡ End.Stopped Cause.Disk
        → FaultCountRose (H.faults shelf.old) (H.faults shelf.new) }
    ensures read_fault { result.last ≡ End.Stopped Cause.Read
        → FaultCountRose (S.faults source.old) (S.faults source.new) }
    ensures source_stands { (result.last ≡ End.Stopped Cause.Read)
        ⊎ (result.last ≡ End.Stopped Cause.Write)
        ⊎ (S.faults source.new ≡ S.faults source.old) }
    ensures write_fault { result.last ≡ End.Stopped Cause.Write
        → FaultCountRose (K.faults sink.old) (K.faults sink.new) }
    ensures sink_stands { (result.last ≡ End.Stopped Cause.Write)
        ⊎ (K.faults sink.new ≡ K.faults sink.old) }
{
    let _mark: Option<Mark> = None;
    let store = match open_store(alloc, shelf, name) {
        Ok(store) => store,
        Err(fault) => {
            let trail = Trail::new(alloc, opening.entries);
            return end_unread(alloc, fault.into(), trail, sink);
        }
    };
    match Core::new(alloc, store, opening.entries, opening.cache) {
        Ok(core) => {
            let (ended, store) = replay(alloc, core, opening.entries, outlet, source, sink);
            close_store(shelf, name, store);
            ended
        }
        Err((store, memory)) => {
            close_store(shelf, name, store);
            let trail = Trail::new(alloc, opening.entries);
            end_unread(alloc, memory.into(), trail, sink)
        }
    }
}
