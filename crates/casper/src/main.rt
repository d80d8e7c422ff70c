//! The program: hands its words, the files of the system, its input and its output to the top call, and ends with the call's status.
#![tactic(auto)]

ghost use Rattle.std.specs.Prelude.{◌≡◌, ◌⊎◌, false, IfOk, OnErr};
ghost use Rattle.std.specs.Iterator.{IsFinite};
ghost use Rattle.std.specs.Process.{exit_status};
ghost use Rattle.casper_words.specs.Count.{FaultCountRose};
ghost use Rattle.casper_app.specs.Shelving.{shelving_of};
ghost use Rattle.casper.specs.Begin.{RunsTo, TellsNoMemory};
ghost use Rattle.casper.specs.Words.{AreTexts};

use casper_app::{Cause, run};
use casper_disk::{FileShelf, Shelf};
use casper_io::{Sink, Source, StdSink, StdSource, put_all};
use casper_text::Word;
use casper_words::Memory;
use std::alloc::Global;
use std::process::ExitCode;
use std::{env, io};

fn main(rt: HostRuntime) -> ExitCode {
    let alloc = rt.alloc();
    let mut sink = StdSink::new(rt.stdout());
    let words = words_given(&rt);
    let source = StdSource::new(alloc, rt.stdin());
    begin(alloc, words, &mut FileShelf::new(rt), source, &mut sink)
}

/// Does what the words ask, where there was memory for them and for the source, and ends with the status of the cause.
fn begin<H: Shelf, S: Source + Drop, K: Sink>(
    alloc: Global,
    words: Result<Vec<Word>, Memory>,
    shelf: &mut H,
    source: Result<S, Memory>,
    sink: &mut K,
) -> ExitCode
    requires source { IfOk source (λ source. S.is_broken source ≡ false) }
    requires sink { K.is_broken sink.old ≡ false }
    ensures run { IfOk words (λ words. IfOk source (λ source. (after : S)
        × RunsTo (shelving_of H.tells H.place H.faults H.Disk.faults H.Disk.content
        H.Disk.loose H.Disk.moment H.Disk.images_since H.Disk.images_now)
        words.items shelf.old shelf.new (S.left source) (S.left after) (S.faults source) (S.faults after)
        (K.taken sink.old) (K.taken sink.new) (exit_status result))) }
    ensures no_words { OnErr words (TellsNoMemory (K.taken sink.old) (K.taken sink.new)
        (exit_status result)) }
    ensures no_source { OnErr source (TellsNoMemory (K.taken sink.old) (K.taken sink.new)
        (exit_status result)) }
    ensures write_fault { exit_status result ≡ 4
        → FaultCountRose (K.faults sink.old) (K.faults sink.new) }
    ensures sink_stands { (exit_status result ≡ 4) ⊎ (K.faults sink.new ≡ K.faults sink.old) }
{
    let Ok(words) = words else {
        return end_without_memory(sink);
    };
    let Ok(mut source) = source else {
        return end_without_memory(sink);
    };
    run_to_end(alloc, &words, shelf, &mut source, sink)
}

/// Does what the words ask, and ends with the status of the cause.
fn run_to_end<H: Shelf, S: Source, K: Sink>(
    alloc: Global,
    words: &[Word],
    shelf: &mut H,
    source: &mut S,
    sink: &mut K,
) -> ExitCode
    requires source { S.is_broken source.old ≡ false }
    requires sink { K.is_broken sink.old ≡ false }
    ensures run { RunsTo (shelving_of H.tells H.place H.faults H.Disk.faults H.Disk.content
        H.Disk.loose H.Disk.moment H.Disk.images_since H.Disk.images_now)
        words.now shelf.old shelf.new (S.left source.old) (S.left source.new) (S.faults source.old)
        (S.faults source.new) (K.taken sink.old) (K.taken sink.new) (exit_status result) }
    ensures write_fault { exit_status result ≡ 4
        → FaultCountRose (K.faults sink.old) (K.faults sink.new) }
    ensures sink_stands { (exit_status result ≡ 4) ⊎ (K.faults sink.new ≡ K.faults sink.old) }
{
    let ended = run(alloc, words, shelf, source, sink);
    ExitCode::from(ended.status)
}

/// Ends a call that found no memory to begin with. It takes none.
fn end_without_memory<K: Sink>(sink: &mut K) -> ExitCode
    requires { K.is_broken sink.old ≡ false }
    ensures told { TellsNoMemory (K.taken sink.old) (K.taken sink.new) (exit_status result) }
    ensures write_fault { exit_status result ≡ 4
        → FaultCountRose (K.faults sink.old) (K.faults sink.new) }
    ensures sink_stands { (exit_status result ≡ 4) ⊎ (K.faults sink.new ≡ K.faults sink.old) }
{
    match put_all(sink, b"no memory\n") {
        Ok(()) => ExitCode::from(Cause::Memory.status()),
        Err(_) => ExitCode::from(Cause::Write.status()),
    }
}

/// The words after the program's name. A word that is no text is a word of no command, as no word is.
fn words_given(rt: &HostRuntime) -> Result<Vec<Word>, Memory> {
    match env::args(rt) {
        Ok(texts) => words_of(rt.alloc(), texts.skip(1)),
        Err(error) if error.kind() == io::ErrorKind::OutOfMemory => Err(Memory),
        Err(_) => Ok(Vec::new(rt.alloc())),
    }
}

/// These texts as words, each of them in its place.
fn words_of<I: Iterator<Item = String> + Drop>(alloc: Global, texts: I) -> Result<Vec<Word>, Memory>
    requires more { I.can_next texts }
    requires ends { IsFinite (I.remaining texts) }
    ensures { IfOk result (λ words. AreTexts I.next_gives texts words.items) }
{
    let mut words = Vec::new(alloc);
    for text in texts {
        words.push(Word::new(text))?;
    }
    Ok(words)
}
