use casper_app::run;
use casper_disk::{MemShelf, Shelf};
use casper_io::{MemSink, MemSource};
use casper_text::Word;
use casper_words::Memory;
use std::alloc::Global;

/// Room for whatever a row writes.
pub(crate) const ROOM: u32 = 4096;

pub(crate) fn words_of(alloc: Global, line: &str) -> Result<Vec<Word>, Memory> {
    let mut words = Vec::new(alloc);
    for word in line.split_whitespace() {
        words.push(Word::new(String::from_str(alloc, word)?))?;
    }
    Ok(words)
}

/// A shelf on which nothing stands.
pub(crate) fn no_shelf(alloc: Global) -> Result<MemShelf, Memory> {
    MemShelf::new(alloc, 0, &[])
}

/// The status and the bytes written, where no store is asked for.
pub(crate) fn replayed(
    alloc: Global,
    words: &str,
    input: &[u8],
    read_fails: &[u64],
    write_fails: &[u64],
) -> Result<(u8, Vec<u8>), Memory> {
    let words = words_of(alloc, words)?;
    let mut shelf = no_shelf(alloc)?;
    let mut source = MemSource::new(alloc, input, read_fails)?;
    let mut sink = MemSink::new(alloc, ROOM, write_fails)?;
    let ended = run(alloc, &words, &mut shelf, &mut source, &mut sink);
    Ok((ended.status, Vec::from_slice(alloc, sink.bytes())?))
}

/// The status and the bytes written, over a shelf.
pub(crate) fn run_over<H: Shelf>(
    alloc: Global,
    shelf: &mut H,
    words: &str,
    input: &[u8],
) -> Result<(u8, Vec<u8>), Memory> {
    let words = words_of(alloc, words)?;
    let mut source = MemSource::new(alloc, input, &[])?;
    let mut sink = MemSink::new(alloc, ROOM, &[])?;
    let ended = run(alloc, &words, shelf, &mut source, &mut sink);
    Ok((ended.status, Vec::from_slice(alloc, sink.bytes())?))
}
