use casper_io::Line;
use casper_text::Places;
use casper_words::Memory;
use std::alloc::Global;

/// The room that a replay keeps from line to line, so that most lines take no memory.
#[derive(Drop)]
pub(crate) struct Room {
    /// The line that was read last.
    pub(crate) line: Line,
    /// The places of its words.
    pub(crate) places: Places,
    /// The text of an answer that tells a number or clients.
    pub(crate) text: Vec<u8>,
}

impl Room {
    /// Room for a line and its words, and for a text that grows with the answers that come.
    pub(crate) fn new(alloc: Global) -> Result<Room, Memory> {
        let line = Line::new(alloc)?;
        let places = Places::new(alloc)?;
        Ok(Room {
            line,
            places,
            text: Vec::new(alloc),
        })
    }
}
