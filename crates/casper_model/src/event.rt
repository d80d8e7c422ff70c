use casper_words::{Page, Wants, Who};

/// One event of a schedule.
#[derive(Clone, Copy, Debug, PartialEq, Eq)]
pub enum Event {
    /// The client joins.
    Join(Who),
    /// The client reads a word.
    Read(Who, Page, u32),
    /// The client writes a word.
    Write(Who, Page, u32, u64),
    /// The client asks for one to four pages, with room for one call.
    Acquire(Who, Wants),
    /// The client asks for the one to four pages of a heap line, with room for 600 calls. Once they are granted, the
    /// line's reads and writes are hits.
    Hold(Who, Wants),
    /// The client makes a turn in which it meets the asks of the others.
    Serve(Who),
    /// The client asks for its association to be made stable.
    Stabilise(Who),
    /// The sealed association of this lead is written out.
    WriteOut(Who),
    /// The write-out of this lead is finished.
    Finish(Who),
    /// A write-out in doubt is settled.
    Settle,
    /// The client departs.
    Depart(Who),
    /// The client vanishes without a turn.
    Vanish(Who),
    /// The client is declared lost by another.
    Lose(Who),
}
